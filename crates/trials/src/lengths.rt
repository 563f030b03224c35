//! Scripts at the longest that is looked at.
use crate::rows_of;
use script::MOST_BYTES;
use std::alloc::{AllocError, Global};
use std::io;

// A first piece, and then so many times another.
fn repeated(heap: Global, first: &str, times: usize, then: &str) -> Result<String, AllocError> {
    let mut text = String::from_str(heap, first)?;
    // a range that says how often
    for _ in 0..times {
        text.push_str(then)?;
    }
    Ok(text)
}

// Runs a long script, and tells how many rows came and the last of them.
fn try_long(rt: &HostRuntime, first: &str, times: usize, then: &str) -> io::Result<()> {
    let script = repeated(rt.alloc(), first, times, then)?;
    let rows = rows_of(rt, script.as_bytes())?;
    let bytes = script.len();
    let count = rows.lines().count();
    match rows.lines().last() {
        Some(last) => println!(rt; "script of {bytes} bytes: rows {count}, the last {last}"),
        None => println!(rt; "script of {bytes} bytes: no rows"),
    }
}

pub(crate) fn try_lengths(rt: &HostRuntime) -> io::Result<()> {
    try_long(rt, "", 0, "")?;
    try_long(rt, "q 1", 0, "")?;
    try_long(rt, "q ", MOST_BYTES - 2, "1")?;
    try_long(rt, "a", MOST_BYTES / 2, " 0")?;
    try_long(rt, "", MOST_BYTES, "\n")?;
    try_long(rt, "", MOST_BYTES + 1, "\n")
}
