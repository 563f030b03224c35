//! Tries many cases, and tells what came. Standard input has scripts, each after a line that says what is tried: one
//! that begins with '=' is run over the meeting's goods, one that begins with '+' over a large pool, and each over
//! goods that have no claims yet.
#![tactic(auto)]

use broker::Broker;
use claims::PromiseNumber;
use goods::Pool;
use meeting::open_meeting;
use resource::Resource;
use script::answer_script;
use std::alloc::AllocError;
use std::io;
use std::io::{Read, Write};

mod calls;
mod lengths;

// What begins the title of a script over the meeting's goods, and of one over a large pool.
const MEETING: u8 = b'=';

const POOL: u8 = b'+';

// The large pool, and a first number after which 63 more are left.
const POOL_SIZE: u32 = 60000;

const POOL_FIRST: u32 = u32::MAX - 63;

// The rows of a script, over a broker. The runtime is handed down whole, here and below, since nothing but this
// program calls these functions.
fn rows_over<R: Resource>(
    rt: &HostRuntime,
    broker: &mut Broker<R>,
    script: &[u8],
) -> Result<String, AllocError> {
    let mut rows = String::new(rt.alloc());
    answer_script(broker, script, &mut rows)?;
    Ok(rows)
}

// The rows of a script over the meeting's goods.
pub(crate) fn rows_of(rt: &HostRuntime, script: &[u8]) -> Result<String, AllocError> {
    let mut broker = open_meeting(rt.alloc())?;
    rows_over(rt, &mut broker, script)
}

// The rows of a script over a large pool.
fn rows_on_pool(rt: &HostRuntime, script: &[u8]) -> Result<String, AllocError> {
    let pool = Pool::new(rt.alloc(), 1, POOL_SIZE)?;
    let mut broker = Broker::new(rt.alloc(), pool, PromiseNumber(POOL_FIRST))?;
    rows_over(rt, &mut broker, script)
}

// Tells the title and the rows of one part of the input: a title's line, and a script. What stands before the first
// title is no part.
fn try_part(rt: &HostRuntime, part: &[u8]) -> io::Result<()> {
    // no `?`: a part without a line has no title, which is no fault
    let Some(end) = part.iter().position(|byte| *byte == b'\n') else {
        return Ok(());
    };
    let (title, script) = part.split_at(end + 1);
    if !matches!(title, [MEETING | POOL, ..]) {
        return Ok(());
    }
    rt.stdout().write_all(title)?;
    let rows = match title {
        [POOL, ..] => rows_on_pool(rt, script)?,
        _ => rows_of(rt, script)?,
    };
    rt.print(&rows)
}

// Whether a title begins at the next byte, which is behind this one.
fn begins_title(byte: u8, next: u8) -> bool {
    byte == b'\n' && matches!(next, MEETING | POOL)
}

// Tries each part of the input.
fn try_parts(rt: &HostRuntime, input: &[u8]) -> io::Result<()> {
    for part in input.chunk_by(|byte, next| !begins_title(*byte, *next)) {
        try_part(rt, part)?;
    }
    Ok(())
}

fn main(rt: HostRuntime) -> io::Result<()> {
    let mut input = Vec::new(rt.alloc());
    rt.stdin().read_to_end(&mut input)?;
    try_parts(&rt, &input)?;
    lengths::try_lengths(&rt)?;
    calls::try_calls(&rt)
}
