//! Answers a booking script on standard input by rows on standard output, over the goods of one meeting.
#![tactic(auto)]

ghost use Rattle.std.specs.Prelude.{◌≤◌, length, IfOk};

use meeting::open_meeting;
use script::{MOST_BYTES, answer_script};
use std::io;
use std::io::Read;

// One byte more than a script may have: a script that fills it is too long.
const LOOKED_AT: usize = MOST_BYTES + 1;

// Fills the buffer from the input as far as it goes, and says how far. No `read_to_end`: that asks for a part of the
// room at first, so that of an input which keeps its messages apart the rest of a long one is lost, and it goes on
// after an interruption.
fn read_some<R: Read>(input: &mut R, bytes: &mut [u8]) -> io::Result<usize>
    ensures { IfOk result (λ n. n ≤ length bytes.new) }
{
    let mut len = 0;
    while len < bytes.len() {
        let got = input.read(&mut bytes[len..])?;
        if got == 0 {
            break;
        }
        len += got;
    }
    Ok(len)
}

fn main(rt: HostRuntime) -> io::Result<()> {
    // the room is asked for once, so that reading asks for none
    let mut bytes = vec![in rt.alloc(); 0u8; LOOKED_AT]?;
    let len = read_some(&mut rt.stdin(), &mut bytes)?;
    let mut broker = open_meeting(rt.alloc())?;
    let mut rows = String::new(rt.alloc());
    answer_script(&mut broker, &bytes[..len], &mut rows)?;
    rt.print(&rows)
}
