ghost use Rattle.std.specs.Prelude.{◌≡◌, ℕ, ◌^◌, ◌<◌, decimal, MatchOption, ◌≢◌};
ghost use Rattle.script.specs.Spaced.{ReadsFields};

use crate::faults::Unread;
use arrayvec::ArrayVec;
use machine::MOST_DEMANDS;
use std::str;

// As many numbers as a demand has.
pub(crate) const DEMAND_SIZE: usize = 3;

// As many numbers as a call may have: an ask has three, and those of its demands.
const MOST_NUMBERS: usize = 3 + DEMAND_SIZE * MOST_DEMANDS;

// What stands before each number of a line.
const SPACE: u8 = b' ';

// The number that is written so: in digits, with no sign and no leading zero, and small enough.
fn number(digits: &[u8]) -> Option<u32>
    ensures { MatchOption result ((n : ℕ) → n < 2 ^ 32 → digits.now ≢ decimal n) (λ n. digits.now ≡ decimal n) }
{
    if digits.starts_with(b"+") || (digits.starts_with(b"0") && digits.len() > 1) {
        return None;
    }
    str::from_utf8(digits).ok()?.parse::<u32>().ok()
}

// The numbers after the letter, if each is a space and a number, and if a call may have so many. Every field is read
// before it is asked whether there was room for all, so that a field that is no number is told before a wrong count.
pub(crate) fn read_fields(bytes: &[u8]) -> Result<ArrayVec<u32, MOST_NUMBERS>, Unread>
    ensures { ReadsFields bytes.now result }
{
    let mut fields = bytes.split(|byte| *byte == SPACE);
    // nothing may stand before the first space
    let before = fields.next().ok_or(Unread::Number)?;
    if !before.is_empty() {
        return Err(Unread::Number);
    }
    let mut numbers = ArrayVec::new();
    // whether there was room for the last number that was read: once there is none for one, there is none for those
    // after it, so that the last answer tells of all
    let mut kept = Ok(());
    for field in fields {
        let next = number(field).ok_or(Unread::Number)?;
        kept = numbers.try_push(next);
    }
    kept.map_err(|_| Unread::Count)?;
    Ok(numbers)
}
