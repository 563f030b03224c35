ghost use Rattle.std.specs.Prelude.{◌≡◌, ◌++◌, is_ok, if◌then◌else◌, Some, string_bytes, decimal};
ghost use Rattle.broker.specs.Calls.{units_of, told_by};
ghost use Rattle.script.specs.Faults.{refusal_values, fault_number, fault_values};
ghost use Rattle.script.specs.Rows.{worded, said, row_bytes};
ghost use Rattle.script.specs.Spaced.{spaced};

use crate::faults::ScriptFault;
use broker::{Answer, Units};
use machine::Refusal;
use std::alloc::AllocError;
use std::fmt;

// The units that a taking hands over, each after a space. They are of another crate, as the answers and refusals below
// are, and are printed here in a type of this one.
#[derive(Clone, Copy)]
struct Handed(Units);

impl fmt::Display for Handed {
    ghost output = { λ u. Some (spaced (units_of u.0)) };

    fn fmt<W: fmt::Write>(&self, f: &mut fmt::Formatter<W>) -> fmt::Result {
        let units = &self.0.items[..self.0.count];
        for unit in units {
            write!(f, " {}", unit.0)?;
        }
        Ok(())
    }
}

// The word for an answer, and its numbers, each after a space.
#[derive(Clone, Copy)]
struct Told(Answer);

impl fmt::Display for Told {
    ghost output = { λ a. Some (worded (told_by a.0)) };

    fn fmt<W: fmt::Write>(&self, f: &mut fmt::Formatter<W>) -> fmt::Result {
        match self.0 {
            Answer::Granted(number) => write!(f, " ok {}", number.0),
            Answer::Handed(units) => write!(f, " ok{}", Handed(units)),
            Answer::Done => write!(f, " ok"),
            Answer::Told(slot) => write!(f, " ok {}", slot.number()),
        }
    }
}

// Where in its draft a refusal stands, and why, each after a space, as far as it says so.
#[derive(Clone, Copy)]
struct Details(Refusal);

impl fmt::Display for Details {
    ghost output = { λ d. Some (spaced (refusal_values d.0)) };

    fn fmt<W: fmt::Write>(&self, f: &mut fmt::Formatter<W>) -> fmt::Result {
        match self.0 {
            Refusal::Unreadable(position) => write!(f, " {position}"),
            Refusal::NotCarried(position, fault) => write!(
                f,
                " {position} {}",
                fault.cause.number()
            ),
            Refusal::NotAParty
            | Refusal::DraftSize
            | Refusal::MinutesOutside
            | Refusal::NotLive
            | Refusal::NotYours
            | Refusal::WrongState
            | Refusal::TooManyPromises
            | Refusal::NumbersSpent => Ok(()),
        }
    }
}

// The number of a fault, and what a refusal tells beside it.
impl fmt::Display for ScriptFault {
    ghost output = { λ fault. Some (decimal (fault_number fault) ++ spaced (fault_values fault)) };

    fn fmt<W: fmt::Write>(&self, f: &mut fmt::Formatter<W>) -> fmt::Result {
        match self {
            ScriptFault::TooLong | ScriptFault::Unread { .. } => write!(f, "{}", self.number()),
            ScriptFault::Refused { refusal, .. } => write!(
                f,
                "{}{}",
                refusal.number(),
                Details(*refusal)
            ),
        }
    }
}

/// Adds the row of line n; where memory is short, the rows stand as they were.
pub fn push_row(
    out: &mut String,
    n: u32,
    answer: &Result<Answer, ScriptFault>,
) -> Result<(), AllocError>
    ensures { string_bytes out.new ≡ (if is_ok result then string_bytes out.old ++ row_bytes n (said answer.now) else string_bytes out.old) }
{
    let alloc = *out.allocator();
    let row = match answer {
        Ok(answer) => format!(in alloc; "{n}{}\n", Told(*answer))?,
        Err(fault) => format!(in alloc; "{n} no {fault}\n")?,
    };
    out.push_str(&row)
}
