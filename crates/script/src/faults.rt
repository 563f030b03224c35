ghost use Rattle.std.specs.Prelude.{◌≡◌};
ghost use Rattle.script.specs.Faults.{unread_number, fault_number, at_line, unread_at, refused_at};

use machine::Refusal;

/// What is wrong with a line that is not read: each fault, and the number by which it is told.
#[derive(Clone, Copy)]
pub enum Unread {
    /// its first byte is no call's letter
    Letter = 33,
    /// a further field is not one space and a number
    Number = 34,
    /// it has too few fields, or too many
    Count = 35,
}

impl Unread {
    /// The number by which the fault is told.
    // As `Cause::number`: the numbers are the enum's own, and no cast is of a type parameter.
    pub fn number(self) -> u8
        ensures { result ≡ unread_number self }
    {
        self as u8
    }
}

/// What went wrong on a line.
#[derive(Clone, Copy)]
pub struct OnLine<E> {
    pub line: u32,
    pub fault: E,
}

// Says on which line it went wrong.
pub(crate) fn on_line<T, E>(line: u32, res: Result<T, E>) -> Result<T, OnLine<E>>
    ensures { result ≡ at_line line res }
{
    res.map_err(|fault| OnLine { line, fault })
}

/// Why a script, or a line of it, is turned away.
#[derive(Clone, Copy)]
pub enum ScriptFault {
    /// the script has too many bytes
    TooLong,
    /// the line is not read
    Unread { line: u32, unread: Unread },
    /// the broker turns the line's call away
    Refused { line: u32, refusal: Refusal },
}

impl ScriptFault {
    /// The number by which the fault is told.
    // A match, since a variant with values is not cast to a number.
    pub fn number(self) -> u8
        ensures { result ≡ fault_number self }
    {
        match self {
            ScriptFault::TooLong => 31,
            ScriptFault::Unread { unread, .. } => unread.number(),
            ScriptFault::Refused { refusal, .. } => refusal.number(),
        }
    }
}

// What is wrong with a line that is not read, with its line. Faults become the script's by `From` and `?`, as a rule of
// the project wants.
impl From<OnLine<Unread>> for ScriptFault {
    ghost from_gives = { λ at fault. fault ≡ unread_at at };

    fn from(at: OnLine<Unread>) -> ScriptFault {
        let OnLine {
            line,
            fault: unread,
        } = at;
        ScriptFault::Unread { line, unread }
    }
}

// A broker's refusal is carried whole, with its line.
impl From<OnLine<Refusal>> for ScriptFault {
    ghost from_gives = { λ at fault. fault ≡ refused_at at };

    fn from(at: OnLine<Refusal>) -> ScriptFault {
        let OnLine {
            line,
            fault: refusal,
        } = at;
        ScriptFault::Refused { line, refusal }
    }
}
