//! The calls on a broker as values, and what they are told.
ghost use Rattle.std.specs.Prelude.{◌≡◌, ◌≤◌, length};
ghost use Rattle.machine.specs.Limits.{most_demands};

use crate::draft::Draft;
use arrayvec::ArrayVec;
use claims::{ItemNumber, Party, PromiseNumber};
use machine::{MOST_DEMANDS, Slot};

/// One call on a broker, with its arguments. Three calls have the same three: a struct for these would be no plainer,
/// since every caller would make one only for the call to take it apart.
#[derive(Drop)]
pub enum Call {
    Ask {
        minute: u32,
        party: Party,
        minutes: u32,
        draft: Draft,
    },
    Take {
        minute: u32,
        party: Party,
        number: PromiseNumber,
    },
    Release {
        minute: u32,
        party: Party,
        number: PromiseNumber,
    },
    GiveBack {
        minute: u32,
        party: Party,
        number: PromiseNumber,
    },
    Question {
        number: PromiseNumber,
    },
}

/// The units that a taking hands over, in the order of the demands: four numbers, 0 behind the last, and their count.
/// A rule of the project wants a taking's units so, and an answer can be copied.
#[derive(Clone, Copy)]
pub struct Units {
    pub items: [ItemNumber; MOST_DEMANDS],
    pub count: usize,
    ghost whole: { length items ≡ most_demands },
    ghost few: { count ≤ most_demands },
}

// The units drawn so far.
pub(crate) type Drawn = ArrayVec<ItemNumber, MOST_DEMANDS>;

/// What a call that is not refused is told.
#[derive(Clone, Copy)]
pub enum Answer {
    /// An ask: the number of the promise.
    Granted(PromiseNumber),
    /// A taking: the units.
    Handed(Units),
    /// A release or a give-back.
    Done,
    /// A question: what stands under the number.
    Told(Slot),
}
