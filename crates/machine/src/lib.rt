//! The broker's machine: what a call on promises is refused for, and what an event makes of a promise.
#![tactic(auto)]

ghost use Rattle.std.specs.Prelude.{◌≡◌};
ghost use Rattle.machine.specs.Refusals.{refusal_number, not_carried_for};
ghost use Rattle.machine.specs.Slots.{slot_number, met};
ghost use Rattle.machine.specs.Reached.{StaysConsistent};

use claims::Fault;

/// As many promises as may live at once.
pub const MOST_PROMISES: usize = 64;

/// As many demands as a draft may have, and as many keys as a promise has for its claims.
pub const MOST_DEMANDS: usize = 4;

/// As many minutes as a promise may be asked for.
pub const MOST_MINUTES: u32 = 20160;

/// The last number that a promise may have.
pub const LAST_NUMBER: u32 = u32::MAX;

/// Why a broker turns a call away, in the order in which the questions are put.
#[derive(Clone, Copy)]
pub enum Refusal {
    /// the party is not 1 to 32
    NotAParty,
    /// the draft has not 1 to 4 demands
    DraftSize,
    /// the minutes are not 1 to 20,160
    MinutesOutside,
    /// no promise of that number lives
    NotLive,
    /// the promise is another party's
    NotYours,
    /// the promise is taken already, or for a give-back not taken yet
    WrongState,
    /// the demand at this position, from 1, is the first that the resource does not read
    Unreadable(u8),
    /// as many promises live as may
    TooManyPromises,
    /// no promise number is left
    NumbersSpent,
    /// the demands up to this position, from 1, are not carried, for the resource's fault there
    NotCarried(u8, Fault),
}

impl Refusal {
    /// The number by which a refusal is told. A match, since a variant with values is not cast to a number.
    pub fn number(self) -> u8
        ensures { result ≡ refusal_number self }
    {
        match self {
            Refusal::NotAParty => 1,
            Refusal::DraftSize => 2,
            Refusal::MinutesOutside => 3,
            Refusal::NotLive => 4,
            Refusal::NotYours => 5,
            Refusal::WrongState => 6,
            Refusal::Unreadable(_) => 7,
            Refusal::TooManyPromises => 8,
            Refusal::NumbersSpent => 9,
            Refusal::NotCarried(_, _) => 10,
        }
    }
}

/// A resource's fault is carried whole; its key says which demand of its promise it is for.
impl From<Fault> for Refusal {
    ghost from_gives = { λ fault refusal. refusal ≡ not_carried_for fault };

    fn from(fault: Fault) -> Refusal {
        // four keys to a promise, so the remainder fits a u8; no `From` leads from usize to u64
        let position = (fault.key.0 % MOST_DEMANDS as u64) as u8 + 1;
        Refusal::NotCarried(position, fault)
    }
}

/// What stands under a promise number: nothing, or a promise in its state.
#[derive(Clone, Copy)]
pub enum Slot {
    Empty = 0,
    Promised = 1,
    Taken = 2,
}

/// What can happen to a promise.
#[derive(Clone, Copy)]
pub enum Event {
    Take,
    Release,
    GiveBack,
    Lapse,
}

impl Slot {
    /// The number by which the state is told to a question.
    // As `Cause::number`: the numbers are the enum's own, and no cast is of a type parameter.
    pub fn number(self) -> u8
        ensures { result ≡ slot_number self }
    {
        self as u8
    }

    /// What an event makes of what it finds; none where it does not fit.
    // The state is matched together with the event: a rule of the project.
    pub fn meets(self, event: Event) -> Option<Slot>
        ensures { result ≡ met self event }
    {
        match (self, event) {
            (Slot::Empty, Event::Take | Event::Release | Event::GiveBack | Event::Lapse) => None,
            (Slot::Promised, Event::Take) => Some(Slot::Taken),
            (Slot::Promised, Event::Release | Event::Lapse) => Some(Slot::Empty),
            (Slot::Promised, Event::GiveBack) => None,
            (Slot::Taken, Event::GiveBack) => Some(Slot::Empty),
            (Slot::Taken, Event::Take | Event::Release | Event::Lapse) => None,
        }
    }
}

/// States a theorem: whatever calls a broker has answered, the goods carry its book, which holds just the claims of
/// its promises; a broker made over a book with claims promises nothing and leaves that book alone.
/// It answers 0, as it always did; what it states is its second clause.
pub fn machine_stays_consistent() -> u8
    ensures value { result ≡ 0 }
    ensures stated { StaysConsistent }
{
    0
}
