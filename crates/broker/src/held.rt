//! A live promise.
use crate::draft::Draft;
use claims::{Party, PromiseNumber};
use machine::{Event, Slot};

// A live promise, with its last minute until it is taken.
#[derive(Drop)]
pub(crate) struct Promise {
    pub(crate) number: PromiseNumber,
    pub(crate) party: Party,
    pub(crate) last: Option<u64>,
    pub(crate) draft: Draft,
}

impl Promise {
    ghost use Rattle.std.specs.Prelude.{◌≡◌, Some};
    ghost use Rattle.machine.specs.Machine.{slot_of, lapsed as has_lapsed};
    ghost use Rattle.broker.specs.Held.{promise_view};

    // Whether it is promised or taken.
    pub(crate) fn slot(&self) -> Slot
        ensures { result ≡ slot_of (Some (promise_view self.now)) }
    {
        // a match and no `map_or`: neither state is made of the minute
        match self.last {
            Some(_) => Slot::Promised,
            None => Slot::Taken,
        }
    }

    // Whether it runs out by a minute.
    pub(crate) fn lapses(&self, clock: u32) -> bool
        ensures { result ≡ has_lapsed clock (promise_view self.now) }
    {
        self.slot().meets(Event::Lapse).is_some()
            && self.last.is_some_and(|last| last <= u64::from(clock))
    }
}
