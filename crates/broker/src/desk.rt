//! A broker and the calls on it. A call that changes something begins with its minute: the clock moves on, and what has
//! run out by then lapses.
ghost use Rattle.std.specs.Prelude.{◌≤◌, vec_len, vec_capacity};
ghost use Rattle.machine.specs.Entries.{Consistent};
ghost use Rattle.machine.specs.Limits.{most_promises};
ghost use Rattle.broker.specs.Held.{state};

use crate::asking::{check_draft, following};
use crate::bundles::{draw_claims, lift_claims, place_claims};
use crate::call::{Answer, Call, Drawn, Units};
use crate::draft::Draft;
use crate::held::Promise;
use crate::holding::{hold, lapse, slot_under};
use crate::no_room::NoRoom;
use claims::{ItemNumber, Party, PromiseNumber};
use machine::{Event, MOST_DEMANDS, MOST_PROMISES, Refusal, Slot};
use resource::Resource;
use std::alloc::Global;

/// A broker over a resource: its clock, the next promise number if one is left, and the live promises by rising number.
/// Between calls the resource's book holds just the claims of the live promises.
#[derive(Drop)]
pub struct Broker<R: Resource> {
    clock: u32,
    next: Option<PromiseNumber>,
    // A vector, since its room is asked for once; there are 64 at most, so that a walk finds one.
    live: Vec<Promise>,
    resource: R,
    ghost room: { most_promises ≤ vec_capacity live },
    ghost few: { vec_len live ≤ most_promises },
    /// The book holds just the claims of the live promises.
    pub ghost consistent: { ∥ Consistent (state clock next live.items (R.Resource.book resource)) ∥₁ },
}

// The minute, the party and the number stand one by one in the calls, as in `Call`.
impl<R: Resource> Broker<R> {
    ghost use Rattle.std.specs.Prelude.{◌≡◌};
    ghost use Rattle.machine.specs.Machine.{unread_at};
    ghost use Rattle.machine.specs.Machine.Call.{ask as ask_for, take as take_up, release as give_up, give_back as hand_back, question as ask_after};
    ghost use Rattle.machine.specs.Machine.Answer.{told};
    ghost use Rattle.machine.specs.Slots.{slot_number};
    ghost use Rattle.broker.specs.Asks.{FitsDraft, Grants};
    ghost use Rattle.broker.specs.Calls.{call_of, answer_of, granted_or, units_or, handed_or, done_or};
    ghost use Rattle.broker.specs.Drafts.{demands_of};
    ghost use Rattle.broker.specs.Steps.{MadeOver, Passes, Steps, Ends, UnitsLeft};
    ghost use Rattle.broker.specs.View.{view};

    /// A broker with no promises over a resource. Its numbers start at the one given, 0 counting as 1; over a
    /// resource that has claims they are spent. Where memory is short, the resource is handed back.
    pub fn new(heap: Global, resource: R, first: PromiseNumber) -> Result<Broker<R>, NoRoom<R>>
        ensures { MadeOver R.Resource first.0 resource result }
    {
        let next = (resource.count() == 0).then_some(PromiseNumber(first.0.max(1)));
        // A match and no `map_err`, since both arms take the resource.
        match Vec::with_capacity(heap, MOST_PROMISES) {
            Ok(live) => Ok(Broker {
                clock: 0,
                next,
                live,
                resource,
            }),
            Err(error) => Err(NoRoom { error, resource }),
        }
    }

    // Moves the clock on to a minute, and ends each promise that runs out by then.
    fn at_minute(&mut self, minute: u32)
        ensures { Passes R.Resource self.old minute self.new }
    {
        self.clock = self.clock.max(minute);
        lapse(&mut self.live, &mut self.resource, self.clock);
    }

    // Makes a promise of a draft that passes the first questions, if it passes those on promises, numbers and goods.
    // Party, minutes and draft are what `ask` was given: a struct for them would be made for this call alone.
    fn grant(&mut self, party: Party, minutes: u32, draft: Draft) -> Result<PromiseNumber, Refusal>
        requires fits { FitsDraft party.0 minutes (demands_of draft) }
        requires readable { unread_at (R.Resource.rules self.old.resource) 1 (demands_of draft) ≡ 0 }
        ensures same { R.Resource.rules self.new.resource ≡ R.Resource.rules self.old.resource }
        ensures after { Grants (R.Resource.rules self.old.resource) party.0 minutes (demands_of draft) (view R.Resource self.old) (granted_or result) (view R.Resource self.new) }
    {
        if self.live.len() >= MOST_PROMISES {
            return Err(Refusal::TooManyPromises);
        }
        let number = self.next.ok_or(Refusal::NumbersSpent)?;
        let promise = Promise {
            number,
            party,
            last: Some(u64::from(self.clock) + u64::from(minutes)),
            draft,
        };
        place_claims(&mut self.resource, &promise)?;
        self.live.push_reserved(promise);
        self.next = following(number);
        Ok(number)
    }

    /// Asks for a promise of the goods that a draft demands, for so many minutes. The draft is used up.
    pub fn ask(
        &mut self,
        minute: u32,
        party: Party,
        minutes: u32,
        draft: Draft,
    ) -> Result<PromiseNumber, Refusal>
        ensures { Steps R.Resource self.old (ask_for minute party.0 minutes (demands_of draft)) (granted_or result) self.new }
    {
        self.at_minute(minute);
        check_draft(&self.resource, party, minutes, &draft)?;
        self.grant(party, minutes, draft)
    }

    // Takes the goods of a promise, and answers their units.
    fn hand_over(
        &mut self,
        minute: u32,
        party: Party,
        number: PromiseNumber,
    ) -> Result<Drawn, Refusal>
        ensures { Steps R.Resource self.old (take_up minute party.0 number.0) (units_or result) self.new }
    {
        self.at_minute(minute);
        let i = hold(&self.live, party, number, Event::Take)?;
        let units = draw_claims(&mut self.resource, &self.live[i])?;
        self.live[i].last = None;
        Ok(units)
    }

    /// Takes the goods of a promise. A rule of the project wants the units in a place for four numbers that the caller
    /// has, with 0 behind the last, and their count as the answer.
    pub fn take(
        &mut self,
        minute: u32,
        party: Party,
        number: PromiseNumber,
        units: &mut [ItemNumber; MOST_DEMANDS],
    ) -> Result<usize, Refusal>
        ensures steps { Steps R.Resource self.old (take_up minute party.0 number.0) (handed_or units.new result) self.new }
        ensures place { UnitsLeft units.old result units.new }
    {
        let drawn = self.hand_over(minute, party, number)?;
        *units = [ItemNumber(0); MOST_DEMANDS];
        units[..drawn.len()].copy_from_slice(&drawn);
        Ok(drawn.len())
    }

    // Ends a promise that an event fits, and lifts its claims. A release and a give-back are this: they differ in the
    // event alone.
    fn end(
        &mut self,
        minute: u32,
        party: Party,
        number: PromiseNumber,
        event: Event,
    ) -> Result<(), Refusal>
        ensures { Ends R.Resource self.old minute party.0 number.0 event (done_or result) self.new }
    {
        self.at_minute(minute);
        let i = hold(&self.live, party, number, event)?;
        let promise = self.live.remove(i);
        lift_claims(&mut self.resource, &promise);
        Ok(())
    }

    /// Gives up a promise that is not taken.
    pub fn release(
        &mut self,
        minute: u32,
        party: Party,
        number: PromiseNumber,
    ) -> Result<(), Refusal>
        ensures { Steps R.Resource self.old (give_up minute party.0 number.0) (done_or result) self.new }
    {
        self.end(minute, party, number, Event::Release)
    }

    /// Gives back the goods of a promise that is taken.
    pub fn give_back(
        &mut self,
        minute: u32,
        party: Party,
        number: PromiseNumber,
    ) -> Result<(), Refusal>
        ensures { Steps R.Resource self.old (hand_back minute party.0 number.0) (done_or result) self.new }
    {
        self.end(minute, party, number, Event::GiveBack)
    }

    /// What stands under a promise number. Nothing changes, not even the clock.
    pub fn question(&self, number: PromiseNumber) -> Slot
        ensures { Steps R.Resource self.now (ask_after number.0) (told (slot_number result)) self.now }
    {
        slot_under(&self.live, number)
    }

    /// Any of the calls.
    pub fn deal(&mut self, call: Call) -> Result<Answer, Refusal>
        ensures { Steps R.Resource self.old (call_of call) (answer_of result) self.new }
    {
        match call {
            Call::Ask {
                minute,
                party,
                minutes,
                draft,
            } => self.ask(minute, party, minutes, draft).map(Answer::Granted),
            Call::Take {
                minute,
                party,
                number,
            } => {
                let mut items = [ItemNumber(0); MOST_DEMANDS];
                let count = self.take(minute, party, number, &mut items)?;
                Ok(Answer::Handed(Units { items, count }))
            }
            Call::Release {
                minute,
                party,
                number,
            } => self.release(minute, party, number).map(|_| Answer::Done),
            Call::GiveBack {
                minute,
                party,
                number,
            } => self.give_back(minute, party, number).map(|_| Answer::Done),
            Call::Question { number } => Ok(Answer::Told(self.question(number))),
        }
    }
}
