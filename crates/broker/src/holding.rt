//! The live promises: which one a call is for, and which ones lapse. The functions take the list and no broker: what
//! they answer hangs on no resource, and `lapse`, which lifts claims, is lent one beside the list.
ghost use Rattle.std.specs.Prelude.{◌≡◌, ◌≤◌, vec_len, vec_capacity};
ghost use Rattle.machine.specs.Machine.{promise_of, slot_of, standing as still_standing, kept as book_kept};
ghost use Rattle.broker.specs.Bundles.{Rebooks};
ghost use Rattle.broker.specs.Holds.{Found, HeldAt};
ghost use Rattle.broker.specs.Held.{live_view};

use crate::bundles::lift_claims;
use crate::held::Promise;
use claims::{Party, PromiseNumber};
use machine::{Event, Refusal, Slot};
use resource::Resource;

// Ends each promise that runs out by a minute.
pub(crate) fn lapse<R: Resource>(live: &mut Vec<Promise>, resource: &mut R, clock: u32)
    ensures room { vec_capacity live.new ≡ vec_capacity live.old }
    ensures fewer { vec_len live.new ≤ vec_len live.old }
    ensures stand { live_view live.new.items ≡ still_standing clock (live_view live.old.items) }
    ensures lifted { Rebooks R.Resource resource.old resource.new (book_kept clock (live_view live.old.items) (R.Resource.book resource.old)) }
{
    let mut promises = live.iter();
    // mostly none lapses, and then this is the only walk
    let Some(first) = promises.find(|promise| promise.lapses(clock)) else {
        return;
    };
    lift_claims(resource, first);
    for promise in promises {
        if promise.lapses(clock) {
            lift_claims(resource, promise);
        }
    }
    live.retain(|promise| !promise.lapses(clock));
}

// Where a promise stands among the live ones.
pub(crate) fn position(live: &[Promise], number: PromiseNumber) -> Option<usize>
    ensures { Found number.0 live.now result }
{
    live.iter().position(|promise| promise.number == number)
}

// What stands under a number.
pub(crate) fn slot_under(live: &[Promise], number: PromiseNumber) -> Slot
    ensures { result ≡ slot_of (promise_of number.0 (live_view live.now)) }
{
    position(live, number).map_or(Slot::Empty, |i| live[i].slot())
}

// Where a promise of a party stands that an event fits, or why a call for it is refused.
// The event picks no step here: `Slot::meets` has it met by the state, as a rule of the project wants.
pub(crate) fn hold(
    live: &[Promise],
    party: Party,
    number: PromiseNumber,
    event: Event,
) -> Result<usize, Refusal>
    ensures { HeldAt party.0 number.0 event live.now result }
{
    if !party.is_known() {
        return Err(Refusal::NotAParty);
    }
    let i = position(live, number).ok_or(Refusal::NotLive)?;
    if live[i].party != party {
        return Err(Refusal::NotYours);
    }
    if live[i].slot().meets(event).is_none() {
        return Err(Refusal::WrongState);
    }
    Ok(i)
}
