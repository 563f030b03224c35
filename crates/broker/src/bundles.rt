//! The claims of one promise, all together.
ghost use Rattle.std.specs.Prelude.{◌≡◌, ◌+◌, ◌*◌, ◌≤◌, List, length};
ghost use Rattle.claims.specs.declared.Demand.{Demand as Wanted};
ghost use Rattle.machine.specs.Limits.{most_demands};
ghost use Rattle.machine.specs.Machine.{keys_from, keys_of, lift_all};
ghost use Rattle.broker.specs.Bundles.{Rebooks, Bundled, HandedOut};
ghost use Rattle.broker.specs.Drafts.{demands_of};
ghost use Rattle.broker.specs.Held.{promise_view};

use crate::call::Drawn;
use crate::held::Promise;
use arrayvec::ArrayVec;
use claims::{ClaimKey, Fault};
use machine::MOST_DEMANDS;
use resource::Resource;

// The key of a promise's claim for the demand at a place in its draft: 4 n + j for demand j of promise n. The two casts
// lose nothing: both are 4 at most, and a `usize` has no `From` into `u64`.
fn claim_key(promise: &Promise, place: usize) -> ClaimKey
    requires { place ≤ most_demands }
    ensures { result.0 ≡ most_demands * promise.now.number.0 + place }
{
    ClaimKey(MOST_DEMANDS as u64 * u64::from(promise.number.0) + place as u64)
}

// Lifts the first claims of a promise, so many of them.
fn lift_first<R: Resource>(resource: &mut R, promise: &Promise, count: usize)
    requires { count ≤ most_demands }
    ensures { (ds : List Wanted) → length ds ≡ count → Rebooks R.Resource resource.old resource.new (lift_all (keys_from (most_demands * promise.now.number.0) ds) (R.Resource.book resource.old)) }
{
    // a range and no walk over the demands: of each its key alone is wanted, which the place gives
    for place in 0..count {
        // The result can be let go: a claim that is not there needs no lifting.
        let _ = resource.lift(claim_key(promise, place));
    }
}

// Lifts the claims of a promise.
pub(crate) fn lift_claims<R: Resource>(resource: &mut R, promise: &Promise)
    ensures { Rebooks R.Resource resource.old resource.new (lift_all (keys_of (promise_view promise.now)) (R.Resource.book resource.old)) }
{
    lift_first(resource, promise, promise.draft.len());
}

// Places the claims of a promise one after the other. At the first that is refused it lifts those before.
pub(crate) fn place_claims<R: Resource>(resource: &mut R, promise: &Promise) -> Result<(), Fault>
    ensures { Bundled R.Resource resource.old promise.now.number.0 promise.now.party.0 (demands_of promise.now.draft) result resource.new }
{
    let demands = promise.draft.as_slice();
    for (place, demand) in demands.iter().enumerate() {
        if let Err(fault) = resource.place(claim_key(promise, place), promise.party, *demand) {
            lift_first(resource, promise, place);
            return Err(fault);
        }
    }
    Ok(())
}

// Draws the claims of a promise, in the order of its demands.
pub(crate) fn draw_claims<R: Resource>(resource: &mut R, promise: &Promise) -> Result<Drawn, Fault>
    ensures { HandedOut R.Resource resource.old (promise_view promise.now) result resource.new }
{
    let mut units = ArrayVec::new();
    // a range, as in `lift_first`
    for place in 0..promise.draft.len() {
        units.push(resource.draw(claim_key(promise, place))?);
    }
    Ok(units)
}
