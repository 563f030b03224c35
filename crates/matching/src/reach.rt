ghost use Rattle.std.specs.Prelude.{◌≡◌, ◌+◌, ◌<◌, ◌≤◌, ◌&&◌, [], length};
ghost use Rattle.claims.specs.Book.{waits_or_has};
ghost use Rattle.claims.specs.Limits.{most_claims, most_goods};
ghost use Rattle.matching.specs.Paths.{Blank, Holders, fits};
ghost use Rattle.matching.specs.Ways.{Leads};

use crate::sheet::Sheet;
use crate::suits::Suits;
use crate::way::{Step, Steps, TooFew, Way};
use claims::{Claim, MOST_GOODS};

// Whether the good at a place serves a claim: it suits the demand, and is the claim's own unit if the claim is out. The
// good at place 0 is unit 1.
fn serves<G: Suits>(good: &G, place: usize, claim: Claim) -> bool
    requires { place < most_goods }
    ensures { result ≡ (waits_or_has (place + 1) claim.state && G.Suits.suiting good.now claim.demand) }
{
    // a cast that is proved to lose nothing: `try_from` would add a case that never comes
    claim.state.waits_or_has(place as u32 + 1) && good.suits(claim.demand)
}

// For each good the claim that has it, but for the claim at `new`, which has none yet: an array and no map, since a rule
// of the project has no call of the matching ask for memory. Each call makes it anew, so that it is kept small: there are
// few claims, and the cast of their places is proved to lose nothing.
fn holders_of(allotment: &[usize], new: usize) -> [Option<u16>; MOST_GOODS]
    requires { length allotment.now ≤ most_claims }
    ensures { Holders allotment.now new result }
{
    let mut holders = [None; MOST_GOODS];
    for (i, &good) in allotment.iter().enumerate() {
        // not through `get_mut`: its proof does not close, since what the table then holds is not said
        if good < MOST_GOODS && i != new {
            holders[good] = Some(i as u16);
        }
    }
    holders
}

// The way from the claim at `new` to a good that no other claim has, breadth first over the goods that serve a claim and
// the claims that have them. What is lent goes to this one call, so that a struct of it would be no plainer.
pub(crate) fn reach<G: Suits>(
    goods: &[G],
    claims: &[Claim],
    allotment: &[usize],
    new: usize,
    marks: &mut [u8],
    steps: &mut Steps,
) -> Result<Way, TooFew>
    requires few { length goods.now ≤ most_goods }
    requires crowd { length claims.now ≤ most_claims }
    requires same { length allotment.now ≡ length claims.now }
    requires one { new < length claims.now }
    requires wide { length goods.now ≤ length marks.old }
    requires clean { Blank marks.old }
    requires none { steps.old.items ≡ [] }
    ensures leads { Leads (fits G.Suits.suiting goods.now claims.now) (length claims.now) new allotment.now steps.new.items result }
    ensures wiped { Blank marks.new }
{
    let holders = holders_of(allotment, new);
    let sheet = Sheet(marks);
    steps.push(Step {
        claim: new,
        from: 0,
    });
    let mut from = 0;
    // the steps grow as they are walked, which a `for` does not allow
    while let Some(&step) = steps.as_slice().get(from) {
        let asking = claims[step.claim];
        for (good, offered) in goods.iter().enumerate() {
            if sheet.0[good] != 0 || !serves(offered, good, asking) {
                continue;
            }
            // no `?`: a good that no claim has is the answer
            let Some(claim) = holders[good] else {
                return Ok(Way { place: from, good });
            };
            sheet.0[good] = 1;
            let claim = usize::from(claim);
            steps.push(Step { claim, from });
        }
        from += 1;
    }
    Err(TooFew)
}
