ghost use Rattle.std.specs.Prelude.{◌≡◌};
ghost use Rattle.matching.specs.Matching.{Admits, CoversRight};

use crate::reach::reach;
use crate::suits::Suits;
use crate::way::Steps;
use claims::{Claim, MOST_CLAIMS, MOST_GOODS};

/// Lets the claim at `new` have a good beside the others, which may get other goods for it; not if they cannot all be
/// carried.
#[tactic(auto, using(crate::proofs::Covers::covers_right))]
pub fn admit<G: Suits>(goods: &[G], claims: &[Claim], allotment: &mut [usize], new: usize) -> bool
    ensures admits { Admits G.Suits.suiting goods.now claims.now new allotment.old result allotment.new }
    ensures right { CoversRight G.Suits.suiting goods.now claims.now }
{
    // a flag, and the goods in the caller's list: a new list would ask for memory, which no call of the matching does
    if goods.len() > MOST_GOODS || claims.len() > MOST_CLAIMS {
        return false;
    }
    if allotment.len() != claims.len() || new >= claims.len() {
        return false;
    }
    // marks are bytes, 256 of them lent to the call: a rule of the project
    let mut marks = [0; MOST_GOODS];
    let mut steps = Steps::new();
    // a match and no `map`: what is done with a way answers nothing
    match reach(goods, claims, allotment, new, &mut marks, &mut steps) {
        Ok(way) => {
            way.flip(&steps, allotment, new);
            true
        }
        Err(_) => false,
    }
}
