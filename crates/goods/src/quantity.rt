ghost use Rattle.std.specs.Prelude.{◌≡◌, ◌≤◌, ◌<◌, ◌^◌};
ghost use Rattle.claims.specs.Held.{claims_book};
ghost use Rattle.claims.specs.Limits.{most_units};
ghost use Rattle.goods.specs.Pooled.{quantities};

use crate::kind::Goods;
use crate::noting::NotingGoods;
use crate::stock::Stock;
use claims::{Cause, Claim, Claims, Demand, ItemNumber, MOST_UNITS};
use shelf::gives_one_number;
use std::alloc::{AllocError, Global};

#[cfg(test)]
pub(crate) mod tests;

// The one unit number that like units have.
const UNNUMBERED: u32 = 0;

/// Like units, of which a demand gives the quantity.
#[derive(Drop)]
pub struct Quantity {
    size: u32,
    // the quantities of all claims, waiting and out: kept, so that no claim is weighed by a walk over the others
    used: u32,
    ghost sized: { size ≤ most_units },
}

/// A quantity of like units on a shelf, such as buggies.
pub type Pool = Stock<Quantity>;

impl Pool {
    ghost use Rattle.std.specs.Prelude.{min, IfOk};
    ghost use Rattle.goods.specs.Pooled.{pool as pooled, EscrowRule};
    ghost use Rattle.goods.specs.Views.{pool_rules, pool_book};
    ghost use Rattle.shelf.specs.Shelves.{Opened};

    /// A pool with no claims; of its size, what is above the most units is left out.
    // `Named::new` is like it but for the most and the theorem: what both share is `Stock::with_goods`.
    pub fn new(heap: Global, shelf: u32, size: u32) -> Result<Pool, AllocError>
        ensures opened { IfOk result (λ p. Opened (pooled shelf (min size most_units)) (pool_rules p) (pool_book p)) }
        ensures escrow { EscrowRule shelf (min size most_units) }
    {
        let size = size.min(MOST_UNITS);
        Stock::with_goods(heap, shelf, Quantity { size, used: 0 })
    }
}

impl NotingGoods for Quantity {
    ghost use Rattle.goods.specs.Pools.{pool-goods, used_for, used-alike};

    ghost goods = { λ u. pool-goods u.size };

    ghost noted = { λ u b. used_for u.used b };

    ghost alike = { λ u k n b. used-alike u.used k n b };

    // as for items but for the most: the common text, with that as its argument, is `gives_one_number`
    fn is_well_formed(&self, demand: Demand) -> bool {
        gives_one_number(demand, MOST_UNITS)
    }

    fn units_counted(&self, demand: Demand) -> usize {
        // there is no From for u32 into usize
        demand.first as usize
    }

    fn unit_given(&self, _demand: Demand) -> ItemNumber {
        ItemNumber(UNNUMBERED)
    }

    fn suffice_as_noted(&self, _claims: &Claims, claim: Claim) -> bool {
        self.used.saturating_add(claim.demand.first) <= self.size
    }

    fn note(&mut self, claim: Claim) {
        self.used = self.used.saturating_add(claim.demand.first);
    }

    fn forget(&mut self, claim: Claim) {
        self.used = self.used.saturating_sub(claim.demand.first);
    }

    fn why_short(&self) -> Cause {
        Cause::PoolShort
    }
}

// The quantities of all claims, waiting and out, for a caller that has no notes. There are few claims, and each quantity
// is small, so that the sum has room for one more.
fn promised(claims: &Claims) -> u64
    ensures value { result ≡ quantities (claims_book claims.now) }
    ensures small { result < 2 ^ 40 }
{
    claims
        .as_slice()
        .iter()
        .map(|claim| u64::from(claim.demand.first))
        .sum()
}

impl Goods for Quantity {
    ghost use Rattle.goods.specs.Pools.{pool-goods};

    ghost goods = { λ u. pool-goods u.size };

    fn is_formed(&self, demand: Demand) -> bool {
        self.is_well_formed(demand)
    }

    fn amount(&self, demand: Demand) -> usize {
        self.units_counted(demand)
    }

    fn unit(&self, demand: Demand) -> ItemNumber {
        self.unit_given(demand)
    }

    fn suffice_with(&self, claims: &Claims, claim: Claim) -> bool {
        promised(claims) + u64::from(claim.demand.first) <= u64::from(self.size)
    }

    fn shortage(&self) -> Cause {
        self.why_short()
    }
}
