ghost use Rattle.std.specs.Prelude.{◌≡◌, ◌≤◌};
ghost use Rattle.claims.specs.Held.{claims_book};
ghost use Rattle.claims.specs.Limits.{most_goods};
ghost use Rattle.goods.specs.NamedGoods.{names};

use crate::MOST_GOODS;
use crate::kind::Goods;
use crate::noting::NotingGoods;
use crate::stock::Stock;
use claims::{Cause, Claim, Claims, Demand, ItemNumber};
use shelf::gives_one_number;
use std::alloc::{AllocError, Global};

#[cfg(test)]
mod tests;

/// Goods with numbers from 1 up, of which a demand names one.
#[derive(Drop)]
pub struct Items {
    count: u32,
    ghost sized: { count ≤ most_goods },
}

/// Goods on a shelf that are asked for by number, such as tables.
pub type Named = Stock<Items>;

// A demand names one of them.
const EACH: usize = 1;

impl Named {
    ghost use Rattle.std.specs.Prelude.{min, IfOk};
    ghost use Rattle.goods.specs.NamedGoods.{named as named_by, ItemsRule};
    ghost use Rattle.goods.specs.Views.{named_rules, named_book};
    ghost use Rattle.shelf.specs.Shelves.{Opened};

    /// Goods from 1 up to a number, with no claims; what is above the most goods is left out.
    // `Pool::new` is like it but for the most and the theorem: what both share is `Stock::with_goods`.
    pub fn new(heap: Global, shelf: u32, goods: u32) -> Result<Named, AllocError>
        ensures opened { IfOk result (λ n. Opened (named_by shelf (min goods most_goods)) (named_rules n) (named_book n)) }
        ensures items { ItemsRule shelf (min goods most_goods) }
    {
        let count = goods.min(MOST_GOODS);
        Stock::with_goods(heap, shelf, Items { count })
    }
}

// Whether some claim names the item.
fn is_promised(claims: &Claims, item: u32) -> bool
    ensures { result ≡ names item (claims_book claims.now) }
{
    claims
        .as_slice()
        .iter()
        .any(|claim| claim.demand.first == item)
}

impl NotingGoods for Items {
    ghost use Rattle.std.specs.Prelude.{true};
    ghost use Rattle.goods.specs.Items.{named-goods};

    ghost goods = { λ i. named-goods i.count i.sized };

    // named goods look through the claims, and keep nothing of them
    ghost noted = { λ _ _. true };

    ghost alike = { λ _ _ _ _ noted. noted };

    // as for a quantity but for the most: the common text, with that as its argument, is `gives_one_number`
    fn is_well_formed(&self, demand: Demand) -> bool {
        gives_one_number(demand, MOST_GOODS)
    }

    fn units_counted(&self, _demand: Demand) -> usize {
        EACH
    }

    fn unit_given(&self, demand: Demand) -> ItemNumber {
        ItemNumber(demand.first)
    }

    fn suffice_as_noted(&self, claims: &Claims, claim: Claim) -> bool {
        let item = claim.demand.first;
        !is_promised(claims, item) && item <= self.count
    }

    fn note(&mut self, _claim: Claim) {}

    fn forget(&mut self, _claim: Claim) {}

    fn why_short(&self) -> Cause {
        Cause::ItemTaken
    }
}

// They keep nothing of the claims, so that they answer alike with no notes.
impl Goods for Items {
    ghost use Rattle.goods.specs.Items.{named-goods};

    ghost goods = { λ i. named-goods i.count i.sized };

    fn is_formed(&self, demand: Demand) -> bool {
        self.is_well_formed(demand)
    }

    fn amount(&self, demand: Demand) -> usize {
        self.units_counted(demand)
    }

    fn unit(&self, demand: Demand) -> ItemNumber {
        self.unit_given(demand)
    }

    fn suffice_with(&self, claims: &Claims, claim: Claim) -> bool {
        self.suffice_as_noted(claims, claim)
    }

    fn shortage(&self) -> Cause {
        self.why_short()
    }
}
