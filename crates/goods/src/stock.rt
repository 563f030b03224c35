ghost use Rattle.std.specs.Prelude.{◌≡◌, true};
ghost use Rattle.claims.specs.Book.{every};
ghost use Rattle.claims.specs.Held.{claims_book};
ghost use Rattle.claims.specs.Rules.{readable};
ghost use Rattle.goods.specs.Fixed.{rules_of};

use crate::noting::NotingGoods;
use claims::{Claim, ClaimKey, Claims, Counting, Demand, Fault, ItemNumber, Party};
use resource::Resource;
use shelf::{check_entry, held_under, is_on_shelf, waiting_under};
use std::alloc::{AllocError, Global};

/// Goods on a shelf, and the claims on them.
#[derive(Drop)]
pub struct Stock<G: NotingGoods> {
    shelf: u32,
    goods: G,
    claims: Claims,
    ghost carries: { (rules_of shelf (G.goods goods)).carries (claims_book claims) ≡ true },
    ghost noted: { G.NotingGoods.noted goods (claims_book claims) ≡ true },
    ghost reads: { every (readable (rules_of shelf (G.goods goods))) (claims_book claims) ≡ true },
}

impl<G: NotingGoods + Drop> Stock<G> {
    ghost use Rattle.std.specs.Prelude.{IfOk, []};
    ghost use Rattle.goods.specs.Views.{stock_rules};
    ghost use Rattle.shelf.specs.Shelves.{Opened};

    // The goods on a shelf, with no claims.
    pub(crate) fn with_goods(heap: Global, shelf: u32, goods: G) -> Result<Stock<G>, AllocError>
        requires { G.NotingGoods.noted goods [] ≡ true }
        ensures { IfOk result (λ s. Opened (rules_of shelf (G.goods goods)) (stock_rules G.NotingGoods s) (claims_book s.claims)) }
    {
        let claims = Claims::new(heap)?;
        Ok(Stock {
            shelf,
            goods,
            claims,
        })
    }
}

impl<G: NotingGoods> Stock<G> {
    ghost use Rattle.claims.specs.Book.{insert};
    ghost use Rattle.claims.specs.Rules.{answered};
    ghost use Rattle.goods.specs.Fixed.{kind_of};
    ghost use Rattle.goods.specs.Views.{stock_rules};
    ghost use Rattle.shelf.specs.Asked.{barred};

    // Turns a claim away before the goods are looked at.
    fn check_claim(&self, claim: Claim) -> Result<(), Fault>
        ensures { result ≡ answered claim.key (barred ((stock_rules G.NotingGoods self.now).reads claim.demand) (claims_book self.now.claims) claim) }
    {
        check_entry(&self.claims, claim, self.reads(claim.demand))
    }

    // Whether there are goods for all claims once this one has come in.
    fn is_enough_with(&self, claim: Claim) -> bool
        ensures { result ≡ (kind_of (G.goods self.now.goods)).enough (insert claim (claims_book self.now.claims)) }
    {
        let unit = self.goods.unit_given(claim.demand);
        self.goods.suffice_as_noted(&self.claims, claim) && claim.state.waits_or_has(unit.0)
    }
}

impl<G: NotingGoods> Counting for Stock<G> {
    ghost use Rattle.goods.specs.Views.{stock_rules};

    ghost counts = { λ s. (stock_rules G.NotingGoods s).counts };

    fn units_of(&self, demand: Demand) -> usize {
        if self.reads(demand) {
            self.goods.units_counted(demand)
        } else {
            0
        }
    }
}

// `claim`, `count`, `units` and `party_units` are each one call of what all goods share, and a lift has the goods forget
// the claim. A list of goods has the same five, and no kind stands over both: a list's goods move at each claim, which
// goods like these do not.
impl<G: NotingGoods> Resource for Stock<G> {
    ghost use Rattle.claims.proofs.Ranks.{rises_says};
    ghost use Rattle.goods.specs.Fixed.{fixed_laws};
    ghost use Rattle.goods.specs.Views.{stock_rules};

    ghost rules = { stock_rules G.NotingGoods };

    ghost book = { λ s. claims_book s.claims };

    ghost standing = { λ s. record { laws = fixed_laws s.shelf (G.goods s.goods); rising = rises_says (claims_book s.claims) s.claims.ordered; carried = s.carries; read = s.reads } };

    fn take_in(&mut self, claim: Claim) -> Result<(), Fault> {
        self.check_claim(claim)?;
        if !self.is_enough_with(claim) {
            return Err(Fault {
                cause: self.goods.why_short(),
                key: claim.key,
            });
        }
        self.goods.note(claim);
        // the key is new and there is room for it, so this succeeds
        let _ = self.claims.insert(claim);
        Ok(())
    }

    fn draw(&mut self, key: ClaimKey) -> Result<ItemNumber, Fault> {
        let claim = waiting_under(&self.claims, key)?;
        let unit = self.goods.unit_given(claim.demand);
        self.claims.send_out(key, unit);
        Ok(unit)
    }

    fn lift(&mut self, key: ClaimKey) -> Result<(), Fault> {
        let claim = held_under(&self.claims, key)?;
        let _ = self.claims.remove(key);
        self.goods.forget(claim);
        Ok(())
    }

    fn claim(&self, key: ClaimKey) -> Option<Claim> {
        self.claims.find(key)
    }

    fn count(&self) -> usize {
        self.claims.len()
    }

    fn reads(&self, demand: Demand) -> bool {
        is_on_shelf(demand, self.shelf) && self.goods.is_well_formed(demand)
    }

    // `Counting` promises the same; it is of a lower crate, which knows no resource.
    fn units(&self, demand: Demand) -> usize {
        self.units_of(demand)
    }

    fn party_units(&self, party: Party) -> usize {
        self.claims.party_units(self, party)
    }
}
