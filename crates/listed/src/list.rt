ghost use Rattle.std.specs.Prelude.{◌≡◌, ◌≤◌, length, true};
ghost use Rattle.claims.specs.Book.{every};
ghost use Rattle.claims.specs.Held.{claims_book};
ghost use Rattle.claims.specs.Limits.{most_goods};
ghost use Rattle.claims.specs.Rules.{readable};
ghost use Rattle.matching.specs.Matching.{Matching};
ghost use Rattle.listed.specs.Lists.{listed as listed_by};

use crate::lots::Lots;
use claims::{Cause, Claim, ClaimKey, Counting, Demand, Fault, ItemNumber, MOST_GOODS, Party};
use matching::Suits;
use resource::Resource;
use shelf::{check_entry, is_on_shelf, waiting_under};
use std::alloc::{AllocError, Global};

/// Goods that are not alike, such as rooms or tee places. Each claim has one of them for now, and may get another until
/// it goes out.
#[derive(Drop)]
pub struct Listed<G: Suits> {
    shelf: u32,
    goods: Vec<G>,
    lots: Lots,
    ghost sized: { length goods.items ≤ most_goods },
    /// The goods that the claims have are a matching.
    pub ghost matched: { ∥ Matching G.Suits.suiting goods.items (claims_book lots.claims) lots.allotment.items ∥₁ },
    /// Each claim is a party's, and its demand is read.
    pub ghost all_read: { every (readable (listed_by G.Suits.suiting G.Suits.formed shelf goods.items)) (claims_book lots.claims) ≡ true },
}

impl<G: Suits + Drop> Listed<G> {
    ghost use Rattle.std.specs.Prelude.{take, IfOk};
    ghost use Rattle.listed.specs.Lists.{MatchingRule};
    ghost use Rattle.listed.specs.Views.{list_rules, list_book};
    ghost use Rattle.shelf.specs.Shelves.{Opened};

    /// Goods with no claims, the first of them unit 1; what is above the most goods is left out.
    pub fn new(heap: Global, shelf: u32, mut goods: Vec<G>) -> Result<Listed<G>, AllocError>
        ensures opened { IfOk result (λ s. Opened (listed_by G.Suits.suiting G.Suits.formed shelf (take most_goods goods.items)) (list_rules G.Suits s) (list_book s)) }
        ensures matched { MatchingRule G.Suits.suiting G.Suits.formed shelf (take most_goods goods.items) }
    {
        let lots = Lots::new(heap)?;
        goods.truncate(MOST_GOODS);
        Ok(Listed { shelf, goods, lots })
    }
}

impl<G: Suits> Listed<G> {
    ghost use Rattle.listed.specs.Views.{list_rules};

    // Whether a demand is of this shelf and well formed for the goods.
    fn is_read(&self, demand: Demand) -> bool
        ensures { result ≡ (list_rules G.Suits self.now).reads demand }
    {
        is_on_shelf(demand, self.shelf) && G::is_formed(demand)
    }
}

impl<G: Suits> Counting for Listed<G> {
    ghost use Rattle.listed.specs.Views.{list_rules};

    ghost counts = { λ s. (list_rules G.Suits s).counts };

    fn units_of(&self, demand: Demand) -> usize {
        usize::from(self.is_read(demand))
    }
}

// Its questions are those of a `Stock`, one call each of what both share, `Claims` and crate shelf. One kind for both would
// need a list's goods to move at each claim, which those of a `Stock` do not.
impl<G: Suits> Resource for Listed<G> {
    ghost use Rattle.listed.specs.Lawful.{list_standing};
    ghost use Rattle.listed.specs.Views.{list_rules, list_book};

    ghost rules = { list_rules G.Suits };

    ghost book = { list_book };

    ghost standing = { λ s. list_standing G.Suits s };

    // Others may get other goods for the new claim.
    fn take_in(&mut self, claim: Claim) -> Result<(), Fault> {
        check_entry(&self.lots.claims, claim, self.is_read(claim.demand))?;
        let new = self.lots.insert(claim);
        if self.lots.admit(&self.goods, new) {
            return Ok(());
        }
        self.lots.remove(claim.key);
        Err(Fault {
            cause: Cause::NoMatching,
            key: claim.key,
        })
    }

    fn draw(&mut self, key: ClaimKey) -> Result<ItemNumber, Fault> {
        let claim = waiting_under(&self.lots.claims, key)?;
        Ok(self.lots.send_out(&self.goods, claim))
    }

    fn lift(&mut self, key: ClaimKey) -> Result<(), Fault> {
        self.lots.remove(key).ok_or(Fault {
            cause: Cause::NoSuchKey,
            key,
        })?;
        Ok(())
    }

    fn claim(&self, key: ClaimKey) -> Option<Claim> {
        self.lots.claims.find(key)
    }

    fn count(&self) -> usize {
        self.lots.claims.len()
    }

    fn reads(&self, demand: Demand) -> bool {
        self.is_read(demand)
    }

    // `units_of` again: `Counting` is of a lower crate, which knows no resource
    fn units(&self, demand: Demand) -> usize {
        self.units_of(demand)
    }

    fn party_units(&self, party: Party) -> usize {
        self.lots.claims.party_units(self, party)
    }
}
