//! Two resources as one, where the shelf of a claim says which of them takes it.
ghost use Rattle.std.specs.Prelude.{◌≡◌, Decides, nat_le, true};
ghost use Rattle.std.proofs.Props.{props};
ghost use Rattle.claims.specs.Book.{Book, merge};
ghost use Rattle.compound.specs.Sides.{Sides};

use crate::asking::{check_new, check_open, check_read};
use claims::{Cause, Claim, ClaimKey, Demand, Fault, ItemNumber, MOST_CLAIMS, Party};
use resource::Resource;

/// Two resources as one: the first takes the claims of a shelf up to `split`, the second all others.
#[derive(Drop)]
pub struct Bank<F: Resource, S: Resource> {
    first: F,
    second: S,
    split: u32,
    // false where there were claims before the two were joined: then nothing is read; a flag and not two
    // variants, since a closed bank keeps its sides and its split, and its rules name them
    is_open: bool,
    /// While it is open, each side has its own claims, under other keys, and together they are few.
    pub ghost sides: { is_open ≡ true → Sides split (F.Resource.book first) (S.Resource.book second) } by { Prim.hlevel props },
}

impl<F: Resource, S: Resource> Bank<F, S> {
    ghost use Rattle.compound.specs.Joined.{bank, bank_rules, CarriedByBoth, joined};
    ghost use Rattle.compound.specs.Opened.{Fresh};

    /// Joins two resources that have no claims; over claims the bank stays closed.
    pub fn new(first: F, second: S, split: u32) -> Bank<F, S>
        ensures parts { (result.first ≡ first) × ((result.second ≡ second) × (result.split ≡ split)) }
        ensures fresh { Fresh (bank F.Resource S.Resource) (merge (F.Resource.book first) (S.Resource.book second)) (joined split (F.Resource.rules first) (S.Resource.rules second)) result }
        ensures carries { (b : Book) → Decides ((bank_rules F.Resource S.Resource result).carries b) (CarriedByBoth split (F.Resource.rules first) (S.Resource.rules second) b) }
    {
        let is_open = first.count() == 0 && second.count() == 0;
        Bank {
            first,
            second,
            split,
            is_open,
        }
    }

    // Whether the first side takes the claims of a demand.
    fn is_for_first(&self, demand: Demand) -> bool
        ensures { result ≡ nat_le demand.shelf self.now.split }
    {
        demand.shelf <= self.split
    }
}

impl<F: Resource, S: Resource> Resource for Bank<F, S> {
    ghost use Rattle.compound.specs.Joined.{bank_book, bank_rules};
    ghost use Rattle.compound.specs.Banks.{bank_stands};

    ghost rules = { bank_rules F.Resource S.Resource };

    ghost book = { bank_book F.Resource S.Resource };

    ghost standing = { λ s. bank_stands F.Resource.own S.Resource.own s (F.Resource.standing s.first) (S.Resource.standing s.second) };

    fn take_in(&mut self, claim: Claim) -> Result<(), Fault> {
        check_read(claim, self.reads(claim.demand))?;
        check_new(claim, self.claim(claim.key))?;
        if self.count() >= MOST_CLAIMS {
            return Err(Fault {
                cause: Cause::TooManyClaims,
                key: claim.key,
            });
        }
        if self.is_for_first(claim.demand) {
            self.first.take_in(claim)
        } else {
            self.second.take_in(claim)
        }
    }

    // The sides are of two types, so the choice stands in each call: a closure for each side would be no plainer.
    fn draw(&mut self, key: ClaimKey) -> Result<ItemNumber, Fault> {
        check_open(self.is_open, key)?;
        if self.first.claim(key).is_some() {
            self.first.draw(key)
        } else {
            self.second.draw(key)
        }
    }

    fn lift(&mut self, key: ClaimKey) -> Result<(), Fault> {
        check_open(self.is_open, key)?;
        if self.first.claim(key).is_some() {
            self.first.lift(key)
        } else {
            self.second.lift(key)
        }
    }

    // Here and below the flag is asked, and no `opened` as of a quota: each closure would take both sides and choose
    // between them as the `if` does.
    fn claim(&self, key: ClaimKey) -> Option<Claim> {
        if !self.is_open {
            return None;
        }
        self.first.claim(key).or_else(|| self.second.claim(key))
    }

    fn count(&self) -> usize {
        if self.is_open {
            self.first.count() + self.second.count()
        } else {
            0
        }
    }

    fn reads(&self, demand: Demand) -> bool {
        if !self.is_open {
            return false;
        }
        if self.is_for_first(demand) {
            self.first.reads(demand)
        } else {
            self.second.reads(demand)
        }
    }

    fn units(&self, demand: Demand) -> usize {
        if !self.is_open {
            return 0;
        }
        if self.is_for_first(demand) {
            self.first.units(demand)
        } else {
            self.second.units(demand)
        }
    }

    fn party_units(&self, party: Party) -> usize {
        if self.is_open {
            self.first.party_units(party) + self.second.party_units(party)
        } else {
            0
        }
    }
}
