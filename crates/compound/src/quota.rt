//! A resource of which each party has a limit.
ghost use Rattle.std.specs.Prelude.{◌≡◌, ◌≤◌, Decides, MatchOption, true, false};
ghost use Rattle.std.proofs.Props.{props};
ghost use Rattle.claims.specs.Book.{Book};
ghost use Rattle.claims.specs.Limits.{last_party};
ghost use Rattle.compound.specs.Limits.{KeepsLimits, limit_of};

use crate::asking::{check_new, check_open, check_read};
use claims::{Cause, Claim, ClaimKey, Demand, Fault, ItemNumber, LAST_PARTY, Party};
use resource::Resource;

/// The largest limit that a party can have; a larger one counts as this.
pub const MOST_LIMIT: u32 = 65535;

/// One limit for each party.
// A cast, since `usize` has no `From<u32>`; parties are few, so nothing is lost.
pub const PARTIES: usize = LAST_PARTY as usize;

/// A resource of which no party may have more units than its limit.
#[derive(Drop)]
pub struct Quota<R: Resource> {
    below: R,
    // the limit of party 1 first
    // an array, since each party has one, and a rule of the project wants fixed memory
    limits: [u32; PARTIES],
    // false where there were claims before the limits were set: then nothing is read; a flag and not two
    // variants, since a closed quota keeps what is below and the limits, and its rules name them
    is_open: bool,
    /// While it is open, no party has more units than its limit.
    pub ghost keeps: { is_open ≡ true → KeepsLimits limits (R.Resource.rules below).counts (R.Resource.book below) } by { Prim.hlevel props },
}

impl<R: Resource> Quota<R> {
    ghost use Rattle.compound.specs.Limited.{CarriedWithin, limited, quota, quota_rules};
    ghost use Rattle.compound.specs.Opened.{Fresh};

    /// Sets limits to a resource that has no claims; over claims the quota stays closed.
    pub fn new(below: R, limits: [u32; PARTIES]) -> Quota<R>
        ensures parts { (result.below ≡ below) × (result.limits ≡ limits) }
        ensures fresh { Fresh (quota R.Resource) (R.Resource.book below) (limited limits (R.Resource.rules below)) result }
        ensures carries { (b : Book) → Decides ((quota_rules R.Resource result).carries b) (CarriedWithin limits (R.Resource.rules below) b) }
    {
        let is_open = below.count() == 0;
        Quota {
            below,
            limits,
            is_open,
        }
    }

    // What is below, unless the quota is closed.
    fn opened(&self) -> Option<&R>
        ensures { MatchOption result (self.now.is_open ≡ false) (λ below. (self.now.is_open ≡ true) × (below.now ≡ self.now.below)) }
    {
        self.is_open.then_some(&self.below)
    }

    // The limit of a party that is known. Both casts are of small numbers, as at `PARTIES`.
    fn limit(&self, party: Party) -> usize
        requires first { 1 ≤ party.0 }
        requires last { party.0 ≤ last_party }
        ensures { result ≡ limit_of self.now.limits party.0 }
    {
        self.limits[party.0 as usize - 1].min(MOST_LIMIT) as usize
    }
}

impl<R: Resource> Resource for Quota<R> {
    ghost use Rattle.compound.specs.Limited.{quota_book, quota_rules};
    ghost use Rattle.compound.specs.Quotas.{quota_stands};

    ghost rules = { quota_rules R.Resource };

    ghost book = { quota_book R.Resource };

    ghost standing = { λ s. quota_stands R.Resource.own s (R.Resource.standing s.below) };

    fn take_in(&mut self, claim: Claim) -> Result<(), Fault> {
        check_read(claim, self.reads(claim.demand))?;
        check_new(claim, self.claim(claim.key))?;
        let before = self.below.party_units(claim.party);
        let units = before + self.below.units(claim.demand);
        if units > self.limit(claim.party) {
            return Err(Fault {
                cause: Cause::OverLimit,
                key: claim.key,
            });
        }
        self.below.take_in(claim)
    }

    fn draw(&mut self, key: ClaimKey) -> Result<ItemNumber, Fault> {
        check_open(self.is_open, key)?;
        self.below.draw(key)
    }

    fn lift(&mut self, key: ClaimKey) -> Result<(), Fault> {
        check_open(self.is_open, key)?;
        self.below.lift(key)
    }

    fn claim(&self, key: ClaimKey) -> Option<Claim> {
        self.opened()?.claim(key)
    }

    fn count(&self) -> usize {
        self.opened().map_or(0, |below| below.count())
    }

    fn reads(&self, demand: Demand) -> bool {
        self.opened().is_some_and(|below| below.reads(demand))
    }

    fn units(&self, demand: Demand) -> usize {
        self.opened().map_or(0, |below| below.units(demand))
    }

    fn party_units(&self, party: Party) -> usize {
        self.opened().map_or(0, |below| below.party_units(party))
    }
}
