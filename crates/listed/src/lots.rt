ghost use Rattle.std.specs.Prelude.{◌≡◌, ◌≤◌, length, vec_len, vec_capacity};
ghost use Rattle.claims.specs.Held.{claims_book};
ghost use Rattle.claims.specs.Limits.{most_claims};

use claims::{Claim, ClaimKey, Claims, ItemNumber, MOST_CLAIMS};
use matching::{Suits, admit};
use std::alloc::{AllocError, Global};

// Claims, each with a good for now.
#[derive(Drop)]
pub(crate) struct Lots {
    pub(crate) claims: Claims,
    // for each claim the place of its good in the list of goods; no part of the claims, since the matching reads those as
    // a slice and writes this
    allotment: Vec<usize>,
    ghost paired: { vec_len allotment ≡ length (claims_book claims) },
    ghost roomy: { most_claims ≤ vec_capacity allotment },
}

impl Lots {
    ghost use Rattle.std.specs.Prelude.{◌<◌, [], IfNone, IfOk, OnSome, Some, None, insert as inserted, remove as removed};
    ghost use Rattle.claims.specs.Book.{find, insert as with_claim, key_of, without};
    ghost use Rattle.claims.specs.Limits.{most_goods};
    ghost use Rattle.claims.specs.Places.{rank as place};
    ghost use Rattle.matching.specs.Matching.{Admits, Matching};
    ghost use Rattle.listed.specs.Sends.{GoneOut};

    // No claims, and room for all that may come: no later call asks for memory.
    pub(crate) fn new(heap: Global) -> Result<Lots, AllocError>
        ensures claims { IfOk result (λ s. claims_book s.claims ≡ []) }
        ensures goods { IfOk result (λ s. s.allotment.items ≡ []) }
    {
        let claims = Claims::new(heap)?;
        let allotment = Vec::with_capacity(heap, MOST_CLAIMS)?;
        Ok(Lots { claims, allotment })
    }

    // Takes in a claim under a new key, with the first good for now, and answers where it stands.
    pub(crate) fn insert(&mut self, claim: Claim) -> usize
        requires absent { find (claims_book self.old.claims) (key_of claim) ≡ None }
        requires room { length (claims_book self.old.claims) < most_claims }
        ensures value { result ≡ place (key_of claim) (claims_book self.old.claims) }
        ensures claims { claims_book self.new.claims ≡ with_claim claim (claims_book self.old.claims) }
        ensures goods { self.new.allotment.items ≡ inserted self.old.allotment.items result 0 }
    {
        let at = self.claims.rank(claim.key);
        // both have room for it, so no memory is asked for and these succeed
        let _ = self.claims.insert(claim);
        let _ = self.allotment.insert(at, 0);
        at
    }

    // Takes out the claim under a key, if there is one, with its good.
    pub(crate) fn remove(&mut self, key: ClaimKey) -> Option<Claim>
        ensures value { result ≡ find (claims_book self.old.claims) key.0 }
        ensures claims { claims_book self.new.claims ≡ without key.0 (claims_book self.old.claims) }
        ensures goods { OnSome result (self.new.allotment.items ≡ removed self.old.allotment.items (place key.0 (claims_book self.old.claims))) }
        ensures kept { IfNone result (self.new.allotment.items ≡ self.old.allotment.items) }
    {
        let at = self.claims.position(key)?;
        self.allotment.remove(at);
        self.claims.remove(key)
    }

    // Lets the claim at `new` have a good beside the others, if all of them can be carried.
    pub(crate) fn admit<G: Suits>(&mut self, goods: &[G], new: usize) -> bool
        ensures same { self.new.claims ≡ self.old.claims }
        ensures admits { Admits G.Suits.suiting goods.now (claims_book self.old.claims) new self.old.allotment.items result self.new.allotment.items }
    {
        admit(goods, self.claims.as_slice(), &mut self.allotment, new)
    }

    // Lets the claim, which waits, go out with the least unit around which the others can be carried. Each try sends it
    // out with another unit, so that nothing has to be undone: since the goods are a matching, one of them goes.
    pub(crate) fn send_out<G: Suits>(&mut self, goods: &[G], claim: Claim) -> ItemNumber
        requires few { length goods.now ≤ most_goods }
        requires there { find (claims_book self.old.claims) (key_of claim) ≡ Some claim }
        requires matched { Matching G.Suits.suiting goods.now (claims_book self.old.claims) self.old.allotment.items }
        ensures { GoneOut G.Suits.suiting goods.now claim (claims_book self.old.claims) result.0 (claims_book self.new.claims) self.new.allotment.items }
    {
        let at = self.claims.rank(claim.key);
        for (good, unit) in goods.iter().zip(1..) {
            if !good.suits(claim.demand) {
                continue;
            }
            self.claims.send_out(claim.key, ItemNumber(unit));
            if self.admit(goods, at) {
                return ItemNumber(unit);
            }
        }
        unreachable!()
    }
}
