ghost use Rattle.std.specs.Prelude.{◌≡◌, ◌≤◌, true, [], length, vec_len, vec_capacity, IfOk, None, MatchOption};
ghost use Rattle.claims.specs.Limits.{most_claims, most_units};
ghost use Rattle.claims.specs.Places.{rises};
ghost use Rattle.claims.specs.Units.{share as share_of};

use crate::counting::Counting;
use crate::{Cause, Claim, ClaimKey, ClaimState, ItemNumber, MOST_CLAIMS, Party};
use std::alloc::{AllocError, Global};

/// The claims of a book, by rising key, with room for as many as a book may have. A vector, since its room is asked
/// for once, where a map asks for memory at each claim. Clauses see its book through `claims_book`, since the rules
/// and theorems of the kinds of goods are stated with that name; a `Model` would be a second one.
#[derive(Drop)]
pub struct Claims {
    items: Vec<Claim>,
    ghost roomy: { most_claims ≤ vec_capacity items },
    ghost few: { vec_len items ≤ most_claims },
    ghost ordered: { rises items.items ≡ true },
}

impl Claims {
    ghost use Rattle.claims.specs.Book.{find as held, without, out};
    ghost use Rattle.claims.specs.Held.{claims_book};
    ghost use Rattle.claims.specs.Places.{rank as place, Stands};
    ghost use Rattle.claims.specs.Rules.{added, shut_out, caused};
    ghost use Rattle.claims.specs.Units.{units_of};

    /// No claims, and room for all that may come: no later call asks for memory.
    pub fn new(heap: Global) -> Result<Claims, AllocError>
        ensures { IfOk result (λ c. claims_book c ≡ []) }
    {
        let items = Vec::with_capacity(heap, MOST_CLAIMS)?;
        Ok(Claims { items })
    }

    /// How many claims there are.
    pub fn len(&self) -> usize
        ensures { result ≡ length (claims_book self.now) }
    {
        self.items.len()
    }

    /// How many claims stand before a key.
    pub fn rank(&self, key: ClaimKey) -> usize
        ensures { result ≡ place key.0 (claims_book self.now) }
    {
        self.items.partition_point(|claim| claim.key < key)
    }

    /// Where the claim under a key stands: at the key's rank, if it is there.
    pub fn position(&self, key: ClaimKey) -> Option<usize>
        ensures { MatchOption result (held (claims_book self.now) key.0 ≡ None) (λ i. Stands key.0 (claims_book self.now) i) }
    {
        // by the rank, which `insert` needs too, so that the list is halved in one place
        let i = self.rank(key);
        let claim = self.items.get(i)?;
        (claim.key == key).then_some(i)
    }

    /// The claim under a key.
    pub fn find(&self, key: ClaimKey) -> Option<Claim>
        ensures { result ≡ held (claims_book self.now) key.0 }
    {
        let i = self.position(key)?;
        Some(self.items[i])
    }

    /// Whether a claim can be taken in: its key is new, and there is room.
    pub fn check_insert(&self, claim: Claim) -> Result<(), Cause>
        ensures { result ≡ caused (shut_out (claims_book self.now) claim) }
    {
        if self.find(claim.key).is_some() {
            Err(Cause::KeyTaken)
        } else if self.items.len() >= MOST_CLAIMS {
            Err(Cause::TooManyClaims)
        } else {
            Ok(())
        }
    }

    /// Takes in a claim under a new key, if there is room.
    pub fn insert(&mut self, claim: Claim) -> Result<(), Cause>
        ensures value { result ≡ caused (shut_out (claims_book self.old) claim) }
        ensures after { claims_book self.new ≡ added claim (claims_book self.old) (shut_out (claims_book self.old) claim) }
    {
        self.check_insert(claim)?;
        let i = self.rank(claim.key);
        // there is room for it, so no memory is asked for and this succeeds
        let _ = self.items.insert(i, claim);
        Ok(())
    }

    /// Takes out the claim under a key, if there is one.
    pub fn remove(&mut self, key: ClaimKey) -> Option<Claim>
        ensures value { result ≡ held (claims_book self.old) key.0 }
        ensures after { claims_book self.new ≡ without key.0 (claims_book self.old) }
    {
        let i = self.position(key)?;
        Some(self.items.remove(i))
    }

    /// Lets the claim under a key, if there is one, go out with a unit.
    pub fn send_out(&mut self, key: ClaimKey, unit: ItemNumber)
        ensures { claims_book self.new ≡ out key.0 unit.0 (claims_book self.old) }
    {
        if let Some(i) = self.position(key) {
            self.items[i].state = ClaimState::Out(unit);
        }
    }

    /// The units of all claims of a party.
    pub fn party_units<C: Counting>(&self, counting: &C, party: Party) -> usize
        ensures { result ≡ units_of (C.Counting.counts counting.now) party.0 (claims_book self.now) }
    {
        self.items
            .iter()
            .map(|claim| share(counting, party, claim))
            .sum()
    }

    /// The claims, by rising key.
    pub fn as_slice(&self) -> &[Claim]
        ensures { result.now ≡ claims_book self.now }
    {
        &self.items
    }
}

// The units of a claim, if it is the party's.
fn share<C: Counting>(counting: &C, party: Party, claim: &Claim) -> usize
    ensures value { result ≡ share_of (C.Counting.counts counting.now) party.0 claim.now }
    ensures small { result ≤ most_units }
{
    if claim.party == party {
        counting.units_of(claim.demand)
    } else {
        0
    }
}
