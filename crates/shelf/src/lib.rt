//! What every kind of goods on a shelf asks of a claim, a demand or a key before it looks at its goods.
#![tactic(auto)]

ghost use Rattle.std.specs.Prelude.{◌≡◌};
ghost use Rattle.claims.specs.Book.{find as held};
ghost use Rattle.claims.specs.Held.{claims_book};
ghost use Rattle.claims.specs.Rules.{answered};
ghost use Rattle.shelf.specs.Asked.{barred, found, found_waiting};
ghost use Rattle.shelf.specs.Shelves.{on_shelf, one_number};

use claims::{Cause, Claim, ClaimKey, ClaimState, Claims, Demand, Fault, LAST_SHELF};

/// Whether a demand is of the shelf, which has to be one of the shelves.
pub fn is_on_shelf(demand: Demand, shelf: u32) -> bool
    ensures { result ≡ on_shelf shelf demand }
{
    (1..=LAST_SHELF).contains(&shelf) && demand.shelf == shelf
}

/// Whether a demand gives a number from 1 up to `most`, and nothing beside.
pub fn gives_one_number(demand: Demand, most: u32) -> bool
    ensures { result ≡ one_number most demand }
{
    (1..=most).contains(&demand.first) && demand.second == 0
}

/// Turns a claim away before the goods are looked at; `read` says whether its demand is read, which is for the kind of
/// goods to say. A bank or a quota has no `Claims`, so it asks the same of its parts in functions of its own.
pub fn check_entry(claims: &Claims, claim: Claim, read: bool) -> Result<(), Fault>
    ensures { result ≡ answered claim.key (barred read (claims_book claims.now) claim) }
{
    let entry = if claim.party.is_known() && read {
        claims.check_insert(claim)
    } else {
        Err(Cause::Unreadable)
    };
    let key = claim.key;
    entry.map_err(|cause| Fault { cause, key })
}

/// The claim under a key.
pub fn held_under(claims: &Claims, key: ClaimKey) -> Result<Claim, Fault>
    ensures { result ≡ found key (held (claims_book claims.now) key.0) }
{
    claims.find(key).ok_or(Fault {
        cause: Cause::NoSuchKey,
        key,
    })
}

/// The claim under a key, if it waits.
pub fn waiting_under(claims: &Claims, key: ClaimKey) -> Result<Claim, Fault>
    ensures { result ≡ found_waiting key (held (claims_book claims.now) key.0) }
{
    let claim = held_under(claims, key)?;
    match claim.state {
        ClaimState::Waiting => Ok(claim),
        ClaimState::Out(_) => Err(Fault {
            cause: Cause::AlreadyOut,
            key,
        }),
    }
}
