//! What a bank and a quota ask before they hand a call on.
ghost use Rattle.std.specs.Prelude.{◌≡◌, MatchResult, None, false, true};
ghost use Rattle.claims.specs.declared.Cause.TheVariants.{NoSuchKey};
ghost use Rattle.claims.specs.Rules.{answered};
ghost use Rattle.compound.specs.Asked.{taken, turned_away};

use claims::{Cause, Claim, ClaimKey, Fault};

// Turns a claim away whose party is unknown or whose demand is not read: `read` says whether it is. A value and not the
// resource, here and below, so that no call goes back into the one that asks. Crate shelf does not share these two:
// there the list of claims says in one answer that a key is taken or that there is no room.
pub(crate) fn check_read(claim: Claim, read: bool) -> Result<(), Fault>
    ensures { result ≡ answered claim.key (turned_away read None claim) }
{
    if claim.party.is_known() && read {
        Ok(())
    } else {
        Err(Fault {
            cause: Cause::Unreadable,
            key: claim.key,
        })
    }
}

// Turns a claim away that is read, where another stands under its key: `held` is what stands there. Asked apart, so that
// a key is looked up only for a claim that is read.
pub(crate) fn check_new(claim: Claim, held: Option<Claim>) -> Result<(), Fault>
    ensures { result ≡ answered claim.key (taken held) }
{
    if held.is_some() {
        Err(Fault {
            cause: Cause::KeyTaken,
            key: claim.key,
        })
    } else {
        Ok(())
    }
}

// Refuses a key where what was made over claims is closed: nothing stands under it.
// A flag, since a closed one keeps its parts, so that no value is only an open one's.
pub(crate) fn check_open(is_open: bool, key: ClaimKey) -> Result<(), Fault>
    ensures { MatchResult result (λ _. is_open ≡ true) (λ fault. (is_open ≡ false) × (fault ≡ record { cause = NoSuchKey; key = key })) }
{
    if is_open {
        Ok(())
    } else {
        let cause = Cause::NoSuchKey;
        Err(Fault { cause, key })
    }
}
