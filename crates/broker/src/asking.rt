//! The questions that a draft has to pass before the goods are asked for.
ghost use Rattle.std.specs.Prelude.{◌≡◌};
ghost use Rattle.std.specs.Option.{option_map};
ghost use Rattle.machine.specs.Machine.{after as number_after};
ghost use Rattle.broker.specs.Asks.{Unread, Checked, DraftChecked};
ghost use Rattle.broker.specs.Drafts.{demands_of};

use crate::draft::Draft;
use claims::{Party, PromiseNumber};
use machine::{MOST_MINUTES, Refusal};
use resource::Resource;

// The position, from 1, of the first demand that a resource does not read. The cast loses nothing: a draft has four
// demands at most.
fn unread<R: Resource>(resource: &R, draft: &Draft) -> Option<u8>
    ensures { Unread (R.Resource.rules resource.now) (demands_of draft.now) result }
{
    draft
        .as_slice()
        .iter()
        .position(|demand| !resource.reads(*demand))
        .map(|place| place as u8 + 1)
}

// Puts the questions on the party, the draft and the minutes. They come one by one, as the questions do.
pub(crate) fn check_draft<R: Resource>(
    resource: &R,
    party: Party,
    minutes: u32,
    draft: &Draft,
) -> Result<(), Refusal>
    ensures fits { Checked party.0 minutes (demands_of draft.now) result }
    ensures checked { DraftChecked (R.Resource.rules resource.now) party.0 minutes (demands_of draft.now) result }
{
    if !party.is_known() {
        return Err(Refusal::NotAParty);
    }
    if draft.as_slice().is_empty() {
        return Err(Refusal::DraftSize);
    }
    if !(1..=MOST_MINUTES).contains(&minutes) {
        return Err(Refusal::MinutesOutside);
    }
    if let Some(position) = unread(resource, draft) {
        return Err(Refusal::Unreadable(position));
    }
    Ok(())
}

// The number after a promise's, unless that is the last.
pub(crate) fn following(number: PromiseNumber) -> Option<PromiseNumber>
    ensures { option_map (λ n. n.0) result ≡ number_after number.0 }
{
    number.0.checked_add(1).map(PromiseNumber)
}
