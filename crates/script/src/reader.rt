ghost use Rattle.std.specs.Prelude.{◌≡◌, length, MatchOption};
ghost use Rattle.broker.specs.Drafts.{demands_of};
ghost use Rattle.script.specs.Format.{triples, verb_of, numbers_of, Drafted, Fitting, ReadsAs, OneReading, SpelledIsRead};

use crate::faults::Unread;
use crate::fields::{DEMAND_SIZE, read_fields};
use crate::verbs::Verb;
use broker::{Call, Draft};
use claims::{Demand, Party, PromiseNumber};

// A draft of these numbers, three for each demand, if a draft may have so many.
fn read_draft(numbers: &[u32]) -> Option<Draft>
    ensures { MatchOption result (Drafted (length numbers.now) → ⊥) (λ d. triples (demands_of d) ≡ numbers.now) }
{
    let (demands, rest) = numbers.as_chunks::<DEMAND_SIZE>();
    if !rest.is_empty() {
        return None;
    }
    let mut draft = Draft::new();
    for &[shelf, first, second] in demands {
        let demand = Demand {
            shelf,
            first,
            second,
        };
        draft.push(demand).ok()?;
    }
    Some(draft)
}

// The call of a verb with these numbers, if it has so many. Three calls have the same three numbers, and each is a case
// of its own in the broker's `Call`.
fn read_call(verb: Verb, numbers: &[u32]) -> Option<Call>
    ensures { MatchOption result (Fitting verb (length numbers.now) → ⊥) (λ c. (verb_of c ≡ verb) × (numbers_of c ≡ numbers.now)) }
{
    match (verb, numbers) {
        (Verb::Ask, &[minute, party, minutes, ref demands @ ..]) => Some(Call::Ask {
            minute,
            party: Party(party),
            minutes,
            draft: read_draft(demands)?,
        }),
        (Verb::Take, &[minute, party, number]) => Some(Call::Take {
            minute,
            party: Party(party),
            number: PromiseNumber(number),
        }),
        (Verb::Release, &[minute, party, number]) => Some(Call::Release {
            minute,
            party: Party(party),
            number: PromiseNumber(number),
        }),
        (Verb::GiveBack, &[minute, party, number]) => Some(Call::GiveBack {
            minute,
            party: Party(party),
            number: PromiseNumber(number),
        }),
        (Verb::Question, &[number]) => Some(Call::Question {
            number: PromiseNumber(number),
        }),
        (Verb::Ask | Verb::Take | Verb::Release | Verb::GiveBack | Verb::Question, _) => None,
    }
}

/// The call that a line spells, or the first thing that is wrong with it.
pub fn read_line(line: &[u8]) -> Result<Call, Unread>
    ensures { ReadsAs line.now result }
{
    let (first, rest) = line.split_first().ok_or(Unread::Letter)?;
    let verb = Verb::try_from(char::from(*first))?;
    let numbers = read_fields(rest)?;
    read_call(verb, numbers.as_slice()).ok_or(Unread::Count)
}

/// The format is exact: a line reads in one way only, and the line of a call is read as that call.
pub fn format_is_exact()
    ensures once { OneReading }
    ensures read { SpelledIsRead }
{}
