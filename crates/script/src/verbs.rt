ghost use Rattle.script.specs.Letters.{ReadAsLetter};

use crate::faults::Unread;

// What a line asks for, by its first letter.
#[derive(Clone, Copy)]
pub(crate) enum Verb {
    Ask,
    Take,
    Release,
    GiveBack,
    Question,
}

// Each letter that begins a call names one verb, and no other letter names any.
impl TryFrom<char> for Verb {
    type Error = Unread;

    ghost try_from_gives = { λ first verb. ReadAsLetter first verb };

    fn try_from(first: char) -> Result<Verb, Unread> {
        match first {
            'a' => Ok(Verb::Ask),
            't' => Ok(Verb::Take),
            'r' => Ok(Verb::Release),
            'g' => Ok(Verb::GiveBack),
            'q' => Ok(Verb::Question),
            _ => Err(Unread::Letter),
        }
    }
}
