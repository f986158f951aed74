// The kinds of action, each with its number (01, "The eleven actions"; specs/KindNumbers).

ghost use Rattle.std.specs.Prelude.{◌≡◌};
ghost use Rattle.model.specs.KindNumbers.{kind_number, Names};

use crate::refusals::Refusal;

// "The eleven actions", 1 to 11 in turn.
#[derive(Clone, Copy, PartialEq, Eq)]
pub enum Kind {
    Submit = 1,
    Label = 2,
    SendEntry = 3,
    SendSummary = 4,
    Form = 5,
    Enter = 6,
    Place = 7,
    Receive = 8,
    Notice = 9,
    Confirm = 10,
    Deliver = 11,
}

impl From<Kind> for u32 {
    ghost from_gives = { λ k n. n ≡ kind_number k };

    fn from(k: Kind) -> u32 {
        k as u32
    }
}

impl TryFrom<u32> for Kind {
    type Error = Refusal;

    ghost try_from_gives = { Names };

    // 11: "K is not 1 to 11".
    fn try_from(k: u32) -> Result<Kind, Refusal> {
        match k {
            1 => Ok(Kind::Submit),
            2 => Ok(Kind::Label),
            3 => Ok(Kind::SendEntry),
            4 => Ok(Kind::SendSummary),
            5 => Ok(Kind::Form),
            6 => Ok(Kind::Enter),
            7 => Ok(Kind::Place),
            8 => Ok(Kind::Receive),
            9 => Ok(Kind::Notice),
            10 => Ok(Kind::Confirm),
            11 => Ok(Kind::Deliver),
            _ => Err(Refusal::Kind),
        }
    }
}
