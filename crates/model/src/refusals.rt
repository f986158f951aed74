// The refusals, as the C header names them, each with its number (01, "Refused because of the input", "Refused because of the
// state"; specs/RefusalNumbers).

ghost use Rattle.std.specs.Prelude.{◌≡◌, ℕ};
ghost use Rattle.model.specs.RefusalNumbers.{number, refused_by};

// A condition under which a call is refused.
#[derive(Clone, Copy, PartialEq, Eq)]
pub enum Refusal {
    // K is not 1 to 11
    Kind = 11,
    // R is not 1 to N where used, or not 0 where unused
    Recorder = 12,
    // an unused A or B is not 0
    Unused = 13,
    // a view number is 0 (02, A2)
    ViewNumber = 14,
    // the set of a new view is empty or names a recorder above N
    Set = 15,
    // opening with N not 1 to 8, or founders above N
    Opening = 16,
    // the slice to open or write into is too short
    Short = 18,
    // the file breaks a rule of run files, or more actions are to be written than it holds, or with a third word above 1
    File = 19,

    // the bytes are no hall's stored form
    Bytes = 31,
    // a 65th entry or a 33rd view
    TooMany = 32,
    // a new view's number does not exceed all formed ones
    NotRising = 33,
    // view not formed
    NotFormed = 34,
    // not a member
    NoMember = 35,
    // not above the current view
    NotAbove = 36,
    // no current view, or the phase does not allow it
    Phase = 37,
    // nothing waits, no message is at the mark, the order ends before the mark, or report has reached confirm
    Nothing = 38,
    // a member has not received it, the label is not safe, or the entry is not known
    NotYet = 39,
    // a list, the sequence number or the summary's place is full, or the new label exists already
    Full = 40,
    // a vote above 1,000, a vote other than 0 for a recorder above N, or a row whose votes are all 0 (02, A4)
    Votes = 41,
    // the greatest view is missing or not primary (02, A5)
    NotPrimary = 42,
    // the undo buffer is too short or not in its form, none is held, or the newest held does not lead to this hall (02, A7)
    Undo = 43,
}

impl From<Refusal> for u32 {
    ghost from_gives = { λ why n. n ≡ number why };

    fn from(why: Refusal) -> u32 {
        why as u32
    }
}

// What refuses a call: a refusal of the code, or any number that is given for one.
pub trait Numbered: Copy {
    // the number that C and the listing are given for it
    ghost as_number: { Self → ℕ };

    fn to_number(self) -> u32
        ensures { result ≡ as_number self };
}

impl Numbered for Refusal {
    ghost as_number = { number };

    fn to_number(self) -> u32 {
        u32::from(self)
    }
}

impl Numbered for u32 {
    ghost as_number = { λ n. n };

    fn to_number(self) -> u32 {
        self
    }
}

// A call's number: 0, or its refusal's.
pub fn number_of<T: Drop>(x: Result<T, Refusal>) -> u32
    ensures { result ≡ refused_by x }
{
    match x {
        Ok(_) => 0,
        Err(why) => u32::from(why),
    }
}
