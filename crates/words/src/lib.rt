// Refusals "because of the input", 12 to 16 and 41: those of a kind by the table of kinds, those of an opening, and how a
// condition refuses. For the crates of this repository: a `requires` is met by each caller's proof.

#![tactic(auto)]

ghost use Rattle.std.specs.Prelude.{◌≡◌, not, ◌^◌, ◌≤◌, leb};
ghost use Rattle.base.specs.Numbers.{within};
ghost use Rattle.base.specs.Chains.{refuse};
ghost use Rattle.model.specs.Hall.{max_recorders};
ghost use Rattle.model.specs.Kinds.{uses, wrong_recorder, stray_word, wrong_number, wrong_set, input_refusal};
ghost use Rattle.model.specs.Opening.{wrong_opening, opening_of, open_refusal};
ghost use Rattle.model.specs.KindNumbers.{kind_meaning};
ghost use Rattle.model.specs.RefusalNumbers.{number, refused_by};
ghost use Rattle.words.specs.Words.{use_of, uses_of};

use model::kinds::Kind;
use model::limits::MAX_RECORDERS;
use model::refusals::Refusal;
use quorum::wrong_row;

// "N, 1 to 8"
const RECORDERS: u32 = MAX_RECORDERS as u32;

// What a kind uses a word for: nothing (it is 0), any word, a recorder 1 to N, a view number, the set of a new view.
#[derive(Clone, Copy)]
pub enum Use {
    Unused,
    Word,
    Recorder,
    Number,
    Set,
}

// How a kind uses R, A and B.
#[derive(Clone, Copy)]
pub struct Uses(pub Use, pub Use, pub Use);

// The table of kinds, the model's row by row. "Form view A with set B (R is 0)."
#[tactic(auto, unfolding(crate::specs::Words::uses_of, crate::specs::Words::use_of, model::specs::Kinds::uses))]
pub fn uses_of(k: Kind) -> Uses
    ensures { uses_of result ≡ uses (kind_meaning k) }
{
    match k {
        Kind::Submit => Uses(Use::Recorder, Use::Word, Use::Unused),
        Kind::Form => Uses(Use::Unused, Use::Number, Use::Set),
        Kind::Enter | Kind::Place => Uses(Use::Recorder, Use::Number, Use::Unused),
        Kind::Label
        | Kind::SendEntry
        | Kind::SendSummary
        | Kind::Receive
        | Kind::Notice
        | Kind::Confirm
        | Kind::Deliver => Uses(Use::Recorder, Use::Unused, Use::Unused),
    }
}

// Is a word below low or above high?
pub fn is_outside(low: u32, high: u32, w: u32) -> bool
    ensures { result ≡ not (within low high w) }
{
    w < low || high < w
}

// Does a mask name a recorder above n?
fn names_above(n: u32, mask: u32) -> bool
    requires { n ≤ max_recorders }
    ensures { result ≡ leb (2 ^ n) mask }
{
    (mask >> n) != 0
}

// 12: "R is not 1 to N where used, or not 0 where unused"
fn wrong_recorder(n: u32, u: Use, w: u32) -> bool
    ensures { result ≡ wrong_recorder n (use_of u) w }
{
    match u {
        Use::Unused => w != 0,
        Use::Recorder => is_outside(1, n, w),
        _ => false,
    }
}

// 13: "an unused A or B is not 0"
fn stray_word(u: Use, w: u32) -> bool
    ensures { result ≡ stray_word (use_of u) w }
{
    match u {
        Use::Unused => w != 0,
        _ => false,
    }
}

// 14 "remains for 0 alone" (02, A2)
fn wrong_number(u: Use, w: u32) -> bool
    ensures { result ≡ wrong_number (use_of u) w }
{
    match u {
        Use::Number => w == 0,
        _ => false,
    }
}

// 15: "the set of a new view is empty or names a recorder above N"
fn wrong_set(n: u32, u: Use, w: u32) -> bool
    requires { n ≤ max_recorders }
    ensures { result ≡ wrong_set n (use_of u) w }
{
    match u {
        Use::Set => w == 0 || names_above(n, w),
        _ => false,
    }
}

// 16: "opening with N not 1 to 8, or founders above N"
fn wrong_opening(n: u32, founders: u32) -> bool
    ensures { result ≡ wrong_opening n founders }
{
    is_outside(1, RECORDERS, n) || names_above(n, founders)
}

// Refuses where a condition holds.
pub fn refuse(t: bool, why: Refusal) -> Result<(), Refusal>
    ensures { refused_by result ≡ refuse t (number why) }
{
    if t { Err(why) } else { Ok(()) }
}

// 12 to 15 of a kind, rising, in a hall of n recorders: each word is tested as the kind uses it.
pub fn input_refusal(n: u32, k: Kind, r: u32, a: u32, b: u32) -> Result<(), Refusal>
    requires { n ≤ max_recorders }
    ensures { refused_by result ≡ input_refusal n (kind_meaning k) r a b }
{
    let Uses(of_r, of_a, of_b) = uses_of(k);
    let recorder = wrong_recorder(n, of_r, r);
    let stray = stray_word(of_a, a) | stray_word(of_b, b);
    let number = wrong_number(of_a, a) | wrong_number(of_b, b);
    let set = wrong_set(n, of_a, a) | wrong_set(n, of_b, b);
    refuse(recorder, Refusal::Recorder)?;
    refuse(stray, Refusal::Unused)?;
    refuse(number, Refusal::ViewNumber)?;
    refuse(set, Refusal::Set)
}

// 16, and 41 "directly after 16" (02, A4), of an opening with a row of votes.
pub fn opening_refusal(n: u32, founders: u32, row: [u32; 8]) -> Result<(), Refusal>
    ensures { refused_by result ≡ open_refusal (opening_of n founders row) }
{
    let size = wrong_opening(n, founders);
    let votes = wrong_row(n, row);
    refuse(size, Refusal::Opening)?;
    refuse(votes, Refusal::Votes)
}
