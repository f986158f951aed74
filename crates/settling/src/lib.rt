// Settling a hall (02, A5): turn by turn the first call in the order of kinds 6, 4, 3, 2, 7, 8, 9, 10, 11 that is not refused, lowest
// recorder first, in the view with the greatest number. The work goes on a copy, since 40 leaves all bytes as at the start.

#![tactic(auto)]

ghost use Rattle.std.specs.Prelude.{◌≡◌, true, map, ◌≤◌, length};
ghost use Rattle.base.specs.Chains.{refuse};
ghost use Rattle.quorum.specs.Sets.{members};
ghost use Rattle.model.specs.Hall.{max_recorders};
ghost use Rattle.model.specs.Call.{hl3};
ghost use Rattle.model.specs.KindNumbers.{kind_number};
ghost use Rattle.model.specs.RefusalNumbers.{refused_by};
ghost use Rattle.model.specs.Settle.{greatest_view, cannot_settle, settle_call, settle_calls};
ghost use Rattle.store.specs.Layout.{stored_length};
ghost use Rattle.store.specs.StoredForm.{hall_of, is_stored};
ghost use Rattle.calls.specs.Calls.{step_on, settle_on};
ghost use Rattle.calls.specs.Steps.{Settles};
ghost use Rattle.progress.specs.AnyTurn.{any_turn};
ghost use Rattle.hall.specs.Parts.{ViewIs};
ghost use Rattle.settling.specs.Turns.{found, member_number, InView, TurnsTaken, SettledCopy};

use codec::put_bytes;
use hall::{View, in_primary, read_view, size, view_count};
use model::kinds::Kind;
use model::limits::MAX_TURNS;
use model::refusals::Refusal;
use quorum::in_mask;
use step::{bytes_refusal, refusal_kind, step_kind};
use store::layout;
use words::refuse;

// How long the stored form of a hall is.
const HALL: usize = layout::LENGTH;

// "in the order of kinds 6, 4, 3, 2, 7, 8, 9, 10, 11"
const ORDER: [Kind; 9] = [
    Kind::Enter,
    Kind::SendSummary,
    Kind::SendEntry,
    Kind::Label,
    Kind::Place,
    Kind::Receive,
    Kind::Notice,
    Kind::Confirm,
    Kind::Deliver,
];

// What a turn finds: the call that it takes, by kind and recorder, a 40 before one, or no call. Three cases, as the model's
// `Settle.Turn` has them.
#[derive(Clone, Copy)]
pub enum Turn {
    Takes(Kind, u32),
    Full,
    Nothing,
}

// The kinds that name a view, by their numbers, as a call's words have them.
const ENTER: u32 = Kind::Enter as u32;

const PLACE: u32 = Kind::Place as u32;

// The word A of a call: the view in kinds 6 and 7.
#[tactic(auto, unfolding(model::specs::Settle::settle_call))]
pub fn view_word(g: u32, k: u32) -> u32
    ensures { result ≡ (settle_call g k 0).a }
{
    match k {
        ENTER | PLACE => g,
        _ => 0,
    }
}

// The refusal of the call of kind k at recorder r; a recorder that is no member is passed over.
fn try_call(b: &[u8], v: View, k: Kind, r: u32) -> Result<(), Refusal>
    requires { (is_stored b.now ≡ true) × (1 ≤ r) × (r ≤ max_recorders) }
    ensures { refused_by result ≡ member_number (hall_of b.now) v (kind_number k) r }
{
    if !in_mask(v.set, r) {
        return Err(Refusal::NoMember);
    }
    let a = view_word(v.number, u32::from(k));
    refusal_kind(b, k, r, a, 0)
}

// What the calls of kind k give, at the members of a view, rising: the first that is not refused, or a 40 met before one.
fn find_call(b: &[u8], v: View, k: Kind) -> Turn
    requires { is_stored b.now ≡ true }
    ensures { found v.number result
        ≡ any_turn hl3 (hall_of b.now)
        (map (settle_call v.number (kind_number k)) (members (hall_of b.now).size v.set)) }
{
    for r in 1..=size(b) {
        let Err(why) = try_call(b, v, k, r) else {
            return Turn::Takes(k, r);
        };
        if let Refusal::Full = why {
            return Turn::Full;
        }
    }
    Turn::Nothing
}

// One turn in a view.
pub fn find_turn(b: &[u8], v: View) -> Turn
    requires { is_stored b.now ≡ true }
    ensures { found v.number result
        ≡ any_turn hl3 (hall_of b.now) (settle_calls v.number (members (hall_of b.now).size v.set)) }
{
    for k in ORDER {
        match find_call(b, v, k) {
            Turn::Nothing => {}
            t => return t,
        }
    }
    Turn::Nothing
}

// Performs the call of kind k at recorder r; the bytes alone matter.
fn take_call(work: &mut [u8], v: View, k: Kind, r: u32)
    requires { is_stored work.old ≡ true }
    ensures { work.new ≡ (step_on work.old (settle_call v.number (kind_number k) r)).bytes }
{
    let a = view_word(v.number, u32::from(k));
    let _ = step_kind(work, k, r, a, 0);
}

// Turns in the greatest view until none is left or 40 is met: how many.
fn take_turns(work: &mut [u8], v: View) -> Result<u32, Refusal>
    requires { InView work.old v }
    ensures { TurnsTaken work.old v result work.new }
{
    for count in 0..MAX_TURNS as u32 {
        match find_turn(work, v) {
            Turn::Takes(k, r) => take_call(work, v, k, r),
            Turn::Full => return Err(Refusal::Full),
            Turn::Nothing => return Ok(count),
        }
    }
    Ok(MAX_TURNS as u32)
}

// The view with the greatest number is missing or not primary.
fn is_barred(b: &[u8], count: usize) -> bool
    requires { (is_stored b.now ≡ true) × (count ≡ length (hall_of b.now).service.created) }
    ensures { result ≡ cannot_settle (hall_of b.now) }
{
    count == 0 || !in_primary(b, count - 1)
}

// 42: "a hall whose greatest view is missing or not primary".
pub fn bar_refusal(b: &[u8]) -> Result<(), Refusal>
    requires { is_stored b.now ≡ true }
    ensures { refused_by result ≡ refuse (cannot_settle (hall_of b.now)) 42 }
{
    let count = view_count(b);
    refuse(is_barred(b, count), Refusal::NotPrimary)
}

// The view with the greatest number: numbers rise, so it is the last formed one.
pub fn greatest_view(b: &[u8], count: usize) -> View
    requires { (is_stored b.now ≡ true) × (1 ≤ count) × (count ≡ length (hall_of b.now).service.created) }
    ensures { ViewIs (hall_of b.now) (greatest_view (hall_of b.now)) result }
{
    read_view(b, count - 1)
}

// A settle of a hall on a copy of it: 42, 40, or the count of the steps taken.
fn settle_hall(bytes: &[u8], work: &mut [u8]) -> Result<u32, Refusal>
    requires { (is_stored bytes.now ≡ true) × (length work.old ≡ stored_length) }
    ensures { SettledCopy bytes.now result work.new }
{
    bar_refusal(bytes)?;
    let v = greatest_view(bytes, view_count(bytes));
    put_bytes(work, 0, bytes, HALL);
    take_turns(work, v)
}

// The refusal that `settle` would answer with: the bytes stay.
pub fn settle_refusal(bytes: &[u8]) -> Result<(), Refusal>
    ensures { refused_by result ≡ (settle_on bytes.now).answer.number }
{
    bytes_refusal(bytes)?;
    let mut work = [0u8; HALL];
    settle_hall(bytes, &mut work)?;
    Ok(())
}

// Settles the hall in the bytes: 31, 42, 40, or the count of the steps taken.
pub fn settle(bytes: &mut [u8]) -> Result<u32, Refusal>
    ensures { Settles bytes.old result bytes.new }
{
    bytes_refusal(bytes)?;
    let mut work = [0u8; HALL];
    let count = settle_hall(bytes, &mut work)?;
    put_bytes(bytes, 0, &work, HALL);
    Ok(count)
}
