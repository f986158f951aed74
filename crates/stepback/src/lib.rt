// Calls that hold their actions in an undo buffer, and a step back (02, A7; docs/undo-buffer.md). Each is judged first and then
// performed, so that a refused one writes nothing.

#![tactic(auto)]

ghost use Rattle.std.specs.Prelude.{◌≡◌, true, IfOk};
ghost use Rattle.model.specs.Answers.{plain};
ghost use Rattle.model.specs.Call.{words_of};
ghost use Rattle.model.specs.KindNumbers.{kind_number};
ghost use Rattle.model.specs.RefusalNumbers.{refused_by};
ghost use Rattle.model.specs.Settle.{settle_call};
ghost use Rattle.store.specs.StoredForm.{is_stored};
ghost use Rattle.undo.specs.Buffer.{held_in, is_undo, newest_of};
ghost use Rattle.undo.specs.Code.{Accepts, Holding};
ghost use Rattle.settling.specs.Turns.{InView};
ghost use Rattle.stepback.specs.Held.{bench_of, undo_number, step_held_on, settle_held_number, can_step_back, back_number};
ghost use Rattle.stepback.specs.Steps.{Left, StepsHeld, SettlesHeld, StepsBack};
ghost use Rattle.stepback.specs.Turns.{TurnsHeld};

use answer::{Answer, is_accepted};
use codec::{put_bytes, same};
use hall::{View, view_count};
use model::kinds::Kind;
use model::limits::MAX_TURNS;
use model::refusals::Refusal;
use settling::{Turn, bar_refusal, find_turn, greatest_view, settle_refusal, view_word};
use step::{bytes_refusal, early_refusal, refusal_kind, step_hall, step_kind};
use store::layout;
use undo::{count, hold, is_undo, newest_action, pop, put_back};
use validity::is_hall;
use words::refuse;

// How long the stored form of a hall is.
const HALL: usize = layout::LENGTH;

// 43: "a buffer that is too short or not in the form described in docs/".
#[tactic(auto, unfolding(crate::specs::Held::undo_number))]
fn undo_refusal(undo: &[u8]) -> Result<(), Refusal>
    ensures { refused_by result ≡ undo_number undo.now }
{
    refuse(!is_undo(undo), Refusal::Undo)
}

// The refusal that `step_held` would answer with; else the kind: judged, and not performed.
pub fn step_held_refusal(
    hall: &[u8],
    undo: &[u8],
    k: u32,
    r: u32,
    a: u32,
    b: u32,
) -> Result<Kind, Refusal>
    ensures number { refused_by result
        ≡ (plain (step_held_on (bench_of hall.now undo.now) (words_of k r a b)).answer).number }
    ensures kind { IfOk result (λ κ. kind_number κ ≡ k) }
{
    let kind = early_refusal(hall, k)?;
    undo_refusal(undo)?;
    refusal_kind(hall, kind, r, a, b)?;
    Ok(kind)
}

// Holds an action that is accepted, and performs it.
fn take_held(
    hall: &mut [u8],
    undo: &mut [u8],
    k: Kind,
    r: u32,
    a: u32,
    b: u32,
) -> Result<Answer, Refusal>
    requires { (is_undo undo.old ≡ true) × Accepts hall.old (words_of (kind_number k) r a b) }
    ensures { StepsHeld hall.old undo.old (kind_number k) r a b result hall.new undo.new }
{
    hold(undo, hall, k, r, a, b);
    step_kind(hall, k, r, a, b)
}

// A step that is held: 11, 31, 43, 12 to 15, 32 to 40.
pub fn step_held(
    hall: &mut [u8],
    undo: &mut [u8],
    k: u32,
    r: u32,
    a: u32,
    b: u32,
) -> Result<Answer, Refusal>
    ensures { StepsHeld hall.old undo.old k r a b result hall.new undo.new }
{
    let kind = step_held_refusal(hall, undo, k, r, a, b)?;
    take_held(hall, undo, kind, r, a, b)
}

// The refusal that `settle_held` would answer with: judged on a copy, and not performed.
pub fn settle_held_refusal(hall: &[u8], undo: &[u8]) -> Result<(), Refusal>
    ensures { refused_by result ≡ settle_held_number (bench_of hall.now undo.now) }
{
    bytes_refusal(hall)?;
    bar_refusal(hall)?;
    undo_refusal(undo)?;
    settle_refusal(hall)
}

// Holds and performs the call of kind k at recorder r.
fn take_call(hall: &mut [u8], undo: &mut [u8], v: View, k: Kind, r: u32)
    requires { (is_undo undo.old ≡ true) × Accepts hall.old (settle_call v.number (kind_number k) r) }
    ensures { Left (step_held_on (bench_of hall.old undo.old) (settle_call v.number (kind_number k) r)).left
        hall.new undo.new }
{
    let a = view_word(v.number, u32::from(k));
    let _ = take_held(hall, undo, k, r, a, 0);
}

// Turns in the greatest view, each held, until none is left or 40 is met.
// `settling::take_turns` is alike, on one slice: with what a turn does given as a closure, the loop would be no plainer.
fn take_turns(hall: &mut [u8], undo: &mut [u8], v: View) -> Result<u32, Refusal>
    requires { InView hall.old v × (is_undo undo.old ≡ true) }
    ensures { TurnsHeld hall.old undo.old v result hall.new undo.new }
{
    for count in 0..MAX_TURNS as u32 {
        match find_turn(hall, v) {
            Turn::Takes(k, r) => take_call(hall, undo, v, k, r),
            Turn::Full => return Err(Refusal::Full),
            Turn::Nothing => return Ok(count),
        }
    }
    Ok(MAX_TURNS as u32)
}

// A settle whose actions are held: 31, 42, 43, 40, or the count of the steps taken.
pub fn settle_held(hall: &mut [u8], undo: &mut [u8]) -> Result<u32, Refusal>
    ensures { SettlesHeld hall.old undo.old result hall.new undo.new }
{
    settle_held_refusal(hall, undo)?;
    let v = greatest_view(hall, view_count(hall));
    take_turns(hall, undo, v)
}

// Does the newest action held lead from the hall that it would restore to the present one? Tried on a copy.
fn leads_back(hall: &[u8], undo: &[u8]) -> bool
    requires { (is_stored hall.now ≡ true) × Holding undo.now }
    ensures { result ≡ can_step_back hall.now (newest_of (held_in undo.now)) }
{
    let mut work = [0u8; HALL];
    put_bytes(&mut work, 0, hall, HALL);
    put_back(&mut work, undo);
    if !is_hall(&work) {
        return false;
    }
    let w = newest_action(undo);
    let answer = step_hall(&mut work, w.k, w.r, w.a, w.b);
    is_accepted(answer) && same(&work, hall, HALL)
}

// Is an action held, and does the newest one lead back?
fn can_step_back(hall: &[u8], undo: &[u8]) -> bool
    requires { (is_stored hall.now ≡ true) × (is_undo undo.now ≡ true) }
    ensures { result ≡ can_step_back hall.now (newest_of (held_in undo.now)) }
{
    count(undo) != 0 && leads_back(hall, undo)
}

// The refusal that `step_back` would answer with.
fn step_back_refusal(hall: &[u8], undo: &[u8]) -> Result<(), Refusal>
    ensures { refused_by result ≡ back_number (bench_of hall.now undo.now) }
{
    bytes_refusal(hall)?;
    undo_refusal(undo)?;
    refuse(!can_step_back(hall, undo), Refusal::Undo)
}

// Takes the newest action held back: 31, 43.
pub fn step_back(hall: &mut [u8], undo: &mut [u8]) -> Result<(), Refusal>
    ensures { StepsBack hall.old undo.old (refused_by result) hall.new undo.new }
{
    step_back_refusal(hall, undo)?;
    put_back(hall, undo);
    pop(undo);
    Ok(())
}
