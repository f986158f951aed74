// Calls on a hall that return their number and write their answer's values into a lent slice (`lent`): a page, a step and a
// settle, and the two that are held in an undo buffer.

#![tactic(auto)]

ghost use Rattle.std.specs.Prelude.{◌≡◌};
ghost use Rattle.base.specs.Chains.{◌⨾◌};
ghost use Rattle.model.specs.Answers as model;
ghost use Rattle.model.specs.Call.{words_of};
ghost use Rattle.model.specs.RefusalNumbers.{refused_by};
ghost use Rattle.calls.specs.Calls.{step_on, settle_on};
ghost use Rattle.calls.specs.Lent.{step_lent, page_lent, settle_lent, Leaves};
ghost use Rattle.stepback.specs.Held.{bench_of, step_held_on, settle_held_on};
ghost use Rattle.stepback.specs.Lent.{step_held_lent, settle_held_lent, LeavesHeld};

use answer::{plain, plain_page, plain_settled};
use lent::{ANSWER, answer_into, put_values};
use model::refusals::{Refusal, number_of};
use page::page;
use settling::{settle, settle_refusal};
use step::{refusal, step};
use stepback::{settle_held, settle_held_refusal, step_held, step_held_refusal};

// The page of recorder r with place k of its order, its fields written into a lent slice.
pub fn page_into(hall: &[u8], r: u32, k: u32, out: &mut [u8]) -> u32
    ensures { Leaves (page_lent hall.now r k out.old)
        result hall.now out.new }
{
    let p = plain_page(page(hall, r, k));
    if p.number != 0 {
        return p.number;
    }
    let values = p.values;
    answer_into(out, &values)
}

// A call's number, or 18 where it is taken: there is no room for its answer.
fn or_no_room<T: Drop>(x: Result<T, Refusal>) -> u32
    ensures { result ≡ refused_by x ⨾ 18 }
{
    let no_room: Result<(), Refusal> = Err(Refusal::Short);
    number_of(x.and(no_room))
}

// The number of a step whose answer has no room: nothing is performed.
fn try_step(hall: &[u8], k: u32, r: u32, a: u32, b: u32) -> u32
    ensures { result ≡ (model.plain (step_on hall.now (words_of k r a b)).answer).number ⨾ 18 }
{
    or_no_room(refusal(hall, k, r, a, b))
}

// A step, its answer's values written into a lent slice.
pub fn step_into(hall: &mut [u8], k: u32, r: u32, a: u32, b: u32, out: &mut [u8]) -> u32
    ensures { Leaves (step_lent hall.old (words_of k r a b) out.old)
        result hall.new out.new }
{
    if out.len() < ANSWER {
        return try_step(hall, k, r, a, b);
    }
    let x = plain(step(hall, k, r, a, b));
    if x.number != 0 {
        return x.number;
    }
    let values = x.values;
    put_values(out, &values);
    0
}

// The number of a settle whose answer has no room: nothing is performed.
fn try_settle(hall: &[u8]) -> u32
    ensures { result ≡ (settle_on hall.now).answer.number ⨾ 18 }
{
    or_no_room(settle_refusal(hall))
}

// A settle, its count written into a lent slice (02, A5).
pub fn settle_into(hall: &mut [u8], out: &mut [u8]) -> u32
    ensures { Leaves (settle_lent hall.old out.old) result hall.new out.new }
{
    if out.len() < ANSWER {
        return try_settle(hall);
    }
    let x = plain_settled(settle(hall));
    if x.number != 0 {
        return x.number;
    }
    let values = x.values;
    put_values(out, &values);
    0
}

// The number of a held step whose answer has no room: nothing is performed.
fn try_step_held(hall: &[u8], undo: &[u8], k: u32, r: u32, a: u32, b: u32) -> u32
    ensures { result ≡ (model.plain
        (step_held_on (bench_of hall.now undo.now) (words_of k r a b)).answer).number ⨾ 18 }
{
    or_no_room(step_held_refusal(hall, undo, k, r, a, b))
}

// A held step, its answer's values written into a lent slice (02, A7).
pub fn step_held_into(
    hall: &mut [u8],
    undo: &mut [u8],
    k: u32,
    r: u32,
    a: u32,
    b: u32,
    out: &mut [u8],
) -> u32
    ensures { LeavesHeld
        (step_held_lent (bench_of hall.old undo.old) (words_of k r a b) out.old)
        result hall.new undo.new out.new }
{
    if out.len() < ANSWER {
        return try_step_held(hall, undo, k, r, a, b);
    }
    let x = plain(step_held(hall, undo, k, r, a, b));
    if x.number != 0 {
        return x.number;
    }
    let values = x.values;
    put_values(out, &values);
    0
}

// The number of a held settle whose answer has no room: nothing is performed.
fn try_settle_held(hall: &[u8], undo: &[u8]) -> u32
    ensures { result ≡ (settle_held_on (bench_of hall.now undo.now)).answer.number ⨾ 18 }
{
    or_no_room(settle_held_refusal(hall, undo))
}

// A held settle, its count written into a lent slice (02, A7).
pub fn settle_held_into(hall: &mut [u8], undo: &mut [u8], out: &mut [u8]) -> u32
    ensures { LeavesHeld (settle_held_lent (bench_of hall.old undo.old) out.old)
        result hall.new undo.new out.new }
{
    if out.len() < ANSWER {
        return try_settle_held(hall, undo);
    }
    let x = plain_settled(settle_held(hall, undo));
    if x.number != 0 {
        return x.number;
    }
    let values = x.values;
    put_values(out, &values);
    0
}
