// Answers as words in a lent slice: sixteen little-endian words, the values first, then zeros.
// These functions are for the crates of this repository: a `requires` is met by each caller's proof.

#![tactic(auto)]

ghost use Rattle.std.specs.Prelude.{◌≡◌, List, ℕ, ◌≤◌, ◌*◌, ◌/◌, ◌%◌, ◌^◌, length};
ghost use Rattle.calls.specs.Lent.{answer_length, with_answer, taken, lent_call, Leaves};

use codec::{clear, put_u32};
use model::refusals::Refusal;

// How long an answer's slice is at least.
pub const ANSWER: usize = 64;

// Writes an answer's values into the first 64 bytes of a slice.
pub fn put_values(out: &mut [u8], values: &[u32])
    requires { (length values.now * 4 ≤ answer_length) × (answer_length ≤ length out.old) }
    ensures { out.new ≡ with_answer out.old values.now }
{
    for (i, v) in values.iter().enumerate() {
        put_u32(out, i * 4, *v);
    }
    clear(out, values.len() * 4, ANSWER);
}

// The values of a call that is taken and leaves all else as it was, or 18: "18 is last".
pub fn answer_into(out: &mut [u8], values: &[u32]) -> u32
    requires { length values.now * 4 ≤ answer_length }
    ensures { (h : List ℕ)
        → Leaves (lent_call (taken values.now) h h out.old) result h out.new }
{
    if out.len() < ANSWER {
        return u32::from(Refusal::Short);
    }
    put_values(out, values);
    0
}

// An offset of 64 bits is two words.
const WORD: usize = 4294967296;

// The low word of an offset.
pub fn low(at: usize) -> u32
    ensures { result ≡ at % 2 ^ 32 }
{
    (at % WORD) as u32
}

// The high word of an offset.
pub fn high(at: usize) -> u32
    ensures { result ≡ at / 2 ^ 32 }
{
    (at / WORD) as u32
}
