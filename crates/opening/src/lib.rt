// Opening a hall on lent bytes (document 01, "Votes and views" and "A hall's fields"; 02, A4 and A8; refusals 16, 41 and 18).

#![tactic(auto)]

ghost use Rattle.std.specs.Prelude.{◌≡◌, List, ◌++◌, ℕ, ◌+◌, ◌-◌, ◌*◌, ◌≤◌, ◌<◌, length, drop};
ghost use Rattle.std.proofs.lemmas.List.Edits.{sets};
ghost use Rattle.model.specs.Opening.{opening_of, founder_mask};
ghost use Rattle.model.specs.Hall.{max_recorders};
ghost use Rattle.model.specs.RefusalNumbers.{refused_by};
ghost use Rattle.store.specs.Layout.{stored_length, recorders_at, recorder_size, votes_at};
ghost use Rattle.store.specs.CellForms.{recorder_form};
ghost use Rattle.store.specs.StoredForm.{stored};
ghost use Rattle.calls.specs.Calls.{open_on};
ghost use Rattle.opening.specs.Opened.{Taken, begun, start_of, vote_bytes};

use codec::{clear, put_byte, put_u32};
use model::limits::MAX_RECORDERS;
use model::refusals::Refusal;
use pieces::{Recorder, put_recorder};
use quorum::in_mask;
use store::layout;
use words::{opening_refusal, refuse};

// "A founders word of 0 shall mean recorder 1 only."
fn founder_mask(founders: u32) -> u32
    ensures { result ≡ founder_mask founders }
{
    if founders == 0 { 1 } else { founders }
}

// The votes of the eight recorders.
fn put_votes(b: &mut [u8], votes: [u32; 8])
    requires { stored_length ≤ length b.old }
    ensures { b.new ≡ sets b.old votes_at (vote_bytes votes) }
{
    for i in 0..MAX_RECORDERS {
        put_u32(b, layout::VOTES + i * layout::WORD, votes[i]);
    }
}

// N, the votes, and view 1 formed: "The hall opens with view 1, the founders."
fn begin(b: &mut [u8], n: u32, set: u32, votes: [u32; 8])
    requires { Taken n votes set b.old }
    ensures { b.new ≡ stored (begun n votes set 0) ++ drop stored_length b.old }
{
    clear(b, 0, layout::VOTES);
    put_votes(b, votes);
    put_byte(b, 0, n as u8);
    put_u32(b, layout::VIEWS, 1);
    put_byte(b, layout::VIEW_SETS, set as u8);
    put_byte(b, layout::VIEW_COUNT, 1);
}

// Recorder k + 1 starts: "founders have current view and highest primary 1, others 0 for both".
fn start(b: &mut [u8], set: u32, k: u32)
    requires { (k < max_recorders) × (stored_length ≤ length b.old) }
    ensures { (n : ℕ) → k < n
        → b.new
        ≡ sets b.old (recorders_at + k * recorder_size) (recorder_form.encode (start_of n set (k + 1))) }
{
    let at = layout::RECORDERS + k as usize * layout::RECORDER;
    if in_mask(set, k + 1) {
        put_recorder(b, at, Recorder::founder());
    } else {
        put_recorder(b, at, Recorder::outsider());
    }
}

// Recorders 1 to n start, one after another.
fn start_all(b: &mut [u8], n: u32, set: u32)
    requires { (n ≤ max_recorders) × (stored_length ≤ length b.old) }
    ensures { (row rest : List ℕ) → Taken n row set b.old → b.old ≡ stored (begun n row set 0) ++ rest
        → b.new ≡ stored (begun n row set n) ++ rest }
{
    for k in 0..n {
        start(b, set, k);
    }
}

// Opens a hall of n recorders with the founders of a word and a row of votes.
pub fn open(b: &mut [u8], n: u32, founders: u32, votes: [u32; 8]) -> Result<(), Refusal>
    ensures number { refused_by result ≡ (open_on b.old (opening_of n founders votes)).number }
    ensures bytes { b.new ≡ (open_on b.old (opening_of n founders votes)).bytes }
{
    let short = refuse(b.len() < layout::LENGTH, Refusal::Short);
    opening_refusal(n, founders, votes).and(short)?;
    let set = founder_mask(founders);
    begin(b, n, set, votes);
    start_all(b, n, set);
    Ok(())
}
