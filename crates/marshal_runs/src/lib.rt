// Calls on a run file that return their number and write their answer's values into a lent slice (`lent`): reading its
// opening and its actions, and writing it.

#![tactic(auto)]

ghost use Rattle.std.specs.Prelude.{◌≡◌, List, ℕ};
ghost use Rattle.base.specs.Chains.{◌⨾◌};
ghost use Rattle.model.specs.RunFile.{write_file};
ghost use Rattle.runfile.specs.Answers.{file_opening, run_of};
ghost use Rattle.calls.specs.Lent.{Leaves};
ghost use Rattle.calls.specs.RunsLent.{run_read_lent, run_action_lent, run_write_lent, written_words};

use lent::{ANSWER, answer_into, high, low, put_values};
use model::refusals::Refusal;
use runfile::FileOpening;

// The opening of a run file, written into a lent slice: N, the founders, the offset of the first action, how many actions
// there are, the third word and the eight vote words.
pub fn run_read_into(file: &[u8], out: &mut [u8]) -> u32
    ensures { Leaves (run_read_lent file.now out.old)
        result file.now out.new }
{
    match runfile::read_opening(file) {
        Err(why) => u32::from(why),
        Ok(o) => {
            let x = o.opening;
            let [v1, v2, v3, v4, v5, v6, v7, v8] = x.words;
            let values = [
                x.size,
                x.founders,
                low(o.start),
                high(o.start),
                o.count,
                x.third,
                v1,
                v2,
                v3,
                v4,
                v5,
                v6,
                v7,
                v8,
            ];
            answer_into(out, &values)
        }
    }
}

// The action at an offset of a run file, written into a lent slice with the offset after it; or the end.
pub fn run_action_into(file: &[u8], at: usize, out: &mut [u8]) -> u32
    ensures { Leaves (run_action_lent file.now at out.old)
        result file.now out.new }
{
    match runfile::read_next(file, at) {
        Some((x, after)) => {
            let values = [0, x.k, x.r, x.a, x.b, low(after), high(after)];
            answer_into(out, &values)
        }
        None => answer_into(out, &[1]),
    }
}

// The number of a write whose answer has no room, tried on a slice that is too short for any run: nothing is changed.
fn try_write(o: FileOpening, actions: &[u32]) -> u32
    ensures { (file : List ℕ)
        → result ≡ (written_words (write_file (run_of (file_opening o) actions.now) file).answer).number ⨾ 18 }
{
    let mut none = [0u8; 1];
    match runfile::write(&mut none, o, actions) {
        Ok(_) => u32::from(Refusal::Short),
        Err(early) => u32::from(early),
    }
}

// A run written at the start of a lent slice, its length written into another.
pub fn run_write_into(file: &mut [u8], o: FileOpening, actions: &[u32], out: &mut [u8]) -> u32
    ensures { Leaves
        (run_write_lent file.old (run_of (file_opening o) actions.now) out.old)
        result file.new out.new }
{
    if out.len() < ANSWER {
        return try_write(o, actions);
    }
    match runfile::write(file, o, actions) {
        Err(why) => u32::from(why),
        Ok(length) => {
            put_values(out, &[length as u32]);
            0
        }
    }
}
