// Calls on text that return their number and write their answer's values into a lent slice (`lent`): the listing of a run,
// and a line of the text form, printed or read.

#![tactic(auto)]

ghost use Rattle.std.specs.Prelude.{◌≡◌, List, ℕ, ◌≤◌, length};
ghost use Rattle.model.specs.Call.{words_of};
ghost use Rattle.calls.specs.Lent.{Leaves, taken, lent_call};
ghost use Rattle.runfile.specs.Answers.{file_opening};
ghost use Rattle.story.specs.Lent.{print_lent, action_lent, opening_lent, line_words, parse_lent};
ghost use Rattle.printing.specs.Lines.{Holds};
ghost use Rattle.parsing.specs.Reading.{line_meaning};
ghost use Rattle.replaying.specs.Lent.{list_lent, LeavesList};

use codec::put_bytes;
use lent::{ANSWER, answer_into, high, low, put_values};
use model::refusals::Refusal;
use parsing::{Line, parse_line};
use printing::{PrintedLine, print_action, print_opening};
use replaying::list_run;
use runfile::FileOpening;

// The listing of a run file, its length written into a lent slice. 18 is the only number: where the length has no room, the
// run need not be tried.
pub fn list_into(file: &[u8], hall: &mut [u8], text: &mut [u8], out: &mut [u8]) -> u32
    ensures { LeavesList
        (list_lent file.now hall.old text.old out.old)
        result hall.new text.new out.new }
{
    if out.len() < ANSWER {
        return u32::from(Refusal::Short);
    }
    match list_run(file, hall, text) {
        Ok(len) => {
            let length = len as u32;
            put_values(out, &[length]);
            0
        }
        Err(why) => u32::from(why),
    }
}

// A printed line at the start of a lent slice, its length written into another.
fn put_line(x: PrintedLine, text: &mut [u8], out: &mut [u8]) -> u32
    requires { x.len ≤ length x.bytes }
    ensures { (t : List ℕ) → Holds t x
        → Leaves (print_lent 0 t text.old out.old) result text.new out.new }
{
    if text.len() < x.len || out.len() < ANSWER {
        return u32::from(Refusal::Short);
    }
    put_bytes(text, 0, &x.bytes, x.len);
    put_values(out, &[x.len as u32]);
    0
}

// The line of an action.
pub fn print_action_into(k: u32, r: u32, a: u32, b: u32, text: &mut [u8], out: &mut [u8]) -> u32
    ensures { Leaves (action_lent (words_of k r a b) text.old out.old)
        result text.new out.new }
{
    put_line(print_action(k, r, a, b), text, out)
}

// The line of an opening.
pub fn print_opening_into(o: FileOpening, text: &mut [u8], out: &mut [u8]) -> u32
    ensures { Leaves (opening_lent (file_opening o) text.old out.old)
        result text.new out.new }
{
    match print_opening(o) {
        Ok(line) => put_line(line, text, out),
        Err(why) => u32::from(why),
    }
}

// Which case a line is: numbers, since C reads them (`hall_parse_line`; `story.Lent.line_words` holds them).
const BLANK: u32 = 0;

const OPENING: u32 = 1;

const ACTION: u32 = 2;

const WRONG: u32 = 3;

// What a line says and the offset after it, as words.
fn line_into(line: Line, next: usize, out: &mut [u8]) -> u32
    ensures { (h : List ℕ) → Leaves
        (lent_call (taken (line_words (line_meaning line) next)) h h out.old) result h out.new }
{
    match line {
        Line::Blank => answer_into(out, &[BLANK, low(next), high(next)]),
        Line::Opening(o) => {
            let [v1, v2, v3, v4, v5, v6, v7, v8] = o.words;
            let values = [
                OPENING,
                low(next),
                high(next),
                o.size,
                o.founders,
                o.third,
                v1,
                v2,
                v3,
                v4,
                v5,
                v6,
                v7,
                v8,
            ];
            answer_into(out, &values)
        }
        Line::Action(x) => answer_into(out, &[ACTION, low(next), high(next), x.k, x.r, x.a, x.b]),
        Line::Wrong(k) => answer_into(out, &[WRONG, low(next), high(next), k]),
    }
}

// The line at an offset of a text.
pub fn parse_line_into(text: &[u8], at: usize, out: &mut [u8]) -> u32
    ensures { Leaves (parse_lent text.now at out.old)
        result text.now out.new }
{
    let read = parse_line(text, at);
    line_into(read.line, read.next, out)
}
