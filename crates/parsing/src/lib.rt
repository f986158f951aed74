// Reads a line of the text form of a run (the crate `story`): its fields one after another, by their offsets in the text.

#![tactic(auto)]

ghost use Rattle.std.specs.Prelude.{◌≡◌, ℕ, List, ◌+◌, ◌≤◌, length, drop, Option};
ghost use Rattle.std.specs.Fn.{FnReturnsAt};
ghost use Rattle.base.specs.Lists.{is_empty};
ghost use Rattle.model.specs.Kinds.{uses};
ghost use Rattle.model.specs.KindNumbers.{kind_meaning, kind_number};
ghost use Rattle.words.specs.Words.{use_of};
ghost use Rattle.story.specs.Fields.{fields_in, line_length};
ghost use Rattle.story.specs.Numbers.{Value, number_of};
ghost use Rattle.story.specs.Keywords.{raw_number};
ghost use Rattle.story.specs.Parsing.{take_field, take_word, take_four, founders_of, take_founders, take_eight, take_votes};
ghost use Rattle.story.specs.Parsing.{kind_line, raw_line, opening_line, line_from, line_of};
ghost use Rattle.scanning.specs.Scanned.{value_of, first_number};
ghost use Rattle.parsing.specs.Reading.{Takes, TakesFour, TakesVotes, action_or, opening_or, line_meaning};

use model::kinds::Kind;
use runfile::{Action, FileOpening};
use scanning::{FirstWord, first_word, line_end, next_field, number_of, set_of};
use words::{Use, Uses, uses_of};

// ## Fields taken one after another

// The first field from an offset on as `read` reads it, and the offset after it.
fn take_field<F: Fn(&[u8]) -> Option<u32>>(read: F, text: &[u8], at: usize) -> Option<(u32, usize)>
    requires place { at ≤ length text.now }
    requires callable { F.IsAlwaysCallable read }
    ensures { (value : List ℕ → Value)
        → ((f : List ℕ) (x : Option ℕ) → FnReturnsAt F.Fn read f x → value_of x ≡ value f)
        → Takes text.now (take_field value (fields_in (drop at text.now))) result }
{
    let f = next_field(text, at);
    let value = read(&text[f.from..f.to])?;
    Some((value, f.to))
}

// A number.
fn take_number(text: &[u8], at: usize) -> Option<(u32, usize)>
    requires { at ≤ length text.now }
    ensures { Takes text.now (take_field number_of (fields_in (drop at text.now))) result }
{
    take_field(number_of, text, at)
}

// A word by its use: an unused one has no field and is 0.
fn take_word(u: Use, text: &[u8], at: usize) -> Option<(u32, usize)>
    requires { at ≤ length text.now }
    ensures { Takes text.now (take_word (use_of u) (fields_in (drop at text.now))) result }
{
    match u {
        Use::Unused => Some((0, at)),
        Use::Set => take_field(set_of, text, at),
        _ => take_number(text, at),
    }
}

// Four numbers.
fn take_four(text: &[u8], at: usize) -> Option<(Action, usize)>
    requires { at ≤ length text.now }
    ensures { TakesFour text.now (take_four (fields_in (drop at text.now))) result }
{
    let (k, at) = take_number(text, at)?;
    let (r, at) = take_number(text, at)?;
    let (a, at) = take_number(text, at)?;
    let (b, at) = take_number(text, at)?;
    Some((Action { k, r, a, b }, at))
}

// Is no field left?
fn is_over(text: &[u8], at: usize) -> bool
    requires { at ≤ length text.now }
    ensures { result ≡ is_empty (fields_in (drop at text.now)) }
{
    let f = next_field(text, at);
    f.from == f.to
}

// ## Actions

// The action told after the word of a kind, if all of its line is read.
fn kind_action(k: Kind, text: &[u8], at: usize) -> Option<Action>
    requires { at ≤ length text.now }
    ensures { action_or result (kind_number k)
        ≡ kind_line (kind_number k) (uses (kind_meaning k)) (fields_in (drop at text.now)) }
{
    let Uses(of_r, of_a, of_b) = uses_of(k);
    let (r, at) = take_word(of_r, text, at)?;
    let (a, at) = take_word(of_a, text, at)?;
    let (b, at) = take_word(of_b, text, at)?;
    is_over(text, at).then_some(Action {
        k: u32::from(k),
        r,
        a,
        b,
    })
}

// The action told after `raw`.
fn raw_action(text: &[u8], at: usize) -> Option<Action>
    requires { at ≤ length text.now }
    ensures { action_or result raw_number ≡ raw_line (fields_in (drop at text.now)) }
{
    let (x, at) = take_four(text, at)?;
    is_over(text, at).then_some(x)
}

// ## Openings

// `whole`, or a set with a member.
fn founders_of(n: u32, field: &[u8]) -> Option<u32>
    ensures { value_of result ≡ founders_of n field.now }
{
    if field == b"whole".as_slice() {
        return Some(quorum::all_of(n.min(8)));
    }
    set_of(field).filter(|set| *set != 0)
}

// The founders, if they are told; else the word 0.
fn take_founders(n: u32, text: &[u8], at: usize) -> Option<(u32, usize)>
    requires { at ≤ length text.now }
    ensures { Takes text.now (take_founders n (fields_in (drop at text.now))) result }
{
    let f = next_field(text, at);
    let word = &text[f.from..f.to];
    if word == b"founders".as_slice() {
        return take_field(|field| founders_of(n, field), text, f.to);
    }
    Some((0, at))
}

// A third word of 1, and eight vote words.
fn take_eight(text: &[u8], at: usize) -> Option<((u32, [u32; 8]), usize)>
    requires { at ≤ length text.now }
    ensures { TakesVotes text.now (take_eight (fields_in (drop at text.now))) result }
{
    let (x, at) = take_four(text, at)?;
    let (y, at) = take_four(text, at)?;
    Some(((1, [x.k, x.r, x.a, x.b, y.k, y.r, y.a, y.b]), at))
}

// The votes, if they are told; else a third word of 0, without vote words.
fn take_votes(text: &[u8], at: usize) -> Option<((u32, [u32; 8]), usize)>
    requires { at ≤ length text.now }
    ensures { TakesVotes text.now (take_votes (fields_in (drop at text.now))) result }
{
    let f = next_field(text, at);
    let word = &text[f.from..f.to];
    if word == b"votes".as_slice() {
        return take_eight(text, f.to);
    }
    Some(((0, [0; 8]), at))
}

// The opening told after `hall`, if all of its line is read.
fn opening(text: &[u8], at: usize) -> Option<FileOpening>
    requires { at ≤ length text.now }
    ensures { opening_or result ≡ opening_line (fields_in (drop at text.now)) }
{
    let (size, at) = take_number(text, at)?;
    let (founders, at) = take_founders(size, text, at)?;
    let ((third, words), at) = take_votes(text, at)?;
    is_over(text, at).then_some(FileOpening {
        size,
        founders,
        third,
        words,
    })
}

// ## Lines

// What a line says: nothing, an opening, an action, or no line of the text form, with the number of its first word.
#[derive(Clone, Copy)]
pub enum Line {
    Blank,
    Opening(FileOpening),
    Action(Action),
    Wrong(u32),
}

// A line by its first word.
fn line_from(first: FirstWord, text: &[u8], at: usize) -> Line
    requires { at ≤ length text.now }
    ensures { line_meaning result ≡ line_from (first_number first) (fields_in (drop at text.now)) }
{
    let line = match first {
        FirstWord::Kind(k) => kind_action(k, text, at).map(|x| Line::Action(x)),
        FirstWord::Raw => raw_action(text, at).map(|x| Line::Action(x)),
        FirstWord::Hall => opening(text, at).map(|x| Line::Opening(x)),
        FirstWord::Other => None,
    };
    line.unwrap_or(Line::Wrong(first.number()))
}

// What the line at an offset says.
fn line_at(text: &[u8], at: usize) -> Line
    requires { at ≤ length text.now }
    ensures { line_meaning result ≡ line_of (drop at text.now) }
{
    let f = next_field(text, at);
    if f.from == f.to {
        return Line::Blank;
    }
    let first = first_word(&text[f.from..f.to]);
    line_from(first, text, f.to)
}

// A line, and the offset after it and its byte 10.
#[derive(Clone, Copy)]
pub struct LineAt {
    pub line: Line,
    pub next: usize,
}

// Reads the line at an offset, up to its byte 10 or the text's end. Past the end there is a blank line of no length.
pub fn parse_line(text: &[u8], at: usize) -> LineAt
    ensures { (line_meaning result.line ≡ line_of (drop at text.now))
        × (result.next ≡ at + line_length (drop at text.now)) }
{
    if text.len() < at {
        return LineAt {
            line: Line::Blank,
            next: at,
        };
    }
    LineAt {
        line: line_at(text, at),
        next: line_end(text, at),
    }
}
