// The lines of the replay listing (01, "The replay listing"), written into a lent buffer, and their lengths. These
// functions are for the crates of this repository: a `requires` is met by each caller's proof.

#![tactic(auto)]

ghost use Rattle.std.specs.Prelude.{[], ◌∷◌};
ghost use Rattle.model.specs.Payloads.{payload_meaning};
ghost use Rattle.model.specs.Answers.{message};
ghost use Rattle.model.specs.Listing.{decimal, line, action_line, end_line, refused_line, hall-word};
ghost use Rattle.answer.specs.Meaning.{taken, meaning_by, content_meaning};
ghost use Rattle.text.specs.Text.{Room, Wrote, Sized};
ghost use Rattle.listing.specs.Lines.{answer_text, entry_text, summary_text, sent_text, refusal_text};
ghost use Rattle.listing.specs.Lines.{kind_only, max_answer, max_line};

use answer::{Answer, Content, EntryPart, Message, Sent, SummaryCounts};
use model::refusals::Numbered;

// "`entry` gives view.sequence.sender and value"
fn put_entry(out: &mut [u8], at: usize, e: EntryPart) -> usize
    requires { Room out.old at (entry_text e.view e.seq e.sender (payload_meaning e.payload)) }
    ensures { Wrote out.old at
        (entry_text e.view e.seq e.sender (payload_meaning e.payload)) out.new result }
{
    let a = text::put_field(out, at, b"entry");
    let b = text::put_label(out, a, e.view, e.seq, e.sender);
    text::put_last(out, b, e.payload.value)
}

// "`summary` gives source, known count, order length, confirm mark, highest primary"
fn put_summary(out: &mut [u8], at: usize, source: u32, s: SummaryCounts) -> usize
    requires { Room out.old at (summary_text source s.known s.order s.confirm s.high) }
    ensures { Wrote out.old at (summary_text source s.known s.order s.confirm s.high)
        out.new result }
{
    let a = text::put_field(out, at, b"summary");
    let b = text::put_number(out, a, source);
    let c = text::put_number(out, b, s.known);
    let d = text::put_number(out, c, s.order);
    text::put_last_two(out, d, s.confirm, s.high)
}

fn put_message(out: &mut [u8], at: usize, m: Message) -> usize
    requires { Room out.old at (answer_text (message m.source (content_meaning m.content))) }
    ensures { Wrote out.old at (answer_text (message m.source (content_meaning m.content)))
        out.new result }
{
    match m.content {
        Content::Entry(e) => put_entry(out, at, e),
        Content::Summary(s) => put_summary(out, at, m.source, s),
    }
}

// "`from`, for a deliver, gives sender and value"
fn put_sent(out: &mut [u8], at: usize, s: Sent) -> usize
    requires { Room out.old at (sent_text s.sender (payload_meaning s.payload)) }
    ensures { Wrote out.old at (sent_text s.sender (payload_meaning s.payload))
        out.new result }
{
    let next = text::put_field(out, at, b"from");
    text::put_last_two(out, next, s.sender, s.payload.value)
}

fn put_refusal<E: Numbered>(out: &mut [u8], at: usize, why: E) -> usize
    requires { Room out.old at (refusal_text (E.as_number why)) }
    ensures { Wrote out.old at (refusal_text (E.as_number why)) out.new result }
{
    let next = text::put_field(out, at, b"refused");
    text::put_last(out, next, why.to_number())
}

// The answer of an action that is taken, to the end of its line.
fn put_taken(out: &mut [u8], at: usize, a: Answer) -> usize
    requires { Room out.old at (answer_text (taken a)) }
    ensures { Wrote out.old at (answer_text (taken a)) out.new result }
{
    match a {
        Answer::Done => text::put_word(out, at, b" ok\n"),
        Answer::Message(m) => put_message(out, at, m),
        Answer::From(s) => put_sent(out, at, s),
    }
}

// An answer to the end of its line.
fn put_answer<E: Numbered>(out: &mut [u8], at: usize, a: Result<Answer, E>) -> usize
    requires { Room out.old at (answer_text (meaning_by E.as_number a)) }
    ensures { Wrote out.old at (answer_text (meaning_by E.as_number a)) out.new result }
{
    match a {
        Ok(x) => put_taken(out, at, x),
        Err(why) => put_refusal(out, at, why),
    }
}

// "per action its place, kind and answer"
pub fn put_action_line<E: Numbered>(
    out: &mut [u8],
    at: usize,
    place: u32,
    kind: u32,
    a: Result<Answer, E>,
) -> usize
    requires { Room out.old at (action_line place (kind_only kind) (meaning_by E.as_number a)) }
    ensures { Wrote out.old at (action_line place (kind_only kind) (meaning_by E.as_number a))
        out.new result }
{
    let after_place = text::put_decimal(out, at, place);
    let after_kind = text::put_number(out, after_place, kind);
    put_answer(out, after_kind, a)
}

// "`end` with accepted and refused counts"
pub fn put_end_line(out: &mut [u8], at: usize, yes: u32, no: u32) -> usize
    requires { Room out.old at (end_line yes no) }
    ensures { Wrote out.old at (end_line yes no) out.new result }
{
    let next = text::put_word(out, at, b"end");
    text::put_last_two(out, next, yes, no)
}

// "A refused file or opening gives one line, `refused` and the number."
pub fn put_refused_line(out: &mut [u8], at: usize, k: u32) -> usize
    requires { Room out.old at (refused_line k) }
    ensures { Wrote out.old at (refused_line k) out.new result }
{
    let next = text::put_word(out, at, b"refused");
    text::put_last(out, next, k)
}

// "`hall` N"
pub fn put_hall_line(out: &mut [u8], at: usize, n: u32) -> usize
    requires { Room out.old at (line hall-word (decimal n ∷ [])) }
    ensures { Wrote out.old at (line hall-word (decimal n ∷ [])) out.new result }
{
    let next = text::put_word(out, at, b"hall");
    text::put_last(out, next, n)
}

// The lengths of these texts, each with a bound that holds for all 32-bit numbers.
fn message_len(m: Message) -> usize
    ensures { Sized (answer_text (message m.source (content_meaning m.content))) max_answer result }
{
    match m.content {
        Content::Entry(e) => 6
            + text::label_len(e.view, e.seq, e.sender)
            + text::last_len(e.payload.value),
        Content::Summary(s) => {
            let first = 9 + text::decimal_len(m.source);
            let counts = 2 + text::decimal_len(s.known) + text::decimal_len(s.order);
            first + counts + text::last_two_len(s.confirm, s.high)
        }
    }
}

fn taken_len(a: Answer) -> usize
    ensures { Sized (answer_text (taken a)) max_answer result }
{
    match a {
        Answer::Done => 4,
        Answer::Message(m) => message_len(m),
        Answer::From(s) => 5 + text::last_two_len(s.sender, s.payload.value),
    }
}

fn answer_len<E: Numbered>(a: Result<Answer, E>) -> usize
    ensures { Sized (answer_text (meaning_by E.as_number a)) max_answer result }
{
    match a {
        Ok(x) => taken_len(x),
        Err(why) => 8 + text::last_len(why.to_number()),
    }
}

pub fn action_line_len<E: Numbered>(place: u32, kind: u32, a: Result<Answer, E>) -> usize
    ensures { Sized (action_line place (kind_only kind) (meaning_by E.as_number a)) max_line
        result }
{
    text::decimal_len(place) + 1 + text::decimal_len(kind) + answer_len(a)
}

pub fn end_line_len(yes: u32, no: u32) -> usize
    ensures { Sized (end_line yes no) max_line result }
{
    3 + text::last_two_len(yes, no)
}

pub fn refused_line_len(k: u32) -> usize
    ensures { Sized (refused_line k) max_line result }
{
    7 + text::last_len(k)
}

pub fn hall_line_len(n: u32) -> usize
    ensures { Sized (line hall-word (decimal n ∷ [])) max_line result }
{
    4 + text::last_len(n)
}
