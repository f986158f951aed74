// The answers of a call as values, and the same in plain numbers (specs/Meaning.antt).

#![tactic(auto)]

ghost use Rattle.std.specs.Prelude.{◌≡◌, replicate};
ghost use Rattle.model.specs.Answers.{accepted, plain, word};
ghost use Rattle.answer.specs.Meaning.{taken, meaning_by, SaysAnswer, SaysPage, SaysSettled};

use model::payload::Payload;
use model::refusals::Numbered;

// An entry, with its label and payload.
#[derive(Clone, Copy)]
pub struct EntryPart {
    pub view: u32,
    pub seq: u32,
    pub sender: u32,
    pub payload: Payload,
}

// A summary: its known count, order length, confirm mark and highest primary.
#[derive(Clone, Copy)]
pub struct SummaryCounts {
    pub known: u32,
    pub order: u32,
    pub confirm: u32,
    pub high: u32,
}

// "either an entry or a summary"
#[derive(Clone, Copy)]
pub enum Content {
    Entry(EntryPart),
    Summary(SummaryCounts),
}

// "A receive answer gives the source and either an entry or a summary; so does a safe notice."
#[derive(Clone, Copy)]
pub struct Message {
    pub source: u32,
    pub content: Content,
}

// "Deliver gives sender and value."
#[derive(Clone, Copy)]
pub struct Sent {
    pub sender: u32,
    pub payload: Payload,
}

// The answer of an action that is taken. "The others give only done."
#[derive(Clone, Copy)]
pub enum Answer {
    Done,
    Message(Message),
    From(Sent),
}

// An answer in plain numbers: 0 or the refusal's number, and the answer's values. A number beside values, since C is given both.
#[derive(Clone, Copy)]
pub struct Numbers<const N: usize> {
    pub number: u32,
    pub values: [u32; N],
}

// The values of a call that is taken.
fn taken<const N: usize>(values: [u32; N]) -> Numbers<N>
    ensures number { result.number ≡ 0 }
    ensures values { result.values ≡ values.entry }
{
    Numbers { number: 0, values }
}

// "A refusal gives its number, other answer fields 0"
fn refused<const N: usize, E: Numbered>(why: E) -> Numbers<N>
    ensures number { result.number ≡ E.as_number why }
    ensures values { result.values ≡ replicate N 0 }
{
    Numbers {
        number: why.to_number(),
        values: [0; N],
    }
}

// Which case an answer is, with its fields.
#[tactic(auto, unfolding(model::specs::Answers::plain, crate::specs::Meaning::content_meaning))]
fn values(a: Answer) -> [u32; 6]
    ensures { result ≡ (plain (taken a)).values }
{
    match a {
        Answer::Done => [0; 6],
        Answer::Message(
            Message {
                source,
                content: Content::Entry(e),
            },
        ) => [1, source, e.view, e.seq, e.sender, e.payload.value],
        Answer::Message(
            Message {
                source,
                content: Content::Summary(s),
            },
        ) => [2, source, s.known, s.order, s.confirm, s.high],
        Answer::From(s) => [3, s.sender, s.payload.value, 0, 0, 0],
    }
}

pub fn plain<E: Numbered>(a: Result<Answer, E>) -> Numbers<6>
    ensures { SaysAnswer E.as_number a result }
{
    match a {
        Ok(x) => taken(values(x)),
        Err(why) => refused(why),
    }
}

#[tactic(auto, unfolding(model::specs::Answers::plain, model::specs::Answers::accepted))]
pub fn is_accepted<E: Numbered>(a: Result<Answer, E>) -> bool
    ensures { result ≡ accepted (meaning_by E.as_number a) }
{
    match a {
        Ok(_) => true,
        Err(why) => why.to_number() == 0,
    }
}

// "The page of a recorder gives .."; "the margin in place of the yes or no" (02, A1)
#[derive(Clone, Copy)]
pub struct Page {
    pub view: u32,
    pub set: u32,
    pub phase: u32,
    pub margin: i32,
    pub high: u32,
    pub order_length: u32,
    pub buffer_length: u32,
    pub confirm: u32,
    pub report: u32,
    pub label_view: u32,
    pub label_seq: u32,
    pub label_sender: u32,
    pub value: u32,
}

// A signed number as a word: n for n, 2^32 - n for -n.
fn word(m: i32) -> u32
    ensures { result ≡ word m }
{
    m.cast_unsigned()
}

// A page in plain numbers: its fields in turn, the margin as a word.
pub fn plain_page<E: Numbered>(a: Result<Page, E>) -> Numbers<13>
    ensures { SaysPage E.as_number a result }
{
    match a {
        Ok(p) => taken([
            p.view,
            p.set,
            p.phase,
            word(p.margin),
            p.high,
            p.order_length,
            p.buffer_length,
            p.confirm,
            p.report,
            p.label_view,
            p.label_seq,
            p.label_sender,
            p.value,
        ]),
        Err(why) => refused(why),
    }
}

// A settle in plain numbers (02, A5): the count of accepted steps.
pub fn plain_settled<E: Numbered>(a: Result<u32, E>) -> Numbers<1>
    ensures { SaysSettled E.as_number a result }
{
    match a {
        Ok(n) => taken([n]),
        Err(why) => refused(why),
    }
}
