// The fields of a line of text, by their offsets, and what they are read as: a number, a set of recorders, a word (the crate
// `story`). For the crates of this repository: a `requires` is met by each caller's proof.

#![tactic(auto)]

ghost use Rattle.std.specs.Prelude.{◌≡◌, ℕ, ◌+◌, ◌≤◌, ◌<◌, length, drop, slice_index, true, false};
ghost use Rattle.story.specs.Fields.{is_blank, is_end, is_break, line_length};
ghost use Rattle.story.specs.Numbers.{goes_on, with_digit, number_of};
ghost use Rattle.story.specs.Sets.{joins, with_member, members_from, set_of};
ghost use Rattle.story.specs.Keywords.{word_number};
ghost use Rattle.scanning.specs.Scanned.{Spans, Grows, value_of, place_of, KindNamed, first_number};

use model::kinds::Kind;
use story::KIND_WORDS;

// ## Fields

const NEWLINE: u8 = 10;

// A space, a tab or a carriage return.
fn is_blank(b: u8) -> bool
    ensures { result ≡ is_blank b }
{
    (b == 32) | ((b == 9) | (b == 13))
}

// The line's end, or a remark's begin.
fn is_end(b: u8) -> bool
    ensures { result ≡ is_end b }
{
    (b == NEWLINE) | (b == 35)
}

// Does a byte end a field?
fn is_break(b: u8) -> bool
    ensures { result ≡ is_break b }
{
    is_blank(b) | is_end(b)
}

// The index of the first byte that passes a test; the length if none does.
fn find<P: Fn(u8) -> bool>(bytes: &[u8], test: P) -> usize
    requires { P.IsAlwaysCallable test }
    ensures within { result ≤ length bytes.now }
    ensures passed { (k : ℕ) → k < result → P.post test (slice_index bytes.now k) false }
    ensures stops { result < length bytes.now → P.post test (slice_index bytes.now result) true }
{
    bytes.iter().position(|b| test(*b)).unwrap_or(bytes.len())
}

// The offset after the line and its byte 10.
pub fn line_end(text: &[u8], at: usize) -> usize
    requires { at ≤ length text.now }
    ensures { result ≡ at + line_length (drop at text.now) }
{
    let end = at + find(&text[at..], |b| b == NEWLINE);
    if end < text.len() { end + 1 } else { end }
}

// Where a field stands: nowhere if both are the same.
#[derive(Clone, Copy)]
pub struct Span {
    pub from: usize,
    pub to: usize,
}

// The first field from an offset on.
pub fn next_field(text: &[u8], at: usize) -> Span
    requires { at ≤ length text.now }
    ensures { Spans text.now at result.from result.to }
{
    let from = at + find(&text[at..], |b| !is_blank(b));
    let to = from + find(&text[from..], |b| is_break(b));
    Span { from, to }
}

// ## Values

// The number with one digit more, if b is a digit and the number with it still a word.
fn with_digit(n: u32, b: u8) -> Option<u32>
    ensures { Grows (goes_on n b) (with_digit n b) result }
{
    if !b.is_ascii_digit() {
        return None;
    }
    let digit = (b - b'0') as u32;
    n.checked_mul(10)?.checked_add(digit)
}

// A number: decimal digits, at least one, below 2^32.
pub fn number_of(field: &[u8]) -> Option<u32>
    ensures { value_of result ≡ number_of field.now }
{
    if field.is_empty() {
        return None;
    }
    let mut sum = 0;
    for b in field {
        sum = with_digit(sum, *b)?;
    }
    Some(sum)
}

// The set with one recorder more, if b is the digit of one, 1 to 8, that is not in it yet.
fn with_member(mask: u32, b: u8) -> Option<u32>
    requires { mask < 256 }
    ensures { Grows (joins mask b) (with_member mask b) result }
{
    if b < b'1' || b'8' < b {
        return None;
    }
    if quorum::in_mask(mask, (b - b'0') as u32) {
        return None;
    }
    Some(mask + (1 << (b - b'1') as u32))
}

// The members of a set, each with the byte after it: a comma, or `}` at the end.
fn members_of(members: &[u8]) -> Option<u32>
    ensures { value_of result ≡ members_from 0 members.now }
{
    let mut mask = 0;
    let mut rest = members;
    while let [b, c, tail @ ..] = rest {
        mask = with_member(mask, *b)?;
        if *c == b'}' && tail.is_empty() {
            return Some(mask);
        }
        if *c != b',' {
            return None;
        }
        rest = tail;
    }
    None
}

// A set in braces.
pub fn set_of(field: &[u8]) -> Option<u32>
    ensures { value_of result ≡ set_of field.now }
{
    let rest = field.strip_prefix(b"{".as_slice())?;
    if rest == b"}".as_slice() {
        return Some(0);
    }
    members_of(rest)
}

// ## Words

// A word that a line begins with: that of a kind, or another of the text form; or none.
#[derive(Clone, Copy)]
pub enum FirstWord {
    Kind(Kind),
    Raw,
    Hall,
    Other,
}

// Numbers of the words beside those of the kinds: numbers, since the answer for a wrong line has them (`story.Parsing.line_of`).
const RAW: u32 = 254;

const HALL: u32 = 255;

impl FirstWord {
    // The number of the word, 0 for any other.
    pub fn number(self) -> u32
        ensures { result ≡ first_number self }
    {
        match self {
            FirstWord::Kind(k) => u32::from(k),
            FirstWord::Raw => RAW,
            FirstWord::Hall => HALL,
            FirstWord::Other => 0,
        }
    }
}

// The place of the first of the words that a field is.
#[tactic(auto, unfolding(crate::specs::Scanned::place_of))]
fn place_of(field: &[u8], words: &[&[u8]]) -> Option<usize>
    ensures { result ≡ place_of field.now words.now }
{
    words.iter().position(|word| *word == field)
}

// The kind that a field is the word of.
fn kind_named(field: &[u8]) -> Option<Kind>
    ensures { KindNamed field.now result }
{
    let i = place_of(field, &KIND_WORDS)?;
    Kind::try_from(i as u32 + 1).ok()
}

// The word that a line begins with.
pub fn first_word(field: &[u8]) -> FirstWord
    ensures { first_number result ≡ word_number field.now }
{
    if let Some(k) = kind_named(field) {
        FirstWord::Kind(k)
    } else if field == b"raw".as_slice() {
        FirstWord::Raw
    } else if field == b"hall".as_slice() {
        FirstWord::Hall
    } else {
        FirstWord::Other
    }
}
