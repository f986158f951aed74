// A line of the text form of a run, printed as the crate `story` defines it: an action's, and an opening's. The functions
// that write into a lent buffer are for this crate alone: a `requires` is met by each caller's proof.

#![tactic(auto)]

ghost use Rattle.std.specs.Prelude.{◌≡◌, [], ◌∷◌, ◌-◌, ◌%◌, ◌^◌, ◌≤◌, eqb, map};
ghost use Rattle.model.specs.Call.{words_of};
ghost use Rattle.model.specs.KindNumbers.{kind_number};
ghost use Rattle.model.specs.Listing.{decimal};
ghost use Rattle.model.specs.RefusalNumbers.{refused_by};
ghost use Rattle.words.specs.Words.{use_of};
ghost use Rattle.runfile.specs.Answers.{file_opening};
ghost use Rattle.text.specs.Text.{Room, Wrote};
ghost use Rattle.story.specs.Sets.{member_text, members_text, set_text};
ghost use Rattle.story.specs.Printing.{can_tell, arg_fields, kind_fields, action_text};
ghost use Rattle.story.specs.Printing.{founders_fields, votes_fields, opening_text, tell_refusal};
ghost use Rattle.printing.specs.Lines.{spaced, kind_text, raw_text, TellsKind, Holds, Prints};

use model::kinds::Kind;
use model::refusals::Refusal;
use quorum::{all_of, in_mask};
use runfile::{FileOpening, refused_opening};
use story::kind_word;
use text::{put_decimal, put_field, put_number, put_word};
use words::{Use, Uses, refuse, uses_of};

// No line is longer.
pub const MAX_LINE: usize = 160;

// A line: the first `len` bytes. An array and a length, since there is no heap.
#[derive(Clone, Copy)]
pub struct PrintedLine {
    pub bytes: [u8; MAX_LINE],
    pub len: usize,
}

// ## Sets

// Is no recorder below i in the set with mask m?
fn none_below(m: u32, i: u32) -> bool
    requires { (1 ≤ i) × (i ≤ 8) }
    ensures { result ≡ eqb (m % 2 ^ (i - 1)) 0 }
{
    let j = i - 1;
    m % (1 << j) == 0
}

// Recorder i, if it is in the set, after a comma where a lower one is.
fn put_member(out: &mut [u8], at: usize, m: u32, i: u32) -> usize
    requires le_i { (1 ≤ i) × (i ≤ 8) }
    requires room { Room out.old at (member_text m i) }
    ensures { Wrote out.old at (member_text m i) out.new result }
{
    if in_mask(m, i) {
        if none_below(m, i) {
            return put_decimal(out, at, i);
        }
        let next = put_word(out, at, b",");
        return put_decimal(out, next, i);
    }
    at
}

// The members 1 to 8, rising.
fn put_members(out: &mut [u8], at: usize, m: u32) -> usize
    requires { Room out.old at (members_text m 8) }
    ensures { Wrote out.old at (members_text m 8) out.new result }
{
    let mut next = at;
    for i in 1..=8 {
        next = put_member(out, next, m, i);
    }
    next
}

// A set as a field after the first.
fn put_set(out: &mut [u8], at: usize, m: u32) -> usize
    requires { Room out.old at (spaced (set_text m ∷ [])) }
    ensures { Wrote out.old at (spaced (set_text m ∷ [])) out.new result }
{
    let a = put_word(out, at, b" {");
    let b = put_members(out, a, m);
    put_word(out, b, b"}")
}

// ## Actions

// Can a word be told in a line of a kind that uses it so?
fn can_tell(u: Use, w: u32) -> bool
    ensures { result ≡ can_tell (use_of u) w }
{
    match u {
        Use::Unused => w == 0,
        Use::Set => w < 256,
        _ => true,
    }
}

// The kind in whose line an action is told, if it has a line of its kind.
fn kind_of_line(k: u32, r: u32, a: u32, b: u32) -> Option<Kind>
    ensures { TellsKind (words_of k r a b) result }
{
    let kind = Kind::try_from(k).ok()?;
    let Uses(of_r, of_a, of_b) = uses_of(kind);
    let told = can_tell(of_r, r) & (can_tell(of_a, a) & can_tell(of_b, b));
    told.then_some(kind)
}

// A word as fields after the first, by its use.
fn put_arg(out: &mut [u8], at: usize, u: Use, w: u32) -> usize
    requires { Room out.old at (spaced (arg_fields (use_of u) w)) }
    ensures { Wrote out.old at (spaced (arg_fields (use_of u) w)) out.new result }
{
    match u {
        Use::Unused => at,
        Use::Set => put_set(out, at, w),
        _ => put_number(out, at, w),
    }
}

// The words that a kind uses, in turn.
fn put_args(out: &mut [u8], at: usize, k: Kind, r: u32, a: u32, b: u32) -> usize
    requires { Room out.old at (spaced (kind_fields (words_of (kind_number k) r a b))) }
    ensures { Wrote out.old at (spaced (kind_fields (words_of (kind_number k) r a b))) out.new result }
{
    let Uses(of_r, of_a, of_b) = uses_of(k);
    let after_r = put_arg(out, at, of_r, r);
    let after_a = put_arg(out, after_r, of_a, a);
    put_arg(out, after_a, of_b, b)
}

// The word of the kind, and the words that it uses: `submit 2 101`, `form 4 {1,3}`.
fn put_kind_line(out: &mut [u8], at: usize, k: Kind, r: u32, a: u32, b: u32) -> usize
    requires { Room out.old at (kind_text (words_of (kind_number k) r a b)) }
    ensures { Wrote out.old at (kind_text (words_of (kind_number k) r a b)) out.new result }
{
    let after_word = put_word(out, at, kind_word(k));
    let after_args = put_args(out, after_word, k, r, a, b);
    put_word(out, after_args, b"\n")
}

// Numbers as fields after the first.
fn put_numbers(out: &mut [u8], at: usize, numbers: &[u32]) -> usize
    requires { Room out.old at (spaced (map decimal numbers.now)) }
    ensures { Wrote out.old at (spaced (map decimal numbers.now)) out.new result }
{
    let mut next = at;
    for x in numbers {
        next = put_number(out, next, *x);
    }
    next
}

// Any four words: `raw 12 9 0 0`.
fn put_raw_line(out: &mut [u8], at: usize, k: u32, r: u32, a: u32, b: u32) -> usize
    requires { Room out.old at (raw_text (words_of k r a b)) }
    ensures { Wrote out.old at (raw_text (words_of k r a b)) out.new result }
{
    let after_word = put_word(out, at, b"raw");
    let after_words = put_numbers(out, after_word, &[k, r, a, b]);
    put_word(out, after_words, b"\n")
}

// An action's line: that of its kind if it has one.
fn put_action(out: &mut [u8], at: usize, k: u32, r: u32, a: u32, b: u32) -> usize
    requires { Room out.old at (action_text (words_of k r a b)) }
    ensures { Wrote out.old at (action_text (words_of k r a b)) out.new result }
{
    match kind_of_line(k, r, a, b) {
        Some(kind) => put_kind_line(out, at, kind, r, a, b),
        None => put_raw_line(out, at, k, r, a, b),
    }
}

// The line of an action.
pub fn print_action(k: u32, r: u32, a: u32, b: u32) -> PrintedLine
    ensures { Holds (action_text (words_of k r a b)) result }
{
    let mut bytes = [0u8; MAX_LINE];
    let len = put_action(&mut bytes, 0, k, r, a, b);
    PrintedLine { bytes, len }
}

// ## Openings

// The founders of n recorders: no field for the word 0.
fn put_founders(out: &mut [u8], at: usize, n: u32, m: u32) -> usize
    requires n_bound { n ≤ 8 }
    requires room { Room out.old at (spaced (founders_fields n m)) }
    ensures { Wrote out.old at (spaced (founders_fields n m)) out.new result }
{
    if m == 0 {
        return at;
    }
    let next = put_field(out, at, b"founders");
    if m == all_of(n) {
        return put_field(out, next, b"whole");
    }
    put_set(out, next, m)
}

// The vote words, where the third word is 1.
fn put_votes(out: &mut [u8], at: usize, third: u32, words: &[u32]) -> usize
    requires { Room out.old at (spaced (votes_fields third words.now)) }
    ensures { Wrote out.old at (spaced (votes_fields third words.now)) out.new result }
{
    if third != 1 {
        return at;
    }
    let next = put_field(out, at, b"votes");
    put_numbers(out, next, words)
}

// An opening's line: `hall 3 founders {1,2}`.
fn put_opening(out: &mut [u8], at: usize, o: FileOpening) -> usize
    requires size_bound { o.size ≤ 8 }
    requires room { Room out.old at (opening_text (file_opening o)) }
    ensures { Wrote out.old at (opening_text (file_opening o)) out.new result }
{
    let a = put_word(out, at, b"hall");
    let b = put_number(out, a, o.size);
    let c = put_founders(out, b, o.size, o.founders);
    let d = put_votes(out, c, o.third, &o.words);
    put_word(out, d, b"\n")
}

// 16, 41, and 19 for a third word above 1.
fn tell_refusal(o: FileOpening) -> Result<(), Refusal>
    ensures { refused_by result ≡ tell_refusal (file_opening o) }
{
    refused_opening(o)?;
    refuse(1 < o.third, Refusal::File)
}

// The line of an opening.
pub fn print_opening(o: FileOpening) -> Result<PrintedLine, Refusal>
    ensures { Prints (tell_refusal (file_opening o)) (opening_text (file_opening o)) result }
{
    tell_refusal(o)?;
    let mut bytes = [0u8; MAX_LINE];
    let len = put_opening(&mut bytes, 0, o);
    Ok(PrintedLine { bytes, len })
}
