// Text in a lent buffer: bytes, words, decimal numbers, the fields of a line and labels (01, "The replay listing"); and
// the lengths of such text. These functions are for the crates of this repository: a `requires` is met by each caller's proof.

#![tactic(auto)]

ghost use Rattle.std.specs.Prelude.{[], ◌∷◌};
ghost use Rattle.model.specs.Listing.{decimal};
ghost use Rattle.text.specs.Text.{Room, Wrote, Sized};
ghost use Rattle.text.specs.Fields.{number_text, last_text, last_two_text, label_field};
ghost use Rattle.text.specs.Fields.{max_decimal, max_last, max_last_two, max_label};

const SPACE: u8 = 32;

const NEWLINE: u8 = 10;

const DOT: u8 = 46;

// Writes one byte, and gives the offset after it, as each function below does of its text.
fn put_one(out: &mut [u8], at: usize, b: u8) -> usize
    requires { Room out.old at (b ∷ []) }
    ensures { Wrote out.old at (b ∷ []) out.new result }
{
    out[at] = b;
    at + 1
}

// A word: a fixed byte string.
pub fn put_word(out: &mut [u8], at: usize, word: &[u8]) -> usize
    requires { Room out.old at word.now }
    ensures { Wrote out.old at word.now out.new result }
{
    let n = word.len();
    codec::put_bytes(out, at, word, n);
    at + n
}

// "fields are decimal"
pub fn put_decimal(out: &mut [u8], at: usize, x: u32) -> usize
    requires { Room out.old at (decimal x) }
    ensures { Wrote out.old at (decimal x) out.new result }
{
    let digit = (48 + x % 10) as u8;
    if x < 10 {
        out[at] = digit;
        at + 1
    } else {
        let next = put_decimal(out, at, x / 10);
        out[next] = digit;
        next + 1
    }
}

// A space and a word, a space and a number: fields after the first.
pub fn put_field(out: &mut [u8], at: usize, word: &[u8]) -> usize
    requires { Room out.old at (32 ∷ word.now) }
    ensures { Wrote out.old at (32 ∷ word.now) out.new result }
{
    let next = put_one(out, at, SPACE);
    put_word(out, next, word)
}

pub fn put_number(out: &mut [u8], at: usize, x: u32) -> usize
    requires { Room out.old at (number_text x) }
    ensures { Wrote out.old at (number_text x) out.new result }
{
    let next = put_one(out, at, SPACE);
    put_decimal(out, next, x)
}

// The last number of a line, and the last two.
pub fn put_last(out: &mut [u8], at: usize, x: u32) -> usize
    requires { Room out.old at (last_text x) }
    ensures { Wrote out.old at (last_text x) out.new result }
{
    let next = put_number(out, at, x);
    put_one(out, next, NEWLINE)
}

pub fn put_last_two(out: &mut [u8], at: usize, x: u32, y: u32) -> usize
    requires { Room out.old at (last_two_text x y) }
    ensures { Wrote out.old at (last_two_text x y) out.new result }
{
    let next = put_number(out, at, x);
    put_last(out, next, y)
}

// A label after the first field: view.sequence.sender.
pub fn put_label(out: &mut [u8], at: usize, view: u32, seq: u32, sender: u32) -> usize
    requires { Room out.old at (label_field view seq sender) }
    ensures { Wrote out.old at (label_field view seq sender) out.new result }
{
    let a = put_number(out, at, view);
    let b = put_one(out, a, DOT);
    let c = put_decimal(out, b, seq);
    let d = put_one(out, c, DOT);
    put_decimal(out, d, sender)
}

// The lengths of these texts, each with a bound that holds for all 32-bit numbers.
pub fn decimal_len(x: u32) -> usize
    ensures { Sized (decimal x) max_decimal result }
{
    if 10 <= x { decimal_len(x / 10) + 1 } else { 1 }
}

pub fn last_len(x: u32) -> usize
    ensures { Sized (last_text x) max_last result }
{
    decimal_len(x) + 2
}

pub fn last_two_len(x: u32, y: u32) -> usize
    ensures { Sized (last_two_text x y) max_last_two result }
{
    decimal_len(x) + 1 + last_len(y)
}

pub fn label_len(view: u32, seq: u32, sender: u32) -> usize
    ensures { Sized (label_field view seq sender) max_label result }
{
    3 + decimal_len(view) + decimal_len(seq) + decimal_len(sender)
}
