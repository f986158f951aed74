// Stored forms (specs/): numbers, flags, bounded lists, pairs, cells, tables, each with its laws; and the code
// that gets and puts bytes, words and byte lists at an offset of a byte slice, and that reads and changes byte lists
// and rows of flags by value.
// These functions are for the crates of this repository: a `requires` is met by each caller's proof.

#![tactic(auto)]

ghost use Rattle.std.specs.Prelude.{◌≡◌, true, ◌&&◌, ◌||◌, [], ◌∷◌, ◌++◌, ◌+◌, ◌-◌, ◌≤◌, ◌<◌, eqb, length, get_or, take, drop};
ghost use Rattle.std.proofs.lemmas.List.Edits.{sets};
ghost use Rattle.base.specs.Lists.{bit, count_of, nth};
ghost use Rattle.base.specs.Numbers.{up_to};
ghost use Rattle.base.specs.Update.{upd};
ghost use Rattle.codec.specs.Bytes.{part, zeros, all_zero, same_bytes};
ghost use Rattle.codec.specs.Number.{digits, value, byte, between};
ghost use Rattle.codec.specs.Bounded.{bounded};
ghost use Rattle.codec.specs.ByteList.{items, list_at, list_bytes, all_in, list_capacity};
ghost use Rattle.codec.specs.Ends.{first_of, found_of};
ghost use Rattle.codec.specs.Flags.{set_of};

// A flag's byte: 1 or 0.
pub fn flag_byte(t: bool) -> u8
    ensures { result ≡ bit t }
{
    u8::from(t)
}

// The byte at an offset.
pub fn get_byte(b: &[u8], at: usize) -> u8
    requires { at < length b.now }
    ensures { result ≡ value (part at 1 b.now) }
{
    b[at]
}

// Writes the byte at an offset.
pub fn put_byte(b: &mut [u8], at: usize, v: u8)
    requires { at < length b.old }
    ensures { b.new ≡ sets b.old at (digits 1 v) }
{
    b[at] = v;
}

// The 32-bit word at an offset, little-endian.
pub fn get_u32(b: &[u8], at: usize) -> u32
    requires { at + 4 ≤ length b.now }
    ensures { result ≡ value (part at 4 b.now) }
{
    u32::from_le_bytes([b[at], b[at + 1], b[at + 2], b[at + 3]])
}

// Writes the 32-bit word at an offset, little-endian.
pub fn put_u32(b: &mut [u8], at: usize, v: u32)
    requires { at + 4 ≤ length b.old }
    ensures { b.new ≡ sets b.old at (digits 4 v) }
{
    b[at..at + 4].copy_from_slice(&v.to_le_bytes());
}

// Are the bytes from an offset up to another all 0?
pub fn is_zero(b: &[u8], from: usize, to: usize) -> bool
    requires { (from ≤ to) × (to ≤ length b.now) }
    ensures { result ≡ all_zero (part from (to - from) b.now) }
{
    b[from..to].iter().fold(0, |any, x| any | *x) == 0
}

// Writes 0 to the bytes from an offset up to another.
pub fn clear(b: &mut [u8], from: usize, to: usize)
    requires { (from ≤ to) × (to ≤ length b.old) }
    ensures { b.new ≡ sets b.old from (zeros (to - from)) }
{
    b[from..to].fill(0);
}

// Writes n bytes of s, from an offset of it on, at an offset.
pub fn copy_bytes(b: &mut [u8], at: usize, s: &[u8], from: usize, n: usize)
    requires { (from + n ≤ length s.now) × (at + n ≤ length b.old) }
    ensures { b.new ≡ sets b.old at (part from n s.now) }
{
    b[at..at + n].copy_from_slice(&s[from..from + n]);
}

// Writes the first n bytes of s at an offset.
pub fn put_bytes(b: &mut [u8], at: usize, s: &[u8], n: usize)
    requires { (n ≤ length s.now) × (at + n ≤ length b.old) }
    ensures { b.new ≡ sets b.old at (take n s.now) }
{
    b[at..at + n].copy_from_slice(&s[..n]);
}

// Moves n bytes down, from an offset to another.
pub fn move_down(b: &mut [u8], to: usize, from: usize, n: usize)
    requires { (to ≤ from) × (from + n ≤ length b.old) }
    ensures { b.new ≡ sets b.old to (part from n b.old) }
{
    b.copy_within(from..from + n, to);
}

// Are the first n bytes of two slices the same?
pub fn same(a: &[u8], b: &[u8], n: usize) -> bool
    requires { (n ≤ length a.now) × (n ≤ length b.now) }
    ensures { result ≡ same_bytes (take n a.now) (take n b.now) }
{
    a[..n] == b[..n]
}

// Are the bytes from an offset up to another all in lo .. hi?
pub fn all_in(b: &[u8], from: usize, to: usize, lo: u8, hi: u8) -> bool
    requires { (from ≤ to) × (to ≤ length b.now) }
    ensures { result ≡ all_in lo hi (part from (to - from) b.now) }
{
    b[from..to]
        .iter()
        .fold(true, |all, x| all & (lo <= *x) & (*x <= hi))
}

// A list of at most 72 bytes: the first `len` of `places`. Where it is stored it has a capacity of its own,
// which may be less.
// An array and a length, since there is no heap: as 01 has a queue, "handled by value as an array [empty; 72] with a length".
#[derive(Clone, Copy)]
pub struct ByteList {
    pub places: [u8; ByteList::CAPACITY],
    pub len: usize,
}

impl ByteList {
    pub const CAPACITY: usize = 72;
}

// The byte list at an offset.
pub fn get_list(b: &[u8], at: usize) -> ByteList
    requires { (at < length b.now) × ((get_or b.now at 0 ≤ list_capacity)
        × (at + 1 + get_or b.now at 0 ≤ length b.now)) }
    ensures { (result.len ≡ get_or b.now at 0) × (items result ≡ list_at b.now at) }
{
    let n = b[at] as usize;
    let from = at + 1;
    let mut places = [0; ByteList::CAPACITY];
    places[..n].copy_from_slice(&b[from..from + n]);
    ByteList { places, len: n }
}

// Writes a byte list at an offset where it has room for cap bytes, with zeros past its own.
pub fn put_list(b: &mut [u8], at: usize, cap: usize, l: ByteList)
    requires { (l.len ≤ cap) × ((cap ≤ list_capacity) × (at + (1 + cap) ≤ length b.old)) }
    ensures { b.new ≡ sets b.old at (list_bytes cap (items l)) }
{
    let n = l.len;
    let from = at + 1;
    b[at] = n as u8;
    put_bytes(b, from, &l.places, n);
    clear(b, from + n, from + cap);
}

// Is a byte list with room for cap bytes, each in lo .. hi, stored at an offset?
pub fn valid_list(b: &[u8], at: usize, cap: usize, lo: u8, hi: u8) -> bool
    requires { at + (1 + cap) ≤ length b.now }
    ensures { result ≡ (bounded (byte lo hi) cap).valid (part at (1 + cap) b.now) }
{
    let n = b[at] as usize;
    let from = at + 1;
    n <= cap && all_in(b, from, from + n, lo, hi) && is_zero(b, from + n, from + cap)
}

// How many bytes a list has.
pub fn list_len(l: ByteList) -> u32
    requires { l.len ≤ list_capacity }
    ensures { (result ≡ length (items l)) × (result ≡ l.len) }
{
    l.len as u32
}

// Byte number k of a list, counted from 1.
pub fn byte_at(l: ByteList, k: usize) -> u8
    requires { (1 ≤ k) × (k ≤ l.len) × (l.len ≤ list_capacity) }
    ensures { result ≡ nth (items l) k 0 }
{
    l.places[k - 1]
}

// The first byte of a list.
pub fn first_of(l: ByteList) -> Option<u8>
    requires { l.len ≤ list_capacity }
    ensures { found_of result ≡ first_of (items l) }
{
    if l.len == 0 { None } else { Some(l.places[0]) }
}

// A list without its first byte.
pub fn pop(l: ByteList) -> ByteList
    requires { (0 < l.len) × (l.len ≤ list_capacity) }
    ensures { (result.len ≡ l.len - 1) × (items result ≡ drop 1 (items l)) }
{
    let n = l.len - 1;
    let mut places = l.places;
    places[..n].copy_from_slice(&l.places[1..l.len]);
    ByteList { places, len: n }
}

// A list with one byte more, at the end.
pub fn push(l: ByteList, x: u8) -> ByteList
    requires { l.len < list_capacity }
    ensures { (result.len ≡ l.len + 1) × (items result ≡ items l ++ (x ∷ [])) }
{
    let n = l.len;
    let mut places = l.places;
    places[n] = x;
    ByteList { places, len: n + 1 }
}

// Is e, from 1 on, in the set that a row of flags means?
pub fn has_flag(row: &[u8], e: usize) -> bool
    requires { (1 ≤ e) × (e ≤ length row.now) }
    ensures { result ≡ set_of row.now e }
{
    1 == row[e - 1]
}

// Puts e, from 1 on, into the set that a row of flags means.
pub fn set_flag(row: &mut [u8], e: usize)
    requires { (1 ≤ e) × (e ≤ length row.old) }
    ensures { set_of row.new ≡ upd (set_of row.old) e true }
{
    row[e - 1] = 1;
}

// How many of the numbers 1 to n are in the set that a row of flags means. A sum and no `filter`, so that there is no branch.
pub fn count_flags(row: &[u8], n: usize) -> usize
    requires { n ≤ length row.now }
    ensures value { result ≡ count_of (set_of row.now) (up_to n) }
    ensures small { result ≤ n }
{
    let mut sum = 0;
    for i in 0..n {
        sum += usize::from(has_flag(row, i + 1));
    }
    sum
}
