// Sets, votes and margins of a hall, and the rows of votes (document 01, "Votes and views"; 02, A1, A4 and A6). For the crates
// of this repository: a `requires` is met by each caller's proof.

#![tactic(auto)]

ghost use Rattle.std.specs.Prelude.{◌≡◌, true, ℕ, ◌-◌, ◌^◌, ◌≤◌, drop};
ghost use Rattle.quorum.specs.Sets.{in_mask};
ghost use Rattle.quorum.specs.Votes.{margin, share, counted, built_in, row_of};
ghost use Rattle.quorum.specs.Votes.{built_in_row, max_vote, small_row, no_votes, wrong_row};

// "0 to 1,000 each" (02, A4).
pub const MAX_VOTE: u32 = 1000;

// The set of recorders 1 to n.
pub fn all_of(n: u32) -> u32
    requires { n ≤ 8 }
    ensures { result ≡ 2 ^ n - 1 }
{
    (1 << n) - 1
}

// Is recorder k in a set: "a set is a mask with bit k-1 for recorder k".
pub fn in_mask(set: u32, k: u32) -> bool
    requires { (1 ≤ k) × (k ≤ 8) }
    ensures { result ≡ in_mask set k }
{
    let i = k - 1;
    (set >> i) % 2 == 1
}

// v votes if t holds.
fn share(t: bool, v: u32) -> u32
    ensures { result ≡ share t v }
{
    if t { v } else { 0 }
}

// The votes of recorder k that count in a hall of n: none above n.
fn vote(row: &[u32; 8], n: u32, k: u32) -> u32
    requires { (1 ≤ k) × (k ≤ 8) }
    ensures { result ≡ counted (row_of row.now) n k }
{
    share(k <= n, row[k as usize - 1])
}

// The margin of a set: "twice the set's votes less the votes of the whole hall" (02, A1), recorders 1 to n. "The count shall
// walk the recorders a single time, from 8 down to 1, and gather the set's votes and the hall's votes on that walk" (02, A6):
// each turn reads one recorder's votes, once.
pub fn margin(row: &[u32; 8], n: u32, set: u32) -> i32
    requires { (n ≤ 8) × ((k : ℕ) → row_of row.now k ≤ max_vote) }
    ensures { result ≡ margin (row_of row.now) n (in_mask set) }
{
    let mut of_set = 0;
    let mut of_hall = 0;
    for k in (1..=8).rev() {
        let v = vote(row, n, k);
        let s = share(in_mask(set, k), v);
        of_set += s;
        of_hall += v;
    }
    (2 * of_set) as i32 - of_hall as i32
}

// "Recorder 1 has 2 votes, recorders 2 to 8 have 1 each", and none above n: recorder k's.
fn built_in(n: u32, k: u32) -> u32
    ensures { result ≡ counted built_in n k }
{
    if n < k {
        return 0;
    }
    if k == 1 { 2 } else { 1 }
}

// The built-in row of n recorders.
pub fn built_in_row(n: u32) -> [u32; 8]
    ensures { result ≡ built_in_row n }
{
    [1, 2, 3, 4, 5, 6, 7, 8].map(|k| built_in(n, k))
}

// Is each vote of a row at most 1,000?
fn is_small(row: &[u32; 8]) -> bool
    ensures { result ≡ small_row row.now }
{
    row.iter().all(|v| *v <= MAX_VOTE)
}

// Is each vote past the first n recorders' 0?
fn none_above(row: &[u32; 8], n: usize) -> bool
    ensures { result ≡ no_votes (drop n row.now) }
{
    row.iter().skip(n).all(|v| *v == 0)
}

// 41: "a vote above 1,000, a vote other than 0 for a recorder above N, or a row whose votes are all 0" (02, A4).
pub fn wrong_row(n: u32, row: [u32; 8]) -> bool
    ensures { result ≡ wrong_row n row }
{
    !(is_small(&row) & none_above(&row, n as usize)) | none_above(&row, 0)
}
