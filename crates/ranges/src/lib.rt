// Is each field of a hall's bytes in its range? 31 of document 01, "A hall's fields"; the cross rules are in validity.
// Four bytes are always a view number or 0 for none (02, A2), so of numbers only those of formed views are tested.
// The tests of a cell are gathered by `&`: all are made, with no branch. These functions are for the crates of this
// repository: a `requires` is met by each caller's proof.

#![tactic(auto)]

ghost use Rattle.std.specs.Prelude.{◌≡◌, ℕ, Bool, List, IsTrue, ◌+◌, ◌-◌, ◌*◌, ◌≤◌, ◌<◌, length, get_or, take};
ghost use Rattle.codec.specs.Bytes.{part};
ghost use Rattle.codec.specs.Number.{byte, mark};
ghost use Rattle.codec.specs.Cells.{cells};
ghost use Rattle.codec.specs.Bounded.{bounded};
ghost use Rattle.codec.specs.Table.{flags};
ghost use Rattle.base.specs.Lists.{rising};
ghost use Rattle.model.specs.Hall.{max_views, max_recorders};
ghost use Rattle.store.specs.Layout.{views_at, view_cells, entries_at, recorders_at, network_at, queues_at, votes_at};
ghost use Rattle.store.specs.Layout.{stored_length, views_size, entries_size, recorders_size, network_size, queues_size, votes_size};
ghost use Rattle.store.specs.Layout.{view_size, entry_size, recorder_size, recorder_confirm_at, endpoint_size, row_size, summary_size};
ghost use Rattle.store.specs.Layout.{queue_size, number_size, word_size, sent_size, queued_size};
ghost use Rattle.store.specs.CellForms.{entry_form, summary_form, sent_form, recorder_form};
ghost use Rattle.store.specs.CellForms.{endpoint_form, queued_form, queue_form, vote_form};
ghost use Rattle.store.specs.ViewForm.{view_form, views_form};
ghost use Rattle.store.specs.HallForm.{entries_form, hall_fields};
ghost use Rattle.ranges.specs.Tests.{tested, Tests};
ghost use Rattle.ranges.specs.CellParts.{whole_label, recorder_rest};
ghost use Rattle.ranges.specs.TableParts.{view_numbers, view_at, Found, tables_in};

use model::limits;
use model::phases::Phase;
use quorum::{MAX_VOTE, all_of};
use store::layout;

// The limits as bytes; a mark runs to one past the end of its list.
const ENTRIES: u8 = limits::MAX_ENTRIES as u8;

const RECORDERS: u8 = limits::MAX_RECORDERS as u8;

const SEQUENCE: u8 = limits::MAX_SEQUENCE as u8;

const SEQUENCE_MARK: u8 = SEQUENCE + 1;

const ORDER_MARK: u8 = limits::MAX_ORDER as u8 + 1;

const QUEUE_MARK: u8 = limits::MAX_QUEUE as u8 + 1;

// "phase (0, 1, 2 as listed)"
const FIRST_PHASE: u8 = Phase::Normal as u8;

const LAST_PHASE: u8 = Phase::Collect as u8;

// A table of cells: the offset at which it begins, the size of a cell, and how many places it has.
#[derive(Clone, Copy)]
struct Table {
    at: usize,
    size: usize,
    places: usize,
}

impl Table {
    // Are its first m cells valid, by a test at a cell's offset, and do zeros follow in its other places?
    fn valid_cells<F: Fn(usize) -> bool>(self, b: &[u8], m: usize, valid: F) -> bool
        requires within { (m ≤ self.places) × (self.at + self.places * self.size ≤ length b.now) }
        requires tested { (i : ℕ) → i < m → F.pre valid (self.at + i * self.size) }
        ensures { (test : List ℕ → Bool) → Tests (F.post valid) test self.at self.size b.now
            → result ≡ (cells (tested self.size test) m self.places
            ).valid (part self.at (self.places * self.size) b.now) }
    {
        (0..m).all(|i| valid(self.at + i * self.size))
            && codec::is_zero(
                b,
                self.at + m * self.size,
                self.at + self.places * self.size,
            )
    }

    // Where a table begins with a byte that says how many cells are in use: is it no more than its places, and are
    // the cells that follow valid?
    fn valid_counted<F: Fn(usize) -> bool>(self, b: &[u8], valid: F) -> bool
        requires within { self.at + (1 + self.places * self.size) ≤ length b.now }
        requires tested { (i : ℕ) → i < self.places → F.pre valid (self.at + 1 + i * self.size) }
        ensures count { IsTrue result → get_or b.now self.at 0 ≤ self.places }
        ensures value { (test : List ℕ → Bool) → Tests (F.post valid) test (self.at + 1) self.size b.now
            → result ≡ (bounded (tested self.size test) self.places
            ).valid (part self.at (1 + self.places * self.size) b.now) }
    {
        let m = b[self.at] as usize;
        let cells = Table {
            at: self.at + 1,
            ..self
        };
        m <= self.places && cells.valid_cells(b, m, valid)
    }
}

// Is the byte at an offset in lo .. hi?
fn valid_byte(b: &[u8], at: usize, lo: u8, hi: u8) -> bool
    requires { at < length b.now }
    ensures { result ≡ (byte lo hi).valid (part at 1 b.now) }
{
    let x = b[at];
    (lo <= x) & (x <= hi)
}

// Is the byte at an offset a mark of 1 .. hi, stored less 1?
fn valid_mark(b: &[u8], at: usize, hi: u8) -> bool
    requires { at < length b.now }
    ensures { result ≡ (mark hi).valid (part at 1 b.now) }
{
    b[at] < hi
}

// Are the n bytes at an offset flags, 0 or 1?
fn valid_flags(b: &[u8], at: usize, n: usize) -> bool
    requires { at + n ≤ length b.now }
    ensures { result ≡ (flags n).valid (part at (n * 1) b.now) }
{
    codec::all_in(b, at, at + n, 0, 1)
}

// Has a label both a view number and a sequence number, or neither?
fn whole_label(view: u32, seq: u8) -> bool
    ensures { result ≡ whole_label view seq }
{
    if view == 0 { seq == 0 } else { seq != 0 }
}

// An entry of a hall of n recorders: "sender, 32-bit value, and a label or none".
fn valid_entry(b: &[u8], at: usize, n: u8) -> bool
    requires { at + entry_size ≤ length b.now }
    ensures { result ≡ (entry_form n).valid (part at entry_size b.now) }
{
    let view = at + layout::ENTRY_LABEL;
    let seq = at + layout::ENTRY_SEQUENCE;
    valid_byte(b, at, 1, n)
        & valid_byte(b, seq, 0, SEQUENCE)
        & whole_label(codec::get_u32(b, view), b[seq])
}

// "A summary is known entries, order, confirm mark, highest primary."
fn valid_summary(b: &[u8], at: usize) -> bool
    requires { at + summary_size ≤ length b.now }
    ensures { result ≡ summary_form.valid (part at summary_size b.now) }
{
    valid_flags(b, at, limits::MAX_ENTRIES)
        & codec::valid_list(b, at + layout::SUMMARY_ORDER, limits::MAX_ORDER, 1, ENTRIES)
        & valid_mark(b, at + layout::SUMMARY_CONFIRM, ORDER_MARK)
}

// "At most one sent summary": a count, and the summary or zeros.
// By cases for speed: as a counted table of one place, a hall of 32 views takes a fifth longer to check.
fn valid_sent(b: &[u8], at: usize) -> bool
    requires { at + sent_size ≤ length b.now }
    ensures { result ≡ sent_form.valid (part at sent_size b.now) }
{
    match b[at] {
        0 => codec::is_zero(b, at + 1, at + layout::SENT),
        1 => valid_summary(b, at + 1),
        _ => false,
    }
}

// A recorder's fields after its order: marks, highest primary, known, safe, heard, safe sources.
fn valid_recorder_rest(b: &[u8], at: usize) -> bool
    requires { at + recorder_size ≤ length b.now }
    ensures { result ≡ recorder_rest (at + recorder_confirm_at) b.now }
{
    valid_mark(b, at + layout::RECORDER_CONFIRM, ORDER_MARK)
        & valid_mark(b, at + layout::RECORDER_REPORT, ORDER_MARK)
        & valid_flags(b, at + layout::RECORDER_KNOWN, limits::MAX_ENTRIES)
        & valid_flags(b, at + layout::RECORDER_SAFE, limits::MAX_ENTRIES)
        & valid_flags(b, at + layout::RECORDER_HEARD, limits::MAX_RECORDERS)
        & valid_flags(b, at + layout::RECORDER_SAFE_SOURCES, limits::MAX_RECORDERS)
}

// "For each recorder: current view, phase, known entries, .."
fn valid_recorder(b: &[u8], at: usize) -> bool
    requires { at + recorder_size ≤ length b.now }
    ensures { result ≡ recorder_form.valid (part at recorder_size b.now) }
{
    valid_byte(b, at + layout::RECORDER_PHASE, FIRST_PHASE, LAST_PHASE)
        & valid_mark(b, at + layout::RECORDER_SEQUENCE, SEQUENCE_MARK)
        & codec::valid_list(
            b,
            at + layout::RECORDER_BUFFER,
            limits::MAX_BUFFER,
            1,
            ENTRIES,
        )
        & codec::valid_list(
            b,
            at + layout::RECORDER_ORDER,
            limits::MAX_ORDER,
            1,
            ENTRIES,
        )
        & valid_recorder_rest(b, at)
}

// "For each recorder and view: a pending list, receive and safe marks, and at most one sent summary."
fn valid_endpoint(b: &[u8], at: usize) -> bool
    requires { at + endpoint_size ≤ length b.now }
    ensures { result ≡ endpoint_form.valid (part at endpoint_size b.now) }
{
    codec::valid_list(b, at, limits::MAX_PENDING, 0, ENTRIES)
        & valid_mark(b, at + layout::ENDPOINT_NEXT, QUEUE_MARK)
        & valid_mark(b, at + layout::ENDPOINT_NEXT_SAFE, QUEUE_MARK)
        & valid_sent(b, at + layout::ENDPOINT_SENT)
}

// A queued message "with its source".
fn valid_queued(b: &[u8], at: usize) -> bool
    requires { at + queued_size ≤ length b.now }
    ensures { result ≡ queued_form.valid (part at queued_size b.now) }
{
    valid_byte(b, at, 1, RECORDERS) & valid_byte(b, at + layout::QUEUED_MESSAGE, 0, ENTRIES)
}

// "A view's queue holds at most 72 messages, each with its source."
fn valid_queue(b: &[u8], at: usize) -> bool
    requires { at + queue_size ≤ length b.now }
    ensures { result ≡ queue_form.valid (part at queue_size b.now) }
{
    let messages = Table {
        at,
        size: layout::QUEUED,
        places: limits::MAX_QUEUE,
    };
    messages.valid_counted(b, |cell| valid_queued(b, cell))
}

// "Entries, at most 64 ever submitted."
fn valid_entries(b: &[u8], n: u8) -> bool
    requires { recorders_at ≤ length b.now }
    ensures { result ≡ (entries_form n).valid (part entries_at entries_size b.now) }
{
    let entries = Table {
        at: layout::ENTRY_COUNT,
        size: layout::ENTRY,
        places: limits::MAX_ENTRIES,
    };
    entries.valid_counted(b, |cell| valid_entry(b, cell, n))
}

// The n recorders, and zeros.
fn valid_recorders(b: &[u8], n: usize) -> bool
    requires { (n ≤ max_recorders) × (network_at ≤ length b.now) }
    ensures { result ≡ (cells recorder_form n max_recorders).valid (part recorders_at recorders_size b.now) }
{
    let recorders = Table {
        at: layout::RECORDERS,
        size: layout::RECORDER,
        places: limits::MAX_RECORDERS,
    };
    recorders.valid_cells(b, n, |cell| valid_recorder(b, cell))
}

// A recorder's endpoints in m views, and zeros.
fn valid_row(b: &[u8], at: usize, m: usize) -> bool
    requires { (m ≤ max_views) × (at + row_size ≤ length b.now) }
    ensures { result ≡ (cells endpoint_form m max_views).valid (part at row_size b.now) }
{
    let endpoints = Table {
        at,
        size: layout::ENDPOINT,
        places: limits::MAX_VIEWS,
    };
    endpoints.valid_cells(b, m, |cell| valid_endpoint(b, cell))
}

// The endpoints of n recorders in m views, and zeros.
fn valid_network(b: &[u8], n: usize, m: usize) -> bool
    requires { (n ≤ max_recorders) × (m ≤ max_views) × (queues_at ≤ length b.now) }
    ensures { result ≡ (cells (cells endpoint_form m max_views) n max_recorders
        ).valid (part network_at network_size b.now) }
{
    let rows = Table {
        at: layout::NETWORK,
        size: layout::ROW,
        places: limits::MAX_RECORDERS,
    };
    rows.valid_cells(b, n, |cell| valid_row(b, cell, m))
}

// The queues of m views, and zeros.
fn valid_queues(b: &[u8], m: usize) -> bool
    requires { (m ≤ max_views) × (votes_at ≤ length b.now) }
    ensures { result ≡ (cells queue_form m max_views).valid (part queues_at queues_size b.now) }
{
    let queues = Table {
        at: layout::QUEUES,
        size: layout::QUEUE,
        places: limits::MAX_VIEWS,
    };
    queues.valid_cells(b, m, |cell| valid_queue(b, cell))
}

// A recorder's votes: "0 to 1,000 each" (02, A4).
fn valid_vote(b: &[u8], at: usize) -> bool
    requires { at + word_size ≤ length b.now }
    ensures { result ≡ vote_form.valid (part at word_size b.now) }
{
    codec::get_u32(b, at) <= MAX_VOTE
}

// The votes of n recorders, and zeros.
fn valid_votes(b: &[u8], n: usize) -> bool
    requires { (n ≤ max_recorders) × (stored_length ≤ length b.now) }
    ensures { result ≡ (cells vote_form n max_recorders).valid (part votes_at votes_size b.now) }
{
    let votes = Table {
        at: layout::VOTES,
        size: layout::WORD,
        places: limits::MAX_RECORDERS,
    };
    votes.valid_cells(b, n, |cell| valid_vote(b, cell))
}

// A view's number, 1 on, and set, "not empty and within N".
fn valid_view(b: &[u8], at: usize, n: u8) -> bool
    requires { (1 ≤ n) × (n ≤ max_recorders) × (at + view_size ≤ length b.now) }
    ensures { result ≡ (view_form n).valid (part at view_size b.now) }
{
    let g = codec::get_u32(b, at);
    (1 <= g) & valid_byte(b, at + layout::VIEW_SET, 1, all_of(n as u32) as u8)
}

// The number of the view at index i.
fn view_number(b: &[u8], i: usize) -> u32
    requires { view_cells + i * view_size + number_size ≤ length b.now }
    ensures { result ≡ view_at b.now i }
{
    codec::get_u32(b, layout::VIEWS + i * layout::VIEW)
}

// "Numbers rising."
fn views_rise(b: &[u8], m: usize) -> bool
    requires { (m ≤ max_views) × (entries_at ≤ length b.now) }
    ensures { result ≡ rising 0 (view_numbers m view_cells b.now) }
{
    let mut last = 0;
    for i in 0..m {
        let g = view_number(b, i);
        if g <= last {
            return false;
        }
        last = g;
    }
    true
}

// The index of view g among the m formed views, m if it is not formed.
pub fn find_view(b: &[u8], m: usize, g: u32) -> usize
    requires { (m ≤ max_views) × (entries_at ≤ length b.now) }
    ensures { Found m b.now g result }
{
    (0..m).position(|i| view_number(b, i) == g).unwrap_or(m)
}

// "The formed views, at most 32, numbers rising, sets not empty and within N."
fn valid_views(b: &[u8], n: u8) -> bool
    requires { (1 ≤ n) × (n ≤ max_recorders) × (entries_at ≤ length b.now) }
    ensures { result ≡ (views_form n).valid (part views_at views_size b.now) }
{
    let views = Table {
        at: layout::VIEW_COUNT,
        size: layout::VIEW,
        places: limits::MAX_VIEWS,
    };
    views.valid_counted(b, |cell| valid_view(b, cell, n))
        && views_rise(b, b[layout::VIEW_COUNT] as usize)
}

// The entries, recorders, endpoints, queues and votes of n recorders and m views.
fn valid_tables(b: &[u8], n: u8, m: usize) -> bool
    requires { (n ≤ max_recorders) × (m ≤ max_views) × (stored_length ≤ length b.now) }
    ensures { result ≡ tables_in n m b.now }
{
    let k = n as usize;
    valid_entries(b, n)
        & valid_recorders(b, k)
        & valid_network(b, k, m)
        & valid_queues(b, m)
        & valid_votes(b, k)
}

// Is each field in its range, in the first bytes of a slice?
pub fn in_range(b: &[u8]) -> bool
    requires { stored_length ≤ length b.now }
    ensures { result ≡ hall_fields.valid (take stored_length b.now) }
{
    if !valid_byte(b, 0, 1, RECORDERS) {
        return false;
    }
    let n = b[0];
    if !valid_views(b, n) {
        return false;
    }
    valid_tables(b, n, b[layout::VIEW_COUNT] as usize)
}
