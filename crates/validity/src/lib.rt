// Is a byte slice the stored form of a hall? Each field in its range (crate ranges), and the cross rules. The tests are
// gathered by `&` and `|`: all are made, with no branch.

#![tactic(auto)]

ghost use Rattle.std.specs.Prelude.{◌≡◌, not, ◌&&◌, ◌||◌, ◌+◌, ◌-◌, ◌*◌, ◌≤◌, ◌<◌, eqb, length, slice_index};
ghost use Rattle.codec.specs.ByteList.{list_at};
ghost use Rattle.base.specs.Lists.{has, all};
ghost use Rattle.quorum.specs.Sets.{members};
ghost use Rattle.base.specs.Numbers.{up_to};
ghost use Rattle.model.specs.Hall.{max_entries, max_views, max_recorders, max_queue};
ghost use Rattle.store.specs.Valid.{some_votes, recorder_cross, endpoint_cross, cross_rules};
ghost use Rattle.store.specs.StoredForm.{is_stored};
ghost use Rattle.store.specs.Layout.{queues_at, queue_size, queued_size, view_cells, entries_at, stored_length};
ghost use Rattle.ranges.specs.TableParts.{view_numbers, view_at};
ghost use Rattle.validity.specs.Marks.{messages_from, message_marked, sent_at, set_ok, source_ok, heard_ok};
ghost use Rattle.validity.specs.RawHall.{Ranged, raw, size_at, view_count, entry_count, set_at};
ghost use Rattle.validity.specs.CrossParts.{Labels, Labelled};
ghost use Rattle.validity.specs.CrossParts.{apart, key_of, Keys, key_alone};
ghost use Rattle.validity.specs.CrossParts.{queued_ok, summary_ok, queue_cross, view_cross};

use model::limits;
use quorum::in_mask;
use store::layout;

// How many values a byte has.
const BYTES: usize = 256;

// How many places the table `unnamed` has: one for each byte as a message of a source that did not send its summary,
// and one for each as a message of a source that did. It has 0 for a labelled entry and a sent summary, else 1.
const MESSAGES: usize = 2 * BYTES;

// Where the messages of a source begin in the table: those of one that did not send its summary come first.
fn messages_from(sent: bool) -> usize
    ensures { result ≡ messages_from sent }
{
    if sent { BYTES } else { 0 }
}

// Is a message a labelled entry, or the summary of a source that sent it?
fn names_message(unnamed: &[u8; MESSAGES], sent: bool, x: u8) -> bool
    ensures { result ≡ message_marked unnamed.now sent x }
{
    unnamed[messages_from(sent) + x as usize] == 0
}

// Does each byte of a list name a labelled entry, or a summary that was sent?
fn names_all(b: &[u8], at: usize, unnamed: &[u8; MESSAGES], sent: bool) -> bool
    requires { at + 256 ≤ length b.now }
    ensures { result ≡ all (message_marked unnamed.now sent) (list_at b.now at) }
{
    let from = at + 1;
    let end = from + b[at] as usize;
    let start = messages_from(sent);
    b[from..end]
        .iter()
        .fold(0u8, |any, x| any | unnamed[start + usize::from(*x)])
        == 0
}

// Are the entries of the set of flags at an offset labelled?
fn names_set(b: &[u8], at: usize, unnamed: &[u8; MESSAGES]) -> bool
    requires { at + max_entries ≤ length b.now }
    ensures { result ≡ all (set_ok unnamed.now b.now at) (up_to max_entries) }
{
    (0..limits::MAX_ENTRIES).fold(
        0u8,
        |any, j| any | u8::from((1 == b[at + j]) & (unnamed[j + 1] != 0)),
    ) == 0
}

// Is k, of recorders 1 to n, in a set?
fn is_member(n: u8, set: u8, k: usize) -> bool
    requires { n ≤ max_recorders }
    ensures { result ≡ has (members n set) k }
{
    (1 <= k) & (k <= n as usize) && in_mask(set as u32, k as u32)
}

// Did recorder p send its summary in the view at index i?
fn is_sent(b: &[u8], p: usize, i: usize) -> bool
    requires { (1 ≤ p) × (p ≤ max_recorders) × (i ≤ max_views) × (stored_length ≤ length b.now) }
    ensures { result ≡ sent_at b.now p i }
{
    1 == b[layout::NETWORK + (p - 1) * layout::ROW + i * layout::ENDPOINT + layout::ENDPOINT_SENT]
}

// If source q is heard, is it a member and was its summary sent?
fn heard_one(b: &[u8], at: usize, set: u8, i: usize, q: usize) -> bool
    requires ranged { Ranged b.now × ((1 ≤ q) × (q ≤ max_recorders) × (i ≤ max_views)) }
    requires max_recorders_in_bounds { at + max_recorders ≤ length b.now }
    ensures { result ≡ heard_ok b.now at set i q }
{
    1 != b[at + (q - 1)] || is_member(b[0], set, q) & is_sent(b, q, i)
}

// "A source is marked heard only if its summary in the hearer's current view was sent."
fn heard_all(b: &[u8], at: usize, set: u8, i: usize) -> bool
    requires { Ranged b.now × ((i ≤ max_views) × (at + max_recorders ≤ length b.now)) }
    ensures { result ≡ all (heard_ok b.now at set i) (up_to max_recorders) }
{
    (1..=limits::MAX_RECORDERS).all(|q| heard_one(b, at, set, i, q))
}

// If source q is safe, is it a member?
fn source_one(b: &[u8], at: usize, set: u8, q: usize) -> bool
    requires { Ranged b.now × ((1 ≤ q) × (q ≤ max_recorders) × (at + max_recorders ≤ length b.now)) }
    ensures { result ≡ source_ok b.now at set q }
{
    1 != b[at + (q - 1)] || is_member(b[0], set, q)
}

// "Sources heard or safe are those of members of the view."
fn source_all(b: &[u8], at: usize, set: u8) -> bool
    requires { Ranged b.now × (at + max_recorders ≤ length b.now) }
    ensures { result ≡ all (source_ok b.now at set) (up_to max_recorders) }
{
    (1..=limits::MAX_RECORDERS).all(|q| source_one(b, at, set, q))
}

// The set of the view at an index, none past the last.
fn view_set(b: &[u8], i: usize) -> u8
    requires { (i ≤ max_views) × (view_count b.now ≤ max_views) × (entries_at ≤ length b.now) }
    ensures { result ≡ set_at b.now i }
{
    let m = b[layout::VIEW_COUNT] as usize;
    if i < m {
        b[layout::VIEWS + i * layout::VIEW + layout::VIEW_SET]
    } else {
        0
    }
}

// The table of the messages that are not named.
fn unnamed_of(b: &[u8]) -> [u8; MESSAGES]
    requires { Ranged b.now }
    ensures { Labels (raw b.now).entries result }
{
    let m = b[layout::ENTRY_COUNT] as usize;
    let mut unnamed = [1u8; MESSAGES];
    unnamed[BYTES] = 0;
    for i in 0..m {
        let sequence = b[layout::ENTRIES + i * layout::ENTRY + layout::ENTRY_SEQUENCE];
        let x = codec::flag_byte(sequence == 0);
        let e = i + 1;
        unnamed[e] = x;
        unnamed[BYTES + e] = x;
    }
    unnamed
}

// A label as one number: its view, its sequence number and its sender. Without a label (sequence number 0), i, which no
// label has.
fn label_key(view: u32, sequence: u8, sender: u8, i: usize) -> u64
    ensures { result ≡ key_of view sequence sender i }
{
    if sequence == 0 {
        i as u64
    } else {
        (view as u64 * 256 + sequence as u64) * 256 + sender as u64
    }
}

// The keys of the m entries: two are the same just if the entries share a label.
fn keys_of(b: &[u8], m: usize) -> [u64; limits::MAX_ENTRIES]
    requires { Ranged b.now × (m ≡ entry_count b.now) }
    ensures { Keys b.now m result }
{
    let mut keys = [0u64; limits::MAX_ENTRIES];
    for i in 0..m {
        let at = layout::ENTRIES + i * layout::ENTRY;
        let view = codec::get_u32(b, at + layout::ENTRY_LABEL);
        keys[i] = label_key(view, b[at + layout::ENTRY_SEQUENCE], b[at], i);
    }
    keys
}

// Does the entry at index i have a key that none before it has?
fn key_alone(keys: &[u64; limits::MAX_ENTRIES], i: usize) -> bool
    requires { i < max_entries }
    ensures { result ≡ key_alone keys.now i }
{
    let key = keys[i];
    keys[..i]
        .iter()
        .fold(0u64, |any, x| any | u64::from(*x == key))
        == 0
}

// "No two entries share one."
fn labels_alone(b: &[u8], m: usize) -> bool
    requires { Ranged b.now × (m ≡ entry_count b.now) }
    ensures { result ≡ all (λ d. all (apart (raw b.now).entries d) (up_to m)) (up_to m) }
{
    let keys = keys_of(b, m);
    (0..m).all(|j| key_alone(&keys, j))
}

// Is the queued message at an offset a member's, and does it name a labelled entry or a sent summary?
fn names_queued(b: &[u8], i: usize, at: usize, unnamed: &[u8; MESSAGES]) -> bool
    requires { Ranged b.now × ((i < view_count b.now) × (at + queued_size ≤ length b.now)) }
    ensures { result ≡ queued_ok unnamed.now b.now i at }
{
    let source = b[at] as usize;
    is_member(b[0], view_set(b, i), source)
        && names_message(
            unnamed,
            is_sent(b, source, i),
            b[at + layout::QUEUED_MESSAGE],
        )
}

// How many messages the queue of the view at index i has.
fn queue_count(b: &[u8], i: usize) -> usize
    requires { Ranged b.now × (i < view_count b.now) }
    ensures count { result ≡ slice_index b.now (queues_at + i * queue_size) }
    ensures most { result ≤ max_queue }
{
    b[layout::QUEUES + i * layout::QUEUE] as usize
}

// Are the queued messages of the view at index i those of members, naming labelled entries and sent summaries?
fn names_queue(b: &[u8], i: usize, unnamed: &[u8; MESSAGES]) -> bool
    requires { Labelled b.now unnamed.now × (i < view_count b.now) }
    ensures { result ≡ queue_cross (raw b.now) (view_at b.now i) }
{
    let from = layout::QUEUES + i * layout::QUEUE + 1;
    (0..queue_count(b, i)).all(|j| names_queued(b, i, from + j * layout::QUEUED, unnamed))
}

// Does the summary of the endpoint at an offset, if it was sent, name labelled entries?
fn names_summary(b: &[u8], at: usize, unnamed: &[u8; MESSAGES]) -> bool
    requires { at + 512 ≤ length b.now }
    ensures { result ≡ summary_ok unnamed.now b.now at }
{
    if 1 == b[at + layout::ENDPOINT_SENT] {
        let known = at + layout::ENDPOINT_SUMMARY;
        names_set(b, known, unnamed) & names_all(b, known + layout::SUMMARY_ORDER, unnamed, false)
    } else {
        true
    }
}

// "Pending and queued messages, summaries .. are those of members of the view": recorder p in the view at index i.
fn endpoint_cross(b: &[u8], i: usize, unnamed: &[u8; MESSAGES], p: usize) -> bool
    requires { Labelled b.now unnamed.now × (i < view_count b.now) × ((1 ≤ p) × (p ≤ size_at b.now)) }
    ensures { result ≡ endpoint_cross (raw b.now) (view_at b.now i) p }
{
    let at = layout::NETWORK + (p - 1) * layout::ROW + i * layout::ENDPOINT;
    let sent = is_sent(b, p, i);
    if is_member(b[0], view_set(b, i), p) {
        names_all(b, at, unnamed, sent) & names_summary(b, at, unnamed)
    } else {
        (b[at] == 0) & !sent
    }
}

// The same for recorders 1 to n.
fn endpoints_cross(b: &[u8], i: usize, unnamed: &[u8; MESSAGES], n: usize) -> bool
    requires { Labelled b.now unnamed.now × (i < view_count b.now) × (n ≡ size_at b.now) }
    ensures { result ≡ all (endpoint_cross (raw b.now) (view_at b.now i)) (up_to n) }
{
    (1..=n).all(|p| endpoint_cross(b, i, unnamed, p))
}

// The rules of the view at index i.
fn view_cross(b: &[u8], unnamed: &[u8; MESSAGES], i: usize) -> bool
    requires { Labelled b.now unnamed.now × (i < view_count b.now) }
    ensures { result ≡ view_cross (raw b.now) (view_at b.now i) }
{
    let n = b[0] as usize;
    names_queue(b, i, unnamed) & endpoints_cross(b, i, unnamed, n)
}

// The rules of the m views.
fn views_cross(b: &[u8], unnamed: &[u8; MESSAGES], m: usize) -> bool
    requires { Labelled b.now unnamed.now × (m ≡ view_count b.now) }
    ensures { result ≡ all (view_cross (raw b.now)) (view_numbers m view_cells b.now) }
{
    (0..m).all(|i| view_cross(b, unnamed, i))
}

// "Current view (0, or a formed view that has it)."
fn in_view(n: u8, set: u8, g: u32, r: usize) -> bool
    requires { n ≤ max_recorders }
    ensures { result ≡ (eqb g 0 || has (members n set) r) }
{
    g == 0 || is_member(n, set, r)
}

// "Every list or set names only labelled entries", and heard and safe sources: recorder r.
fn recorder_cross(b: &[u8], unnamed: &[u8; MESSAGES], r: usize) -> bool
    requires { Labelled b.now unnamed.now × ((1 ≤ r) × (r ≤ size_at b.now)) }
    ensures { result ≡ recorder_cross (raw b.now) r }
{
    let at = layout::RECORDERS + (r - 1) * layout::RECORDER;
    let g = codec::get_u32(b, at);
    let i = ranges::find_view(b, b[layout::VIEW_COUNT] as usize, g);
    let set = view_set(b, i);
    in_view(b[0], set, g, r)
        & names_set(b, at + layout::RECORDER_KNOWN, unnamed)
        & names_all(b, at + layout::RECORDER_BUFFER, unnamed, false)
        & names_all(b, at + layout::RECORDER_ORDER, unnamed, false)
        & names_set(b, at + layout::RECORDER_SAFE, unnamed)
        & heard_all(b, at + layout::RECORDER_HEARD, set, i)
        & source_all(b, at + layout::RECORDER_SAFE_SOURCES, set)
}

// The same for recorders 1 to n.
fn recorders_cross(b: &[u8], unnamed: &[u8; MESSAGES], n: usize) -> bool
    requires { Labelled b.now unnamed.now × (n ≡ size_at b.now) }
    ensures { result ≡ all (recorder_cross (raw b.now)) (up_to n) }
{
    (1..=n).all(|r| recorder_cross(b, unnamed, r))
}

// Not "a row whose votes are all 0" (02, A4): a byte of the votes is not 0.
fn has_votes(b: &[u8]) -> bool
    requires { Ranged b.now }
    ensures { result ≡ some_votes (raw b.now) }
{
    !codec::is_zero(b, layout::VOTES, layout::LENGTH)
}

// All cross rules, of bytes with each field in its range.
fn cross_rules(b: &[u8]) -> bool
    requires { Ranged b.now }
    ensures { result ≡ cross_rules (raw b.now) }
{
    let unnamed = unnamed_of(b);
    let n = b[0] as usize;
    let m = b[layout::VIEW_COUNT] as usize;
    let count = b[layout::ENTRY_COUNT] as usize;
    has_votes(b)
        & labels_alone(b, count)
        & recorders_cross(b, &unnamed, n)
        & views_cross(b, &unnamed, m)
}

// Are the first bytes of a slice a hall's stored form? (31.) Only these are read, and a shorter slice is none.
pub fn is_hall(b: &[u8]) -> bool
    ensures { result ≡ is_stored b.now }
{
    if b.len() < layout::LENGTH {
        return false;
    }
    ranges::in_range(b) && cross_rules(b)
}
