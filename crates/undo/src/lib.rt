// The undo buffer (02, A7; docs/undo-buffer.md): up to 16 slots, oldest first, each an accepted action's words and two parts of
// the hall's bytes as they were before it. Its check, a slot pushed, the newest one put back and popped.
// These functions are for the crates of this repository: a `requires` is met by each caller's proof.

#![tactic(auto)]

ghost use Rattle.std.specs.Prelude.{◌≡◌, true, ◌+◌, ◌*◌, ◌≤◌, ◌<◌, length};
ghost use Rattle.std.proofs.Math.Option.{some};
ghost use Rattle.std.proofs.lemmas.List.Edits.{sets};
ghost use Rattle.base.specs.Lists.{has};
ghost use Rattle.codec.specs.Bytes.{part};
ghost use Rattle.codec.specs.Cells.{cells};
ghost use Rattle.model.specs.Hall.{max_recorders, max_entries};
ghost use Rattle.model.specs.Call.{words_of};
ghost use Rattle.model.specs.KindNumbers.{kind_number};
ghost use Rattle.store.specs.Layout.{stored_length, recorder_size};
ghost use Rattle.store.specs.StoredForm.{hall_of, is_stored};
ghost use Rattle.hall.specs.Parts.{HasRecorder};
ghost use Rattle.undo.specs.Buffer.{Slot, part_size, words_size, slot_size, max_slots, undo_length};
ghost use Rattle.undo.specs.Buffer.{part_form, words_form, slot_form, is_undo, held_in, newest_of, pushed, popped, put_back};
ghost use Rattle.undo.specs.Parts.{place_at, both, recorder_place, endpoint_place, in_label, in_current, alone, in_queue, waiting_index};
ghost use Rattle.undo.specs.Parts.{parts, part_of, slot_of};
ghost use Rattle.undo.specs.Code.{place_in, places_in, action_of, Accepts, RoomMade, Holding, NewestAt, PartFits, part_back};

use client::first_waiting;
use codec::{clear, copy_bytes, get_u32, is_zero, move_down, put_byte, put_u32};
use hall::{endpoint_at, entry_count, find_view, read_recorder, recorder_at, view_count};
use model::kinds::Kind;
use store::layout;

// How many slots there are.
const SLOTS: usize = 16;

// A part: offset and length, then the bytes.
const PART_LENGTH: usize = layout::WORD;

const PART_BYTES: usize = PART_LENGTH + layout::WORD;

// A slot: the four words, then the two parts with room for a recorder and for an endpoint.
const FIRST: usize = 4 * layout::WORD;

const SECOND: usize = FIRST + PART_BYTES + layout::RECORDER;

const SLOT: usize = SECOND + PART_BYTES + layout::ENDPOINT;

// How long a buffer is: the number of slots held, and the slots.
pub const LENGTH: usize = 1 + SLOTS * SLOT;

// Is there a part with room for so many bytes at an offset? It lies within a hall, and zeros follow its bytes.
fn valid_part(u: &[u8], at: usize, room: usize) -> bool
    requires { (room ≤ recorder_size) × (at + part_size room ≤ length u.now) }
    ensures { result ≡ (part_form room).valid (part at (part_size room) u.now) }
{
    let offset = get_u32(u, at) as usize;
    let size = get_u32(u, at + PART_LENGTH) as usize;
    size <= room
        && offset + size <= layout::LENGTH
        && is_zero(u, at + PART_BYTES + size, at + PART_BYTES + room)
}

// Is there a slot at an offset? Its words may be any.
fn valid_slot(u: &[u8], at: usize) -> bool
    requires { at + slot_size ≤ length u.now }
    ensures { result ≡ slot_form.valid (part at slot_size u.now) }
{
    valid_part(u, at + FIRST, layout::RECORDER) & valid_part(u, at + SECOND, layout::ENDPOINT)
}

// The m slots held, and zeros.
fn valid_slots(u: &[u8], m: usize) -> bool
    requires { (m ≤ max_slots) × (undo_length ≤ length u.now) }
    ensures { result ≡ (cells slot_form m max_slots).valid (part 1 (max_slots * slot_size) u.now) }
{
    (0..m).all(|i| valid_slot(u, 1 + i * SLOT)) && is_zero(u, 1 + m * SLOT, LENGTH)
}

// Is the slice an undo buffer? The bytes are the caller's (docs/undo-buffer.md): this stands in contracts, not in a type.
pub fn is_undo(u: &[u8]) -> bool
    ensures { result ≡ is_undo u.now }
{
    if u.len() < LENGTH {
        return false;
    }
    let m = u[0] as usize;
    m <= SLOTS && valid_slots(u, m)
}

// How many slots are held.
pub fn count(u: &[u8]) -> usize
    requires { is_undo u.now ≡ true }
    ensures value { result ≡ length (held_in u.now) }
    ensures small { result ≤ max_slots }
{
    u[0] as usize
}

// Where a part of a hall's bytes stands, and how many bytes it has.
#[derive(Clone, Copy)]
struct Place {
    offset: usize,
    size: usize,
}

impl Place {
    // The cell at an index of a table: where the table's cells begin, and the size of each.
    fn cell(cells: usize, size: usize, i: usize) -> Place
        requires { cells + i * size ≤ stored_length }
        ensures { place_in result ≡ place_at (cells + i * size) size }
    {
        Place {
            offset: cells + i * size,
            size,
        }
    }

    // Recorder r.
    fn recorder(r: u32) -> Place
        requires { (1 ≤ r) × (r ≤ max_recorders) }
        ensures { place_in result ≡ recorder_place r }
    {
        Place {
            offset: recorder_at(r),
            size: layout::RECORDER,
        }
    }

    // Recorder r's place in view g.
    fn endpoint(b: &[u8], r: u32, g: u32) -> Place
        requires { HasRecorder b.now r × (has (hall_of b.now).service.created g ≡ true) }
        ensures { place_in result ≡ endpoint_place (hall_of b.now) r g }
    {
        Place {
            offset: endpoint_at(r, find_view(b, g)),
            size: layout::ENDPOINT,
        }
    }
}

// The two parts of a hall's bytes that an action writes.
#[derive(Clone, Copy)]
struct Parts {
    first: Place,
    second: Place,
}

// 1 and 5: the cell behind the n in use of a table of cells, and the byte where they are counted.
fn grown(cells: usize, size: usize, n: usize, counted: usize) -> Parts
    requires { cells + n * size ≤ stored_length }
    ensures { places_in result ≡ both (place_at (cells + n * size) size) (place_at counted 1) }
{
    Parts {
        first: Place::cell(cells, size, n),
        second: Place {
            offset: counted,
            size: 1,
        },
    }
}

// The index of the first entry that waits at recorder r, 0 if none does.
fn waiting_index(b: &[u8], r: u32) -> usize
    requires { is_stored b.now ≡ true }
    ensures value { result ≡ waiting_index (hall_of b.now) r }
    ensures small { result < max_entries }
{
    first_waiting(b, r).map_or(0, |e| e as usize - 1)
}

// 2: recorder r, and the cell of the first entry that waits there.
fn recorder_and_entry(b: &[u8], r: u32) -> Parts
    requires { HasRecorder b.now r }
    ensures { places_in result ≡ in_label (hall_of b.now) r }
{
    Parts {
        first: Place::recorder(r),
        second: Place::cell(layout::ENTRIES, layout::ENTRY, waiting_index(b, r)),
    }
}

// 3, 4, 8 and 9: recorder r, and its place in its current view.
fn recorder_and_endpoint(b: &[u8], r: u32) -> Parts
    requires { HasRecorder b.now r × ((hall_of b.now).service.current r ≡ 0 → ⊥) }
    ensures { places_in result ≡ in_current (hall_of b.now) r }
{
    Parts {
        first: Place::recorder(r),
        second: Place::endpoint(b, r, read_recorder(b, r).current),
    }
}

// 6, 10 and 11: recorder r alone.
fn recorder_alone(r: u32) -> Parts
    requires { (1 ≤ r) × (r ≤ max_recorders) }
    ensures { places_in result ≡ alone r }
{
    Parts {
        first: Place::recorder(r),
        second: Place { offset: 0, size: 0 },
    }
}

// 7: the queue of view a, and recorder r's place there.
fn queue_and_endpoint(b: &[u8], r: u32, a: u32) -> Parts
    requires { HasRecorder b.now r × (has (hall_of b.now).service.created a ≡ true) }
    ensures { places_in result ≡ in_queue (hall_of b.now) r a }
{
    Parts {
        first: Place::cell(layout::QUEUES, layout::QUEUE, find_view(b, a)),
        second: Place::endpoint(b, r, a),
    }
}

// The parts of an action that is accepted.
fn parts_of(b: &[u8], k: Kind, r: u32, a: u32, d: u32) -> Parts
    requires { Accepts b.now (words_of (kind_number k) r a d) }
    ensures { places_in result ≡ parts b.now (words_of (kind_number k) r a d) }
{
    match k {
        Kind::Submit => grown(
            layout::ENTRIES,
            layout::ENTRY,
            entry_count(b),
            layout::ENTRY_COUNT,
        ),
        Kind::Label => recorder_and_entry(b, r),
        Kind::SendEntry | Kind::SendSummary | Kind::Receive | Kind::Notice => recorder_and_endpoint(
            b, r,
        ),
        Kind::Form => grown(
            layout::VIEWS,
            layout::VIEW,
            view_count(b),
            layout::VIEW_COUNT,
        ),
        Kind::Enter | Kind::Confirm | Kind::Deliver => recorder_alone(r),
        Kind::Place => queue_and_endpoint(b, r, a),
    }
}

// Writes a part of a hall's bytes into a buffer at an offset, where it has room for so many bytes: its offset, its length, its
// bytes, and zeros.
fn put_part(u: &mut [u8], at: usize, room: usize, b: &[u8], p: Place)
    requires room_le_recorder_size { (room ≤ recorder_size) × (at + part_size room ≤ length u.old) }
    requires size_le_room { (p.size ≤ room) × (p.offset + p.size ≤ stored_length) × (stored_length ≤ length b.now) }
    ensures { u.new
        ≡ sets u.old at ((part_form room).encode (part_of b.now (place_in p))) }
{
    put_u32(u, at, p.offset as u32);
    put_u32(u, at + PART_LENGTH, p.size as u32);
    copy_bytes(u, at + PART_BYTES, b, p.offset, p.size);
    clear(u, at + PART_BYTES + p.size, at + PART_BYTES + room);
}

// Writes the words of an action at an offset.
fn put_words(u: &mut [u8], at: usize, k: Kind, r: u32, a: u32, b: u32)
    requires { at + words_size ≤ length u.old }
    ensures { u.new ≡ sets u.old at (words_form.encode (words_of (kind_number k) r a b)) }
{
    put_u32(u, at, u32::from(k));
    put_u32(u, at + layout::WORD, r);
    put_u32(u, at + 2 * layout::WORD, a);
    put_u32(u, at + 3 * layout::WORD, b);
}

// Writes the slot of an action that is accepted at an offset.
fn put_slot(u: &mut [u8], at: usize, b: &[u8], k: Kind, r: u32, a: u32, d: u32)
    requires { Accepts b.now (words_of (kind_number k) r a d) × (at + slot_size ≤ length u.old) }
    ensures { u.new ≡ sets u.old at (slot_form.encode (slot_of b.now (words_of (kind_number k) r a d))) }
{
    let p = parts_of(b, k, r, a, d);
    put_words(u, at, k, r, a, d);
    put_part(u, at + FIRST, layout::RECORDER, b, p.first);
    put_part(u, at + SECOND, layout::ENDPOINT, b, p.second);
}

// Makes room for one slot more, and says at which index: of 16 the oldest is pushed out.
fn make_room(u: &mut [u8]) -> usize
    requires { is_undo u.old ≡ true }
    ensures { RoomMade u.old result u.new }
{
    let n = count(u);
    if n < SLOTS {
        return n;
    }
    move_down(u, 1, 1 + SLOT, (SLOTS - 1) * SLOT);
    SLOTS - 1
}

// Holds an action that is accepted on the hall in b, before it is performed.
pub fn hold(u: &mut [u8], b: &[u8], k: Kind, r: u32, a: u32, d: u32)
    requires { (is_undo u.old ≡ true) × Accepts b.now (words_of (kind_number k) r a d) }
    ensures { u.new ≡ pushed u.old (slot_of b.now (words_of (kind_number k) r a d)) }
{
    let n = make_room(u);
    put_slot(u, 1 + n * SLOT, b, k, r, a, d);
    put_byte(u, 0, (n + 1) as u8);
}

// Where the newest slot stands.
fn newest_at(u: &[u8]) -> usize
    requires { Holding u.now }
    ensures { NewestAt u.now result }
{
    1 + (count(u) - 1) * SLOT
}

// An action's words.
#[derive(Clone, Copy)]
pub struct Action {
    pub k: u32,
    pub r: u32,
    pub a: u32,
    pub b: u32,
}

// The words of the newest slot.
pub fn newest_action(u: &[u8]) -> Action
    requires { Holding u.now }
    ensures { (s : Slot) → newest_of (held_in u.now) ≡ some s → action_of result ≡ s.words }
{
    let at = newest_at(u);
    Action {
        k: get_u32(u, at),
        r: get_u32(u, at + layout::WORD),
        a: get_u32(u, at + 2 * layout::WORD),
        b: get_u32(u, at + 3 * layout::WORD),
    }
}

// Puts the part at an offset of a buffer back into a hall's bytes.
fn put_part_back(b: &mut [u8], u: &[u8], at: usize)
    requires { PartFits u.now at b.old }
    ensures { b.new ≡ part_back u.now at b.old }
{
    let offset = get_u32(u, at) as usize;
    let size = get_u32(u, at + PART_LENGTH) as usize;
    copy_bytes(b, offset, u, at + PART_BYTES, size);
}

// Puts the two parts of the newest slot back into a hall's bytes.
pub fn put_back(b: &mut [u8], u: &[u8])
    requires { Holding u.now × (stored_length ≤ length b.old) }
    ensures { (s : Slot) → newest_of (held_in u.now) ≡ some s
        → b.new ≡ put_back b.old s }
{
    let at = newest_at(u);
    put_part_back(b, u, at + FIRST);
    put_part_back(b, u, at + SECOND);
}

// Drops the newest slot.
pub fn pop(u: &mut [u8])
    requires { Holding u.old }
    ensures { u.new ≡ popped u.old }
{
    let n = count(u) - 1;
    clear(u, 1 + n * SLOT, 1 + (n + 1) * SLOT);
    put_byte(u, 0, n as u8);
}
