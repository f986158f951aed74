// Where each part of a hall stands in its stored form, in bytes (specs/Layout, docs/stored-form.md): each offset comes from
// the one before it. Each table has a fixed number of cells of one size, so that cell i of it stands at the table's offset
// plus i times the size.
use model::limits::{
    MAX_BUFFER, MAX_ENTRIES, MAX_ORDER, MAX_PENDING, MAX_QUEUE, MAX_RECORDERS, MAX_VIEWS,
};

// A view number, a word.
pub const NUMBER: usize = 4;

pub const WORD: usize = 4;

// A formed view: number, set.
pub const VIEW_SET: usize = NUMBER;

pub const VIEW: usize = VIEW_SET + 1;

// An entry: sender, payload (its value), label view, label sequence number.
pub const PAYLOAD: usize = WORD;

pub const ENTRY_PAYLOAD: usize = 1;

pub const ENTRY_LABEL: usize = ENTRY_PAYLOAD + PAYLOAD;

pub const ENTRY_SEQUENCE: usize = ENTRY_LABEL + NUMBER;

pub const ENTRY: usize = ENTRY_SEQUENCE + 1;

// A list of entries: its length, and a byte for each place.
pub const BUFFER: usize = 1 + MAX_BUFFER;

pub const ORDER: usize = 1 + MAX_ORDER;

pub const PENDING: usize = 1 + MAX_PENDING;

// A recorder's sets: known, safe, heard, safe sources.
pub const SETS_SAFE: usize = MAX_ENTRIES;

pub const SETS_HEARD: usize = SETS_SAFE + MAX_ENTRIES;

pub const SETS_SAFE_SOURCES: usize = SETS_HEARD + MAX_RECORDERS;

pub const SETS: usize = SETS_SAFE_SOURCES + MAX_RECORDERS;

// A recorder: current view, phase, next sequence number, buffer, order, confirm mark, report mark, highest primary, its
// sets.
pub const RECORDER_PHASE: usize = NUMBER;

pub const RECORDER_SEQUENCE: usize = RECORDER_PHASE + 1;

pub const RECORDER_BUFFER: usize = RECORDER_SEQUENCE + 1;

pub const RECORDER_ORDER: usize = RECORDER_BUFFER + BUFFER;

pub const RECORDER_CONFIRM: usize = RECORDER_ORDER + ORDER;

pub const RECORDER_REPORT: usize = RECORDER_CONFIRM + 1;

pub const RECORDER_HIGH: usize = RECORDER_REPORT + 1;

pub const RECORDER_SETS: usize = RECORDER_HIGH + NUMBER;

pub const RECORDER_KNOWN: usize = RECORDER_SETS;

pub const RECORDER_SAFE: usize = RECORDER_SETS + SETS_SAFE;

pub const RECORDER_HEARD: usize = RECORDER_SETS + SETS_HEARD;

pub const RECORDER_SAFE_SOURCES: usize = RECORDER_SETS + SETS_SAFE_SOURCES;

pub const RECORDER: usize = RECORDER_SETS + SETS;

// A summary: known, order, confirm mark, highest primary.
pub const SUMMARY_ORDER: usize = MAX_ENTRIES;

pub const SUMMARY_CONFIRM: usize = SUMMARY_ORDER + ORDER;

pub const SUMMARY_HIGH: usize = SUMMARY_CONFIRM + 1;

pub const SUMMARY: usize = SUMMARY_HIGH + NUMBER;

// A place for a summary: sent or not, and the summary.
pub const SENT: usize = 1 + SUMMARY;

// A recorder's endpoint in a view: pending, receive mark, safe mark, sent, summary.
pub const ENDPOINT_NEXT: usize = PENDING;

pub const ENDPOINT_NEXT_SAFE: usize = ENDPOINT_NEXT + 1;

pub const ENDPOINT_SENT: usize = ENDPOINT_NEXT_SAFE + 1;

pub const ENDPOINT_SUMMARY: usize = ENDPOINT_SENT + 1;

pub const ENDPOINT: usize = ENDPOINT_SUMMARY + SUMMARY;

pub const ROW: usize = MAX_VIEWS * ENDPOINT;

// A queue: its length, and messages: source, message.
pub const QUEUED_MESSAGE: usize = 1;

pub const QUEUED: usize = QUEUED_MESSAGE + 1;

pub const MESSAGES: usize = MAX_QUEUE * QUEUED;

pub const QUEUE: usize = 1 + MESSAGES;

// The whole: N; the formed views, their count first; the entries, their count first; the recorders, recorder r in cell
// r - 1; the network, a row of endpoints for each recorder, by index among the formed views; the queues, by index likewise; the
// votes, recorder r's in cell r - 1.
pub const VIEW_COUNT: usize = 1;

pub const VIEWS: usize = VIEW_COUNT + 1;

pub const VIEW_SETS: usize = VIEWS + VIEW_SET;

pub const ENTRY_COUNT: usize = VIEWS + MAX_VIEWS * VIEW;

pub const ENTRIES: usize = ENTRY_COUNT + 1;

pub const RECORDERS: usize = ENTRIES + MAX_ENTRIES * ENTRY;

pub const NETWORK: usize = RECORDERS + MAX_RECORDERS * RECORDER;

pub const QUEUES: usize = NETWORK + MAX_RECORDERS * ROW;

pub const VOTES: usize = QUEUES + MAX_VIEWS * QUEUE;

pub const LENGTH: usize = VOTES + MAX_RECORDERS * WORD;
