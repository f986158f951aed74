// How much of each thing a hall or a run file holds, and how far numbers run (specs/Hall and specs/RunFile, under the
// same names).

// "Entries, at most 64 ever submitted"; a sequence number is 1 to 64; buffer and order hold at most 64 labels each
pub const MAX_ENTRIES: usize = 64;

pub const MAX_SEQUENCE: usize = 64;

pub const MAX_BUFFER: usize = MAX_ENTRIES;

pub const MAX_ORDER: usize = MAX_ENTRIES;

// "the formed views, at most 32"; their numbers run from 1 to the greatest u32 (02, A2), and no code tests against it
pub const MAX_VIEWS: usize = 32;

// "a pending list (at most 65 messages)"; "A view's queue holds at most 72 messages"; "N, 1 to 8"
pub const MAX_PENDING: usize = 65;

pub const MAX_QUEUE: usize = 72;

pub const MAX_RECORDERS: usize = 8;

// "A file has at most 65,536 bytes, so C is at most 4,094": two of its blocks are the opening and the trailer (specs/RunFile)
pub const BLOCK: usize = 16;

pub const MAX_FILE: usize = 65536;

pub const MAX_ACTIONS: usize = MAX_FILE / BLOCK - 2;

// two more are its vote words, if it has them (02, A4)
pub const VOTE_BLOCKS: usize = 2;

pub const MAX_ACTIONS_WITH_VOTES: usize = MAX_ACTIONS - VOTE_BLOCKS;

// more turns than any settle takes (02, A5; specs/Settle)
pub const MAX_TURNS: usize = 3000;
