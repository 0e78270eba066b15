// The widths of the parts and the offsets inside them, as numbers of the code, each once.
use types::PAGE_SIZE;

pub const SLOT_COUNT: usize = 32;

// Widths of the counters, in bytes.
pub const FUSE_SIZE: usize = 2;

pub const NUMBER_SIZE: usize = 4;

pub const SINCE_SIZE: usize = 4;

// The width of since in document 01's form, which a conversion reads.
pub const OLDER_SINCE_SIZE: usize = 2;

// A frame: right, page bytes.
pub const RIGHT_AT: usize = 0;

pub const FRAME_BYTES_AT: usize = 1;

pub const FRAME_SIZE: usize = FRAME_BYTES_AT + PAGE_SIZE;

// A slot: mark, page, the named board, count, page bytes.
pub const MARK0_AT: usize = 0;

pub const MARK1_AT: usize = 1;

pub const SLOT_PAGE_AT: usize = 2;

pub const SLOT_PEER_AT: usize = 3;

pub const RECORD_COUNT_AT: usize = 4;

pub const SLOT_BYTES_AT: usize = RECORD_COUNT_AT + SINCE_SIZE;

pub const SLOT_SIZE: usize = SLOT_BYTES_AT + PAGE_SIZE;

pub const SLOTS_SIZE: usize = SLOT_COUNT * SLOT_SIZE;
