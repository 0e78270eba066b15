// Where things stand in a block, an area and a bank, as numbers of the code, each once; what depends on the number of pages is a function.
ghost use Rattle.std.specs.Prelude.{◌≡◌, ◌+◌, ◌*◌, ◌≤◌};
ghost use Rattle.model.specs.Definitions.Layout.{most_boards, most_pages, area_slots_at, area_size, slots_at, area_at, block_size, blocks_at, bank_size, form_of};
ghost use Rattle.model.specs.Definitions.Layout.{since_size, slot_bytes_at_in, slot_size_in, slots_size_in, area_size_in, place_at_in, volatile_count_at_in, frames_at_in};
ghost use Rattle.model.specs.Definitions.Layout.{slots_at_in, area_at_in, block_size_in, bank_size_in};

use fields::widths::{
    FRAME_SIZE, FUSE_SIZE, NUMBER_SIZE, RECORD_COUNT_AT, SINCE_SIZE, SLOT_COUNT, SLOTS_SIZE,
};
use types::PAGE_SIZE;

// The head: "bytes 66, 75, then N, P"; and the limits of these two numbers.
pub const FIRST_LETTER: u8 = b'B';

pub const SECOND_LETTER: u8 = b'K';

pub const FIRST_LETTER_AT: usize = 0;

pub const SECOND_LETTER_AT: usize = FIRST_LETTER_AT + 1;

pub const BOARDS_AT: usize = SECOND_LETTER_AT + 1;

pub const PAGES_AT: usize = BOARDS_AT + 1;

pub const HEAD_SIZE: usize = PAGES_AT + 1;

pub const MOST_BOARDS: usize = 8;

pub const MOST_PAGES: usize = 16;

// A directory entry: owner, copy-set.
pub const OWNER_AT: usize = 0;

pub const COPIES_AT: usize = 1;

pub const ENTRY_SIZE: usize = 2;

// An area: number, stored count, frames, slots.
pub const AREA_NUMBER_AT: usize = 0;

pub const AREA_COUNT_AT: usize = AREA_NUMBER_AT + NUMBER_SIZE;

pub const AREA_FRAMES_AT: usize = AREA_COUNT_AT + 1;

// A block: state, selector, fuse, number, since, place, volatile count, frames, volatile slots, two areas.
pub const STATE_AT: usize = 0;

pub const SELECTOR_AT: usize = STATE_AT + 1;

pub const FUSE_AT: usize = SELECTOR_AT + 1;

// "65,535 none"
pub const NO_FUSE: u16 = 65535;

pub const NUMBER_AT: usize = FUSE_AT + FUSE_SIZE;

pub const SINCE_AT: usize = NUMBER_AT + NUMBER_SIZE;

pub const PLACE_AT: usize = SINCE_AT + SINCE_SIZE;

pub const VOLATILE_COUNT_AT: usize = PLACE_AT + 1;

pub const FRAMES_AT: usize = VOLATILE_COUNT_AT + 1;

// N 8, P 16 has 25,188 bytes: the largest bank.
const MOST_FRAMES_SIZE: usize = MOST_PAGES * FRAME_SIZE;

const MOST_AREA: usize = AREA_FRAMES_AT + MOST_FRAMES_SIZE + SLOTS_SIZE;

const MOST_BLOCK: usize = FRAMES_AT + MOST_FRAMES_SIZE + SLOTS_SIZE + 2 * MOST_AREA;

pub const MOST_BANK: usize = HEAD_SIZE + MOST_PAGES * ENTRY_SIZE + MOST_BOARDS * MOST_BLOCK;

// Where an area's slots stand in it.
pub fn area_slots_at(pages: usize) -> usize
    requires { pages ≤ most_pages }
    ensures { result ≡ area_slots_at pages }
{
    AREA_FRAMES_AT + pages * FRAME_SIZE
}

// ---- in a form whose since, and a record's count, have this width

pub fn slot_bytes_at_in(since: usize) -> usize
    requires { since ≤ since_size }
    ensures { result ≡ slot_bytes_at_in (form_of since) }
{
    RECORD_COUNT_AT + since
}

pub fn slot_size_in(since: usize) -> usize
    requires { since ≤ since_size }
    ensures { result ≡ slot_size_in (form_of since) }
{
    slot_bytes_at_in(since) + PAGE_SIZE
}

fn slots_size_in(since: usize) -> usize
    requires { since ≤ since_size }
    ensures { result ≡ slots_size_in (form_of since) }
{
    SLOT_COUNT * slot_size_in(since)
}

pub fn area_size_in(since: usize, pages: usize) -> usize
    requires { (since ≤ since_size) × (pages ≤ most_pages) }
    ensures { result ≡ area_size_in (form_of since) pages }
{
    area_slots_at(pages) + slots_size_in(since)
}

pub fn place_at_in(since: usize) -> usize
    requires { since ≤ since_size }
    ensures { result ≡ place_at_in (form_of since) }
{
    SINCE_AT + since
}

pub fn volatile_count_at_in(since: usize) -> usize
    requires { since ≤ since_size }
    ensures { result ≡ volatile_count_at_in (form_of since) }
{
    place_at_in(since) + 1
}

pub fn frames_at_in(since: usize) -> usize
    requires { since ≤ since_size }
    ensures { result ≡ frames_at_in (form_of since) }
{
    volatile_count_at_in(since) + 1
}

// Where a block's volatile slots stand in it.
pub fn slots_at_in(since: usize, pages: usize) -> usize
    requires { (since ≤ since_size) × (pages ≤ most_pages) }
    ensures { result ≡ slots_at_in (form_of since) pages }
{
    frames_at_in(since) + pages * FRAME_SIZE
}

// Where area 0 or 1 stands in a block; 2 gives the block's end. A number and no enum: it is multiplied by the area's size.
pub fn area_at_in(since: usize, pages: usize, area: usize) -> usize
    requires { (since ≤ since_size) × (pages ≤ most_pages) × (area ≤ 2) }
    ensures { result ≡ area_at_in (form_of since) pages area }
{
    slots_at_in(since, pages) + slots_size_in(since) + area * area_size_in(since, pages)
}

pub fn block_size_in(since: usize, pages: usize) -> usize
    requires { (since ≤ since_size) × (pages ≤ most_pages) }
    ensures { result ≡ block_size_in (form_of since) pages }
{
    area_at_in(since, pages, 2)
}

// Where the blocks begin in a bank.
pub fn blocks_at(pages: usize) -> usize
    requires { pages ≤ most_pages }
    ensures { result ≡ blocks_at pages }
{
    HEAD_SIZE + pages * ENTRY_SIZE
}

// Where a board's block stands in a bank; the number of boards gives the bank's end.
pub fn block_at_in(since: usize, pages: usize, board: usize) -> usize
    requires { (since ≤ since_size) × (pages ≤ most_pages) × (board ≤ most_boards) }
    ensures { result ≡ blocks_at pages + board * block_size_in (form_of since) pages }
{
    blocks_at(pages) + board * block_size_in(since, pages)
}

pub fn bank_size_in(since: usize, boards: usize, pages: usize) -> usize
    requires { (since ≤ since_size) × (pages ≤ most_pages) × (boards ≤ most_boards) }
    ensures { result ≡ bank_size_in (form_of since) boards pages }
{
    block_at_in(since, pages, boards)
}

// ---- in today's form: no second bodies, but names for what most callers ask, each one call of the form above

pub fn area_size(pages: usize) -> usize
    requires { pages ≤ most_pages }
    ensures { result ≡ area_size pages }
{
    area_size_in(SINCE_SIZE, pages)
}

pub fn slots_at(pages: usize) -> usize
    requires { pages ≤ most_pages }
    ensures { result ≡ slots_at pages }
{
    slots_at_in(SINCE_SIZE, pages)
}

pub fn area_at(pages: usize, area: usize) -> usize
    requires { (pages ≤ most_pages) × (area ≤ 2) }
    ensures { result ≡ area_at pages area }
{
    area_at_in(SINCE_SIZE, pages, area)
}

pub fn block_size(pages: usize) -> usize
    requires { pages ≤ most_pages }
    ensures { result ≡ block_size pages }
{
    block_size_in(SINCE_SIZE, pages)
}

// Whoever changes a block lends `&mut bank[a..a + size]` in two lines: a function that hands out that part was tried in four forms, and what becomes of the
// bank didn't prove.
pub fn block_at(pages: usize, board: usize) -> usize
    requires { (pages ≤ most_pages) × (board ≤ most_boards) }
    ensures { result ≡ blocks_at pages + board * block_size pages }
{
    block_at_in(SINCE_SIZE, pages, board)
}

pub fn bank_size(boards: usize, pages: usize) -> usize
    requires { (pages ≤ most_pages) × (boards ≤ most_boards) }
    ensures { result ≡ bank_size boards pages }
{
    bank_size_in(SINCE_SIZE, boards, pages)
}
