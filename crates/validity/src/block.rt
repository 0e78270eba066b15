// The test of a board's block but for its records, on a slice that starts at the block's offset: fixed fields, counts, frames, and what
// the board and the directory say of each other.
ghost use Rattle.std.specs.Prelude.{◌≡◌, ◌+◌, ◌*◌, ◌≤◌, ◌<◌, length};
ghost use Rattle.model.specs.Definitions.Parts.{byte_at};
ghost use Rattle.model.specs.Definitions.Layout.{most_boards, most_pages, byte_values, entry_size, frame_size, area_frames_at, state_at, since_size, form_of};
ghost use Rattle.model.specs.Definitions.Layout.{volatile_count_at_in, area_at_in};
ghost use Rattle.types.specs.Bytes.{state_of};
ghost use Rattle.model.specs.Definitions.Codec.{decode_entry};
ghost use Rattle.model.specs.Definitions.WellFormed.{right_in};
ghost use Rattle.model.specs.Definitions.Check.{area_count, counts_valid, selected_count, block_fits};
ghost use Rattle.validity.specs.Sizes.{BlockSized};
ghost use Rattle.validity.specs.Pieces.{Holders, stored_frames_valid, fixed_fields_valid, blank_fields, state_fields_valid, board_fields_valid, frame_agrees, frames_agree};
ghost use Rattle.validity.specs.Pieces.{down_frames_valid, frames_fit};

use crate::parts::{
    frame_pair_valid, frame_pairs_valid, frame_valid, frames_valid, zero_frame, zero_run,
};
use fields::sets::Set;
use fields::widths::{FRAME_SIZE, RIGHT_AT, SLOT_COUNT};
use format::block::{read_fuse, read_number};
use format::layout::{
    AREA_COUNT_AT, AREA_FRAMES_AT, COPIES_AT, ENTRY_SIZE, NO_FUSE, OWNER_AT, SELECTOR_AT, SINCE_AT,
    STATE_AT, area_at_in, frames_at_in, place_at_in, volatile_count_at_in,
};
use types::{Right, State};

// The selector's byte for area 1.
const SECOND_AREA: u8 = 1;

// ---- counts and fixed fields

// How many volatile records a block holds.
pub fn volatile_count(block: &[u8], since: usize, pages: usize) -> usize
    requires { BlockSized since pages block.now }
    ensures { (result ≡ byte_at block.now (volatile_count_at_in (form_of since))) × (result < byte_values) }
{
    usize::from(block[volatile_count_at_in(since)])
}

// How many records an area of a block holds.
pub fn area_count(block: &[u8], since: usize, pages: usize, area: usize) -> usize
    requires { BlockSized since pages block.now × (area < 2) }
    ensures { (result ≡ area_count (form_of since) pages area block.now) × (result < byte_values) }
{
    usize::from(block[area_at_in(since, pages, area) + AREA_COUNT_AT])
}

// "stored at most 32 in either", and as many volatile records.
fn counts_valid(block: &[u8], since: usize, pages: usize) -> bool
    requires { BlockSized since pages block.now }
    ensures { result ≡ counts_valid (form_of since) pages block.now }
{
    volatile_count(block, since, pages) <= SLOT_COUNT
        && area_count(block, since, pages, 0) <= SLOT_COUNT
        && area_count(block, since, pages, 1) <= SLOT_COUNT
}

// State and selector in range, and the counts.
fn fixed_fields_valid(block: &[u8], since: usize, pages: usize) -> bool
    requires { BlockSized since pages block.now }
    ensures { result ≡ fixed_fields_valid (form_of since) pages block.now }
{
    block[STATE_AT] <= u8::from(State::Replaying)
        && block[SELECTOR_AT] <= SECOND_AREA
        && counts_valid(block, since, pages)
}

// ---- what a board says of itself

// How many records the selected area holds.
fn selected_count(block: &[u8], since: usize, pages: usize) -> usize
    requires { BlockSized since pages block.now }
    ensures { (result ≡ selected_count (form_of since) pages block.now) × (result < byte_values) }
{
    if block[SELECTOR_AT] == SECOND_AREA {
        area_count(block, since, pages, 1)
    } else {
        area_count(block, since, pages, 0)
    }
}

// "a dark board has access number, since, volatile count and frames zero and no fuse": but for the frames
fn blank_fields(block: &[u8], since: usize, pages: usize) -> bool
    requires { BlockSized since pages block.now }
    ensures { result ≡ blank_fields (form_of since) block.now }
{
    read_number(block) == 0
        && zero_run(block, SINCE_AT, since)
        && volatile_count(block, since, pages) == 0
        && read_fuse(block) == NO_FUSE
}

// What a board's state asks of its replay place, its volatile log and, of a down board, the rest but its frames.
fn state_fields_valid(block: &[u8], since: usize, pages: usize) -> bool
    requires { BlockSized since pages block.now }
    ensures { result ≡ state_fields_valid (form_of since) (state_of (byte_at block.now state_at)) pages block.now }
{
    let place = usize::from(block[place_at_in(since)]);
    match State::from(block[STATE_AT]) {
        State::Up => place == 0,
        State::Down => place == 0 && blank_fields(block, since, pages),
        State::Replaying => {
            place < selected_count(block, since, pages) && volatile_count(block, since, pages) == 0
        }
    }
}

// "fuse not 0", "stored plus volatile at most 32 for the selected area", and what the state asks.
fn board_fields_valid(block: &[u8], since: usize, pages: usize) -> bool
    requires { BlockSized since pages block.now }
    ensures { result ≡ board_fields_valid (form_of since) pages block.now }
{
    read_fuse(block) != 0
        && selected_count(block, since, pages) + volatile_count(block, since, pages) <= SLOT_COUNT
        && state_fields_valid(block, since, pages)
}

// ---- frames, and what a board and the directory say of each other

// Where the frames of an area stand in a block.
fn area_frames_at(since: usize, pages: usize, area: usize) -> usize
    requires { (since ≤ since_size) × (pages ≤ most_pages) × (area < 2) }
    ensures { result ≡ area_at_in (form_of since) pages area + area_frames_at }
{
    area_at_in(since, pages, area) + AREA_FRAMES_AT
}

// The right that a directory entry gives a board.
fn right_given(entry: &[u8], board: u8) -> Right
    requires { (length entry.now ≡ entry_size) × (board < most_boards) }
    ensures { result ≡ right_in (decode_entry entry.now) board }
{
    if entry[OWNER_AT] == board {
        Right::Own
    } else if entry[COPIES_AT].has(usize::from(board)) {
        Right::Copy
    } else {
        Right::None
    }
}

// A frame of an up board is valid, and its right the directory's.
fn frame_agrees(entry: &[u8], frame: &[u8], board: u8) -> bool
    requires { (length entry.now ≡ entry_size) × (length frame.now ≡ frame_size) × (board < most_boards) }
    ensures { result ≡ frame_agrees entry.now frame.now board }
{
    frame[RIGHT_AT] == u8::from(right_given(entry, board)) && frame_valid(frame)
}

// The frames of an up board and of its areas, a page of all three a turn.
fn frames_agree(directory: &[u8], block: &[u8], since: usize, pages: usize, board: usize) -> bool
    requires { (length directory.now ≡ pages * entry_size) × BlockSized since pages block.now × (board < most_boards) }
    ensures { result ≡ frames_agree (form_of since) pages directory.now block.now board }
{
    let working = frames_at_in(since);
    let first = area_frames_at(since, pages, 0);
    let second = area_frames_at(since, pages, 1);
    (0..pages).all(|page| {
        let a = page * ENTRY_SIZE;
        let b = working + page * FRAME_SIZE;
        frame_agrees(
            &directory[a..a + ENTRY_SIZE],
            &block[b..b + FRAME_SIZE],
            board as u8,
        ) && frame_pair_valid(block, first + page * FRAME_SIZE, second + page * FRAME_SIZE)
    })
}

// The frames of both areas.
fn stored_frames_valid(block: &[u8], since: usize, pages: usize) -> bool
    requires { BlockSized since pages block.now }
    ensures { result ≡ stored_frames_valid (form_of since) pages block.now }
{
    frame_pairs_valid(
        block,
        pages,
        area_frames_at(since, pages, 0),
        area_frames_at(since, pages, 1),
    )
}

// The frames of a down board, which are zero, and of its areas, a page of all three a turn.
fn down_frames_valid(block: &[u8], since: usize, pages: usize) -> bool
    requires { BlockSized since pages block.now }
    ensures { result ≡ down_frames_valid (form_of since) pages block.now }
{
    let working = frames_at_in(since);
    let first = area_frames_at(since, pages, 0);
    let second = area_frames_at(since, pages, 1);
    (0..pages).all(|page| {
        zero_frame(block, working + page * FRAME_SIZE)
            && frame_pair_valid(block, first + page * FRAME_SIZE, second + page * FRAME_SIZE)
    })
}

// All frames, and what board and directory say of each other. A board not up is looked for in one set, that of all who hold a copy. In a function of its
// own its loops need no register of the search's.
#[inline(never)]
fn frames_fit(
    directory: &[u8],
    block: &[u8],
    since: usize,
    pages: usize,
    board: usize,
    holders: u8,
) -> bool
    requires { (length directory.now ≡ pages * entry_size) × BlockSized since pages block.now × (board < most_boards)
        × Holders pages directory.now holders }
    ensures { result ≡ frames_fit (form_of since) (state_of (byte_at block.now state_at)) pages directory.now block.now board }
{
    match State::from(block[STATE_AT]) {
        State::Up => frames_agree(directory, block, since, pages, board),
        State::Down => !holders.has(board) && down_frames_valid(block, since, pages),
        State::Replaying => {
            !holders.has(board)
                && stored_frames_valid(block, since, pages)
                && frames_valid(block, pages, frames_at_in(since))
        }
    }
}

// All of a block but its records.
pub fn block_fits(
    directory: &[u8],
    block: &[u8],
    since: usize,
    pages: usize,
    board: usize,
    holders: u8,
) -> bool
    requires { (length directory.now ≡ pages * entry_size) × BlockSized since pages block.now × (board < most_boards)
        × Holders pages directory.now holders }
    ensures { result ≡ block_fits (form_of since) pages directory.now block.now board }
{
    fixed_fields_valid(block, since, pages)
        && board_fields_valid(block, since, pages)
        && frames_fit(directory, block, since, pages, board, holders)
}
