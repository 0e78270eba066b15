// An access on a board's block: bytes and rights of pages read, the counters, one byte or one frame written.
#![tactic(auto, using(crate::specs::BlockLaws::block_length))]

ghost use Rattle.std.specs.Prelude.{◌≡◌, ◌&&◌, map, ℕ, ◌*◌, ◌<◌, length, IfSome};
ghost use Rattle.words.specs.Bytes.{Each};
ghost use Rattle.model.specs.Definitions.Parts.{member};
ghost use Rattle.model.specs.Definitions.Layout.{page_size, last_since, last_number};
ghost use Rattle.model.specs.Definitions.Bank.{empty_frame, frame_at, on_working};
ghost use Rattle.model.specs.Definitions.Codec.{encode_board};
ghost use Rattle.model.specs.Definitions.Steps.{Access, Read, Write, cells_asked, cells_written, lacks, lacks_page, cell_byte, accessed, with_frame};
ghost use Rattle.model.specs.Definitions.Calls.{counters_full};
ghost use Rattle.steps.specs.Blocks.{IsBlock, board_of};
ghost use Rattle.fields.specs.Cells.{CellIn};
ghost use Rattle.steps.specs.Asked.{got, Takes, wrote_byte};

use crate::written::CellWrite;
use fields::bytes::{get, put};
use fields::sets::Set;
use fields::widths::{FRAME_BYTES_AT, FRAME_SIZE, RIGHT_AT};
use format::block::{read_number, read_since, write_number, write_page_frame, write_since};
use format::layout::FRAMES_AT;
use types::{Frame, PAGE_SIZE, Right};

// "since or access number at 4,294,967,295" (document 02, F-2): the last value of each counter
const LAST_SINCE: u32 = 4294967295;

const LAST_NUMBER: u32 = 4294967295;

// ---- reading

fn read_byte(block: &[u8], pages: usize, page: usize, offset: usize) -> u8
    requires { IsBlock pages block.now × (page < pages) × (offset < page_size) }
    ensures { result ≡ cell_byte (board_of pages block.now).working.frames (record { page = page; offset = offset }) }
{
    get(
        block,
        FRAMES_AT + page * FRAME_SIZE + FRAME_BYTES_AT + offset,
    )
}

fn right(block: &[u8], pages: usize, page: usize) -> Right
    requires { IsBlock pages block.now × (page < pages) }
    ensures { result ≡ (frame_at (board_of pages block.now).working.frames page).right }
{
    Right::from(get(block, FRAMES_AT + page * FRAME_SIZE + RIGHT_AT))
}

// "The bytes go in the asked order into a second lent buffer" (document 02, F-3).
pub fn gather(block: &[u8], pages: usize, cells: &[u8], out: &mut [u8])
    requires { IsBlock pages block.now × Each (CellIn pages) (cells_asked cells.now) × (length cells.now ≡ 2 * length out.old) }
    ensures { out.new ≡ map (cell_byte (board_of pages block.now).working.frames) (cells_asked cells.now) }
{
    for (i, byte) in out.iter_mut().enumerate() {
        let page = usize::from(cells[2 * i]);
        let offset = usize::from(cells[2 * i + 1]);
        *byte = read_byte(block, pages, page, offset);
    }
}

// "local if a read has any right or a write has right own": whether a right is too little. (Here and below the flag is a value to compare by, `got writes`
// of the contracts; it chooses no step.)
#[tactic(auto, unfolding(model::specs::Definitions::Steps::lacks, crate::specs::Asked::got))]
fn too_little(right: Right, writes: bool) -> bool
    ensures { result ≡ lacks (got writes) right }
{
    match right {
        Right::None => true,
        Right::Copy => writes,
        Right::Own => false,
    }
}

// Whether a page is named and its right is too little.
fn lacks_page(block: &[u8], pages: usize, page: usize, named: u16, writes: bool) -> bool
    requires { IsBlock pages block.now × (page < pages) }
    ensures { result ≡ (member page named && lacks (got writes) (frame_at (board_of pages block.now).working.frames page).right) }
{
    named.has(page) && too_little(right(block, pages, page), writes)
}

// The pages that an access names and to which it lacks a right.
pub fn lacking_pages(block: &[u8], pages: usize, named: u16, writes: bool) -> u16
    requires { IsBlock pages block.now }
    ensures { (a : Access) → Takes pages a writes named → (p : ℕ)
        → member p result ≡ lacks_page a (board_of pages block.now).working.frames p }
{
    let mut lacking = 0u16;
    for page in 0..pages {
        if lacks_page(block, pages, page, named, writes) {
            lacking = lacking.with_member(page);
        }
    }
    lacking
}

pub fn counters_full(block: &[u8], pages: usize) -> bool
    requires { IsBlock pages block.now }
    ensures { result ≡ counters_full last_since (board_of pages block.now) }
{
    read_since(block) == LAST_SINCE || read_number(block) == LAST_NUMBER
}

// ---- writing

// "A done access adds 1 to access number and since": all that a read does.
fn read_access(block: &mut [u8], pages: usize)
    requires { IsBlock pages block.old × ((board_of pages block.old).working.number < last_number)
        × ((board_of pages block.old).working.since < last_since) }
    ensures { (p o : ℕ) → block.new ≡ encode_board (on_working (accessed (Read p o)) (board_of pages block.old)) }
{
    let number = read_number(block);
    let since = read_since(block);
    write_number(block, number + 1);
    write_since(block, since + 1);
}

// A write counts as a read does; its byte besides.
fn write_access(block: &mut [u8], pages: usize, write: CellWrite)
    requires { IsBlock pages block.old × ((board_of pages block.old).working.number < last_number) × ((board_of pages block.old).working.since < last_since)
        × (write.page < pages) × (write.offset < page_size) }
    ensures { block.new ≡ encode_board (on_working (accessed (Write write.page write.offset write.value)) (board_of pages block.old)) }
{
    read_access(block, pages);
    put(
        block,
        FRAMES_AT + write.page * FRAME_SIZE + FRAME_BYTES_AT + write.offset,
        write.value,
    );
}

// A write, or a read where nothing is written.
pub fn perform(block: &mut [u8], pages: usize, write: Option<CellWrite>)
    requires { IsBlock pages block.old × ((board_of pages block.old).working.number < last_number) × ((board_of pages block.old).working.since < last_since)
        × IfSome write (λ w. (w.page < pages) × (w.offset < page_size)) }
    ensures { (a : Access) → cells_written a ≡ wrote_byte write
        → block.new ≡ encode_board (on_working (accessed a) (board_of pages block.old)) }
{
    match write {
        Some(write) => write_access(block, pages, write),
        None => read_access(block, pages),
    }
}

// Right none and zero bytes.
#[tactic(auto, unfolding(model::specs::Definitions::Bank::empty_frame, model::specs::Definitions::Parts::zeros))]
pub fn empty_frame() -> Frame
    ensures { result ≡ empty_frame }
{
    Frame {
        right: Right::None,
        bytes: [0u8; PAGE_SIZE],
    }
}

pub fn set_frame(block: &mut [u8], pages: usize, page: usize, frame: Frame)
    requires { IsBlock pages block.old × (page < pages) × (length frame.bytes ≡ page_size) }
    ensures { block.new ≡ encode_board (with_frame page frame (board_of pages block.old)) }
{
    write_page_frame(block, page, frame);
}
