// Records of a board on its block: counted, noted in the volatile log, appended to the selected area; and the end of a flush.
#![tactic(auto, using(crate::specs::BlockLaws::block_length))]

ghost use Rattle.std.specs.Prelude.{◌≡◌, ℕ, ◌+◌, ◌≤◌, ◌<◌, length, leb};
ghost use Rattle.model.specs.Definitions.Layout.{slot_count, frames_at};
ghost use Rattle.model.specs.Definitions.Bank.{on_working};
ghost use Rattle.model.specs.Definitions.Codec.{encode_board};
ghost use Rattle.model.specs.Definitions.Steps.{recorded};
ghost use Rattle.model.specs.Definitions.WellFormed.{RecordOk};
ghost use Rattle.model.specs.Clauses.{stored_count, volatile_count, Recordable};
ghost use Rattle.steps.specs.Blocks.{IsBlock, board_of, with_stored, flush_ended};

use fields::bytes::clear_at;
use fields::widths::{SLOT_COUNT, SLOT_SIZE};
use format::block::{
    read_since, read_volatile_count, write_since, write_volatile, write_volatile_count,
};
use format::layout::slots_at;
use format::selected;
use types::{Kind, PAGE_SIZE, Record};

// ---- how many records a board has

pub fn volatile_count(block: &[u8]) -> usize
    requires { frames_at ≤ length block.now }
    ensures { (pages : ℕ) → result ≡ volatile_count (board_of pages block.now) }
{
    usize::from(read_volatile_count(block))
}

fn stored_count(block: &[u8], pages: usize) -> usize
    requires { IsBlock pages block.now }
    ensures { result ≡ stored_count (board_of pages block.now) }
{
    usize::from(selected::read_stored_count(block, pages))
}

// "stored plus volatile at most 32": whether so many records more would fit.
pub fn room(block: &[u8], pages: usize, need: usize) -> bool
    requires { IsBlock pages block.now }
    ensures { result ≡ leb (stored_count (board_of pages block.now) + volatile_count (board_of pages block.now) + need) slot_count }
{
    let used = stored_count(block, pages) + volatile_count(block);
    used <= SLOT_COUNT && need <= SLOT_COUNT - used
}

// ---- one record more

// "takes the board's since as its count, then since becomes 0. It enters the volatile log."; the peer is whom it names (document 02, F-6).
pub fn record(block: &mut [u8], pages: usize, kind: Kind, peer: u8, bytes: [u8; PAGE_SIZE])
    requires { IsBlock pages block.old × (volatile_count (board_of pages block.old) < slot_count) × Recordable pages kind peer bytes }
    ensures { block.new ≡ encode_board (on_working (recorded kind peer bytes) (board_of pages block.old)) }
{
    let count = read_since(block);
    let at = read_volatile_count(block);
    let r = Record {
        count,
        kind,
        peer,
        bytes,
    };
    write_volatile(block, pages, usize::from(at), r);
    write_volatile_count(block, at + 1);
    write_since(block, 0);
}

// "one record appended to the selected area"
pub fn append_stored(block: &mut [u8], pages: usize, r: Record)
    requires { IsBlock pages block.old × (stored_count (board_of pages block.old) < slot_count) × RecordOk pages r }
    ensures { block.new ≡ encode_board (with_stored r (board_of pages block.old)) }
{
    let at = selected::read_stored_count(block, pages);
    selected::write_stored(block, pages, usize::from(at), r);
    selected::write_stored_count(block, pages, at + 1);
}

// ---- the end of a flush

// "zeroing their slots": those of the records that were stored, all `n` of them.
pub fn end_flush(block: &mut [u8], pages: usize, n: usize)
    requires { IsBlock pages block.old × (n ≡ volatile_count (board_of pages block.old)) }
    ensures { block.new ≡ encode_board (flush_ended (board_of pages block.old)) }
{
    write_volatile_count(block, 0);
    clear_at(block, slots_at(pages), n * SLOT_SIZE);
}
