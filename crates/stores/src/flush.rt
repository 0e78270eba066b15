// "Flush stores the volatile records in order, zeroing their slots."
#![tactic(auto, using(steps::specs::BlockLaws::block_length))]

ghost use Rattle.std.specs.Prelude.{◌≡◌, ◌≤◌, ◌<◌};
ghost use Rattle.model.specs.Definitions.Layout.{slot_count};
ghost use Rattle.model.specs.Definitions.Codec.{encode_board};
ghost use Rattle.model.specs.Definitions.WellFormed.{RoomOk};
ghost use Rattle.model.specs.Definitions.BoardRuns.{flush_on, logged_on};
ghost use Rattle.model.specs.Clauses.{RoomFor, Recordable};
ghost use Rattle.steps.specs.Blocks.{IsBlock, board_of};
ghost use Rattle.stores.specs.Clauses.{stores_made, is_lost};

use crate::spend::{PowerLost, spend};
use format::block::read_volatile;
use steps::records::{append_stored, end_flush, record, volatile_count};
use types::{Kind, PAGE_SIZE};

// The volatile log stays in the bytes until the last record is stored; a power loss on the way empties it anyhow.
pub fn flush(block: &mut [u8], pages: usize) -> Result<u32, PowerLost>
    requires { IsBlock pages block.old × RoomOk (board_of pages block.old) }
    ensures run { (block.new ≡ encode_board (flush_on (board_of pages block.old)).board)
        × (stores_made result ≡ (flush_on (board_of pages block.old)).stores) × (is_lost result ≡ (flush_on (board_of pages block.old)).lost) }
    ensures few { stores_made result ≤ slot_count }
{
    let n = volatile_count(block);
    for stored in 0..n {
        let r = read_volatile(block, pages, stored);
        append_stored(block, pages, r);
        spend(block, pages, stored as u32 + 1)?;
    }
    end_flush(block, pages, n);
    Ok(n as u32)
}

// A record noted, and the whole log flushed behind it.
pub fn log_through(
    block: &mut [u8],
    pages: usize,
    kind: Kind,
    peer: u8,
    bytes: [u8; PAGE_SIZE],
) -> Result<u32, PowerLost>
    requires { IsBlock pages block.old × RoomFor 1 (board_of pages block.old) × Recordable pages kind peer bytes }
    ensures run { (block.new ≡ encode_board (logged_on kind peer bytes (board_of pages block.old)).board)
        × (stores_made result ≡ (logged_on kind peer bytes (board_of pages block.old)).stores)
        × (is_lost result ≡ (logged_on kind peer bytes (board_of pages block.old)).lost) }
    ensures few { stores_made result ≤ slot_count }
{
    record(block, pages, kind, peer, bytes);
    flush(block, pages)
}
