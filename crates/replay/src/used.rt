// Records used up: one, every shown or dropped that comes next, and those that an access makes due.
#![tactic(auto, using(steps::specs::BlockLaws::block_length))]

ghost use Rattle.std.specs.Prelude.{◌≡◌, ◌<◌, length, set, IfSome};
ghost use Rattle.model.specs.Definitions.Layout.{page_size, slot_count, last_since, last_number};
ghost use Rattle.model.specs.Definitions.Bank.{on_working};
ghost use Rattle.model.specs.Definitions.Codec.{encode_board};
ghost use Rattle.model.specs.Definitions.Steps.{Access, cells_written};
ghost use Rattle.model.specs.Definitions.Replay.{used, used_up, replayed};
ghost use Rattle.model.specs.Clauses.{Writable};
ghost use Rattle.steps.specs.Asked.{wrote_byte};
ghost use Rattle.steps.specs.Blocks.{IsBlock, board_of};
ghost use Rattle.replay.specs.Clauses.{uses_next, used_next};

use crate::next::next_ready;
use format::block::{read_place, write_page_frame, write_place, write_since};
use steps::access::{empty_frame, perform};
use steps::written::CellWrite;
use types::{Frame, Kind};

// One record used: the next place, since 0.
fn use_record(block: &mut [u8], pages: usize)
    requires { IsBlock pages block.old × ((board_of pages block.old).working.place < slot_count) }
    ensures { block.new ≡ encode_board (on_working (λ w. used w.frames w) (board_of pages block.old)) }
{
    let place = read_place(block);
    write_place(block, place + 1);
    write_since(block, 0);
}

// One record used that leaves another frame.
pub fn use_with_frame(block: &mut [u8], pages: usize, page: usize, frame: Frame)
    requires { IsBlock pages block.old × ((board_of pages block.old).working.place < slot_count) × (page < pages) × (length frame.bytes ≡ page_size) }
    ensures { block.new ≡ encode_board (on_working (λ w. used (set w.frames page frame) w) (board_of pages block.old)) }
{
    use_record(block, pages);
    write_page_frame(block, page, frame);
}

// The next record used, if it is a shown or a dropped whose count equals since ("dropped clears the frame"); says whether it was.
fn use_next(block: &mut [u8], pages: usize) -> bool
    requires { IsBlock pages block.old }
    ensures { (result ≡ uses_next (board_of pages block.old)) × (block.new ≡ encode_board (used_next (board_of pages block.old))) }
{
    let Some(next) = next_ready(block, pages) else {
        return false;
    };
    match next.kind {
        Kind::Got(_, _) => false,
        Kind::Shown(_) => {
            use_record(block, pages);
            true
        }
        Kind::Dropped(page) => {
            use_with_frame(block, pages, usize::from(page), empty_frame());
            true
        }
    }
}

// "use up every shown or dropped record whose count equals since"
pub fn use_up(block: &mut [u8], pages: usize)
    requires { IsBlock pages block.old }
    ensures { block.new ≡ encode_board (used_up (board_of pages block.old)) }
{
    while use_next(block, pages) {}
}

// A replayed access: local, then the records that it makes due are used up.
pub fn replay_access(block: &mut [u8], pages: usize, write: Option<CellWrite>)
    requires { IsBlock pages block.old × ((board_of pages block.old).working.number < last_number) × ((board_of pages block.old).working.since < last_since)
        × IfSome write (λ w. (w.page < pages) × (w.offset < page_size))
        × Writable (board_of pages block.old).working.frames (wrote_byte write) }
    ensures { (a : Access) → cells_written a ≡ wrote_byte write
        → block.new ≡ encode_board (replayed a (board_of pages block.old)) }
{
    perform(block, pages, write);
    use_up(block, pages);
}
