// Steps of a board's block that are parts of an exchange: a copy taken, a page taken over, a right dropped.
ghost use Rattle.std.specs.Prelude.{◌≡◌, ◌<◌};
ghost use Rattle.model.specs.Definitions.Codec.{encode_board};
ghost use Rattle.model.specs.Definitions.Steps.{dropped};
ghost use Rattle.model.specs.Definitions.WellFormed.{FrameOk};
ghost use Rattle.model.specs.Clauses.{took_copy, took_own};
ghost use Rattle.model.specs.Clauses.{Space};
ghost use Rattle.steps.specs.Blocks.{IsBlock, board_of};

use steps::access::{empty_frame, set_frame};
use steps::records::record;
use types::{CopyOrOwn, Frame, Kind, PAGE_SIZE, Right};

// "records got copy, gains the copy"; the frame is the giver's, whom the record names.
pub fn take_copy(block: &mut [u8], pages: usize, giver: u8, page: usize, frame: Frame)
    requires { IsBlock pages block.old × Space (board_of pages block.old) × (page < pages) × FrameOk frame }
    ensures { block.new ≡ encode_board (took_copy giver page frame.bytes (board_of pages block.old)) }
{
    record(
        block,
        pages,
        Kind::Got(CopyOrOwn::GotCopy, page as u8),
        giver,
        frame.bytes,
    );
    let right = Right::Copy;
    set_frame(block, pages, page, Frame { right, ..frame });
}

// "the writer gains right own and the page"; the frame is the old owner's.
pub fn take_own(block: &mut [u8], pages: usize, page: usize, frame: Frame)
    requires { IsBlock pages block.old × (page < pages) × FrameOk frame }
    ensures { block.new ≡ encode_board (took_own page frame.bytes (board_of pages block.old)) }
{
    let right = Right::Own;
    set_frame(block, pages, page, Frame { right, ..frame });
}

// "record dropped and lose the right"; the record names the writer.
pub fn drop_right(block: &mut [u8], pages: usize, writer: u8, page: usize)
    requires { IsBlock pages block.old × Space (board_of pages block.old) × (page < pages) }
    ensures { block.new ≡ encode_board (dropped writer page (board_of pages block.old)) }
{
    record(
        block,
        pages,
        Kind::Dropped(page as u8),
        writer,
        [0u8; PAGE_SIZE],
    );
    set_frame(block, pages, page, empty_frame());
}
