// A board's block as a fresh bank has it: zero but for the fuse and the rights of the pages that are its own.
ghost use Rattle.std.specs.Prelude.{◌≡◌, ◌≤◌, ◌<◌, length};
ghost use Rattle.model.specs.Definitions.Parts.{zeros};
ghost use Rattle.model.specs.Definitions.Layout.{most_pages, block_size};
ghost use Rattle.model.specs.Definitions.Bank.{fresh_board};
ghost use Rattle.model.specs.Definitions.Codec.{encode_board};
ghost use Rattle.fresh.specs.Block.{owned};

use crate::sizes::Sizes;
use fields::bytes::put;
use fields::widths::{FRAME_SIZE, RIGHT_AT};
use format::block::write_fuse;
use format::layout::{AREA_FRAMES_AT, FRAMES_AT, NO_FUSE, area_at};
use types::Right;

// Right own for a page, in the block's frames and in those of "both areas".
fn write_own(block: &mut [u8], pages: usize, page: usize)
    requires { (page < pages) × (pages ≤ most_pages) × (length block.old ≡ block_size pages) }
    ensures { block.new ≡ owned pages page block.old }
{
    let own = u8::from(Right::Own);
    let at = page * FRAME_SIZE + RIGHT_AT;
    put(block, FRAMES_AT + at, own);
    put(block, area_at(pages, 0) + AREA_FRAMES_AT + at, own);
    put(block, area_at(pages, 1) + AREA_FRAMES_AT + at, own);
}

// A block over zeros: an empty frame is zeros too, so only the fuse, which is none, and the right of each own page are written.
// "page p owned by board p mod N": the board's own pages are every N-th from its number on.
pub fn write_block(block: &mut [u8], sizes: Sizes, board: usize)
    requires { (board < sizes.boards) × (block.old ≡ zeros (block_size sizes.pages)) }
    ensures { block.new ≡ encode_board (fresh_board sizes.boards sizes.pages board) }
{
    write_fuse(block, NO_FUSE);
    for page in (board..sizes.pages).step_by(sizes.boards) {
        write_own(block, sizes.pages, page);
    }
}
