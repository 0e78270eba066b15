// A board's fuse on its block: set, and lowered by one store.
#![tactic(auto, using(crate::specs::BlockLaws::block_length))]

ghost use Rattle.std.specs.Prelude.{◌≡◌, eqb};
ghost use Rattle.model.specs.Definitions.Codec.{encode_board};
ghost use Rattle.model.specs.Definitions.Steps.{with_fuse, burnt};
ghost use Rattle.steps.specs.Blocks.{IsBlock, board_of};

use format::block::{read_fuse, write_fuse};
use format::layout::NO_FUSE;

// "Fuse k": the board loses power after its k-th next store.
pub fn set_fuse(block: &mut [u8], pages: usize, n: u16)
    requires { IsBlock pages block.old }
    ensures { block.new ≡ encode_board (with_fuse n (board_of pages block.old)) }
{
    write_fuse(block, n);
}

// "A store lowers its board's set fuse; at 0 the board goes dark right after it": says whether it does.
pub fn burn(block: &mut [u8], pages: usize) -> bool
    requires { IsBlock pages block.old }
    ensures { (result ≡ eqb (burnt (board_of pages block.old)).fuse 0)
        × (block.new ≡ encode_board (burnt (board_of pages block.old))) }
{
    match read_fuse(block) {
        NO_FUSE => false,
        0 | 1 => {
            write_fuse(block, 0);
            true
        }
        fuse => {
            write_fuse(block, fuse - 1);
            false
        }
    }
}
