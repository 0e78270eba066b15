// The steps of a checkpoint on a board's block: a frame or the head to the spare area, the selector, and what follows them.
#![tactic(auto, using(crate::specs::BlockLaws::block_length))]

ghost use Rattle.std.specs.Prelude.{◌≡◌, ◌<◌};
ghost use Rattle.model.specs.Definitions.Bank.{on_working};
ghost use Rattle.model.specs.Definitions.Codec.{encode_board};
ghost use Rattle.model.specs.Definitions.Steps.{stored_frame, stored_head, stored_selector, rested_working};
ghost use Rattle.steps.specs.Blocks.{IsBlock, board_of};

use format::block::{
    clear_volatiles, read_number, read_page_frame, read_selector, write_selector, write_since,
    write_volatile_count,
};
use format::spare;

// "one area frame": the page's working frame goes to the spare area, by value.
pub fn store_frame(block: &mut [u8], pages: usize, page: usize)
    requires { IsBlock pages block.old × (page < pages) }
    ensures { block.new ≡ encode_board (stored_frame page (board_of pages block.old)) }
{
    let frame = read_page_frame(block, page);
    spare::store_frame(block, pages, page, frame);
}

// "one area head (number and stored count 0)"
pub fn store_head(block: &mut [u8], pages: usize)
    requires { IsBlock pages block.old }
    ensures { block.new ≡ encode_board (stored_head (board_of pages block.old)) }
{
    let number = read_number(block);
    spare::store_head(block, pages, number);
}

// "one selector": the spare area becomes the selected one.
pub fn store_selector(block: &mut [u8], pages: usize)
    requires { IsBlock pages block.old }
    ensures { block.new ≡ encode_board (stored_selector (board_of pages block.old)) }
{
    let second = read_selector(block);
    write_selector(block, !second);
}

// "then since is 0 and the volatile log is emptied and zeroed"
pub fn rest(block: &mut [u8], pages: usize)
    requires { IsBlock pages block.old }
    ensures { block.new ≡ encode_board (on_working rested_working (board_of pages block.old)) }
{
    write_since(block, 0);
    write_volatile_count(block, 0);
    clear_volatiles(block, pages);
}
