// Restart: the selected area loaded, and the first records of its log used up.
#![tactic(auto, using(steps::specs::BlockLaws::block_length))]

ghost use Rattle.std.specs.Prelude.{◌≡◌, ◌<◌};
ghost use Rattle.model.specs.Definitions.Bank.{frame_at, on_working, on_frames};
ghost use Rattle.model.specs.Definitions.Codec.{encode_board};
ghost use Rattle.model.specs.Definitions.Steps.{with_frame};
ghost use Rattle.model.specs.Definitions.Replay.{loaded, used_up};
ghost use Rattle.model.specs.Clauses.{restarting};
ghost use Rattle.steps.specs.Blocks.{IsBlock, board_of};

use crate::used::use_up;
use format::block::{write_number, write_page_frame, write_place, write_since, write_state};
use format::selected;
use types::State;

// "number from the selected area, state replaying, place and since 0": all of a restart but its frames.
fn load_head(block: &mut [u8], pages: usize)
    requires { IsBlock pages block.old }
    ensures { block.new ≡ encode_board (restarting (board_of pages block.old)) }
{
    let number = selected::read_number(block, pages);
    write_state(block, State::Replaying);
    write_number(block, number);
    write_since(block, 0);
    write_place(block, 0);
}

// One frame from the selected area, by value.
fn load_frame(block: &mut [u8], pages: usize, page: usize)
    requires { IsBlock pages block.old × (page < pages) }
    ensures { block.new ≡ encode_board (with_frame page (frame_at (board_of pages block.old).stable.selected.frames page)
        (board_of pages block.old)) }
{
    let frame = selected::read_page_frame(block, pages, page);
    write_page_frame(block, page, frame);
}

fn load_frames(block: &mut [u8], pages: usize)
    requires { IsBlock pages block.old }
    ensures { block.new ≡ encode_board (on_working (on_frames (λ fs. (board_of pages block.old).stable.selected.frames))
        (board_of pages block.old)) }
{
    for page in 0..pages {
        load_frame(block, pages, page);
    }
}

// "Restart: frames and number from the selected area, state replaying, place and since 0."
fn load(block: &mut [u8], pages: usize)
    requires { IsBlock pages block.old }
    ensures { block.new ≡ encode_board (loaded (board_of pages block.old)) }
{
    load_head(block, pages);
    load_frames(block, pages);
}

// A restart up to the end of replay, which may follow at once.
pub fn begin_replay(block: &mut [u8], pages: usize)
    requires { IsBlock pages block.old }
    ensures { block.new ≡ encode_board (used_up (loaded (board_of pages block.old))) }
{
    load(block, pages);
    use_up(block, pages);
}
