// The end of replay on a board's block: each page's right by the directory, and the board is up.
#![tactic(auto, using(steps::specs::BlockLaws::block_length))]

ghost use Rattle.std.specs.Prelude.{◌≡◌, ◌<◌};
ghost use Rattle.model.specs.Definitions.Parts.{each, member};
ghost use Rattle.model.specs.Definitions.Bank.{frame_at, on_working, on_frames};
ghost use Rattle.model.specs.Definitions.Codec.{encode_board};
ghost use Rattle.model.specs.Definitions.Steps.{with_frame};
ghost use Rattle.model.specs.Definitions.Replay.{settled_frame, settled};
ghost use Rattle.steps.specs.Blocks.{IsBlock, board_of};

use fields::sets::Set;
use format::block::{read_page_frame, write_page_frame, write_place, write_state};
use steps::access::empty_frame;
use types::{Frame, Right, State};

// "pages the directory gives to others lose their right; those it gives this board are own" (The flag is the definition's own argument.)
#[tactic(auto, unfolding(model::specs::Definitions::Replay::settled_frame))]
fn settled_frame(frame: Frame, own: bool) -> Frame
    ensures { result ≡ settled_frame own frame }
{
    if own {
        Frame {
            right: Right::Own,
            ..frame
        }
    } else {
        empty_frame()
    }
}

fn settle_frame(block: &mut [u8], pages: usize, page: usize, own: bool)
    requires { IsBlock pages block.old × (page < pages) }
    ensures { block.new ≡ encode_board (with_frame page (settled_frame own (frame_at (board_of pages block.old).working.frames page))
        (board_of pages block.old)) }
{
    let frame = read_page_frame(block, page);
    write_page_frame(block, page, settled_frame(frame, own));
}

fn settle_frames(block: &mut [u8], pages: usize, owned: u16)
    requires { IsBlock pages block.old }
    ensures { block.new ≡ encode_board (on_working (on_frames (each (λ p f. settled_frame (member p owned) f))) (board_of pages block.old)) }
{
    for page in 0..pages {
        settle_frame(block, pages, page, owned.has(page));
    }
}

// The end of replay but its checkpoint: the frames settled, place 0, state up. `owned` has the pages that the directory gives this board.
pub fn settle(block: &mut [u8], pages: usize, owned: u16)
    requires { IsBlock pages block.old }
    ensures { block.new ≡ encode_board (settled (λ p. member p owned) (board_of pages block.old)) }
{
    settle_frames(block, pages, owned);
    write_state(block, State::Up);
    write_place(block, 0);
}
