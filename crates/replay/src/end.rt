// The end of replay in a board's block: the rights settled by the directory, then a checkpoint.
ghost use Rattle.std.specs.Prelude.{◌≡◌, ◌+◌, ◌≤◌};
ghost use Rattle.model.specs.Definitions.Parts.{member};
ghost use Rattle.model.specs.Definitions.Codec.{encode_board};
ghost use Rattle.model.specs.Definitions.Replay.{settled};
ghost use Rattle.model.specs.Definitions.BoardRuns.{checkpoint_on};
ghost use Rattle.steps.specs.Blocks.{IsBlock, board_of};
ghost use Rattle.stores.specs.Clauses.{stores_made, is_lost};

use crate::settle::settle;
use stores::checkpoint::checkpoint;
use stores::spend::PowerLost;

// "End of replay": the rights settled by the directory, then a checkpoint.
pub fn end_replay(block: &mut [u8], pages: usize, owned: u16) -> Result<u32, PowerLost>
    requires { IsBlock pages block.old }
    ensures run { (block.new ≡ encode_board (checkpoint_on pages (settled (λ p. member p owned) (board_of pages block.old))).board)
        × (stores_made result ≡ (checkpoint_on pages (settled (λ p. member p owned) (board_of pages block.old))).stores)
        × (is_lost result ≡ (checkpoint_on pages (settled (λ p. member p owned) (board_of pages block.old))).lost) }
    ensures few { stores_made result ≤ pages + 2 }
{
    settle(block, pages, owned);
    checkpoint(block, pages)
}
