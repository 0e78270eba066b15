// What follows every store: the fuse is lowered, and where it blew, the block is emptied as a power loss empties it.
ghost use Rattle.std.specs.Prelude.{◌≡◌, eqb, IfErr};
ghost use Rattle.model.specs.Definitions.Codec.{encode_board};
ghost use Rattle.model.specs.Definitions.Steps.{burnt};
ghost use Rattle.model.specs.Definitions.BoardRuns.{spent};
ghost use Rattle.steps.specs.Blocks.{IsBlock, board_of};
ghost use Rattle.stores.specs.Clauses.{is_lost};

use steps::fuse::burn;
use steps::power::wipe;

// A board's fuse blew: how many stores it had made, the one at which it blew included.
#[derive(Clone, Copy)]
pub struct PowerLost {
    pub stores: u32,
}

// "A store lowers its board's set fuse; at 0 the board goes dark right after it": after so many stores, an error where it did.
pub fn spend(block: &mut [u8], pages: usize, stores: u32) -> Result<(), PowerLost>
    requires { IsBlock pages block.old }
    ensures run { (is_lost result ≡ eqb (burnt (board_of pages block.old)).fuse 0)
        × (block.new ≡ encode_board (spent (board_of pages block.old))) }
    ensures made { IfErr result (λ e. e.stores ≡ stores) }
{
    if burn(block, pages) {
        wipe(block, pages);
        return Err(PowerLost { stores });
    }
    Ok(())
}
