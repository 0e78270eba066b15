// "Checkpoint: P frames to the spare area in page order, its head, the selector (P + 2 stores)"
ghost use Rattle.std.specs.Prelude.{◌≡◌, ◌+◌, ◌≤◌};
ghost use Rattle.model.specs.Definitions.Parts.{tabulate};
ghost use Rattle.model.specs.Definitions.Codec.{encode_board};
ghost use Rattle.model.specs.Definitions.Steps.{stored_frame};
ghost use Rattle.model.specs.Definitions.BoardRuns.{start_on, store_all_on, checkpoint_on};
ghost use Rattle.steps.specs.Blocks.{IsBlock, board_of};
ghost use Rattle.stores.specs.Clauses.{stores_made, is_lost};

use crate::spend::{PowerLost, spend};
use steps::checkpoint::{rest, store_frame, store_head, store_selector};

// The frames, "in page order".
fn store_frames(block: &mut [u8], pages: usize) -> Result<u32, PowerLost>
    requires { IsBlock pages block.old }
    ensures run { (block.new ≡ encode_board (store_all_on (tabulate pages stored_frame) (start_on (board_of pages block.old))).board)
        × (stores_made result ≡ (store_all_on (tabulate pages stored_frame) (start_on (board_of pages block.old))).stores)
        × (is_lost result ≡ (store_all_on (tabulate pages stored_frame) (start_on (board_of pages block.old))).lost) }
    ensures few { stores_made result ≤ pages }
{
    for page in 0..pages {
        store_frame(block, pages, page);
        spend(block, pages, page as u32 + 1)?;
    }
    Ok(pages as u32)
}

// The frames, then the head, the selector, and what follows them; each only while there is power.
pub fn checkpoint(block: &mut [u8], pages: usize) -> Result<u32, PowerLost>
    requires { IsBlock pages block.old }
    ensures run { (block.new ≡ encode_board (checkpoint_on pages (board_of pages block.old)).board)
        × (stores_made result ≡ (checkpoint_on pages (board_of pages block.old)).stores)
        × (is_lost result ≡ (checkpoint_on pages (board_of pages block.old)).lost) }
    ensures few { stores_made result ≤ pages + 2 }
{
    let stores = store_frames(block, pages)?;
    store_head(block, pages);
    spend(block, pages, stores + 1)?;
    store_selector(block, pages);
    spend(block, pages, stores + 2)?;
    rest(block, pages);
    Ok(stores + 2)
}
