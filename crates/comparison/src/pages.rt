// The pages of such records, of a block and of a board of the bank.
ghost use Rattle.std.specs.Prelude.{◌≡◌, ◌<◌, length};
ghost use Rattle.model.specs.Definitions.Codec.{decode};
ghost use Rattle.model.specs.Definitions.Logs.{pages_naming, stored_records};
ghost use Rattle.model.specs.Clauses.{IsBank};
ghost use Rattle.steps.specs.Blocks.{IsBlock, board_of};
ghost use Rattle.comparison.specs.Naming.{wanted};
ghost use Rattle.comparison.specs.Left.{pages_left};

use crate::naming::{Naming, Wanted};
use format::layout::{block_at, block_size};
use format::selected::read_stored_count;

fn pages_naming<'a>(block: &'a [u8], pages: usize, looked_for: Wanted, peer: u8) -> Naming<'a>
    requires { IsBlock pages block.now }
    ensures { pages_left result ≡ pages_naming (wanted looked_for) peer (board_of pages block.now).stable.selected.log }
{
    let stored = usize::from(read_stored_count(block, pages));
    Naming {
        block,
        pages,
        looked_for,
        peer,
        left: 0..stored,
    }
}

// The same of a board of the bank, whose block is lent.
pub fn board_pages<'a>(
    bank: &'a [u8],
    pages: usize,
    board: usize,
    looked_for: Wanted,
    peer: usize,
) -> Naming<'a>
    requires { IsBank bank.now × (pages ≡ length (decode bank.now).directory) × (board < length (decode bank.now).boards)
        × (peer < length (decode bank.now).boards) }
    ensures { pages_left result ≡ pages_naming (wanted looked_for) peer (stored_records (decode bank.now) board) }
{
    let a = block_at(pages, board);
    let size = block_size(pages);
    pages_naming(&bank[a..a + size], pages, looked_for, peer as u8)
}
