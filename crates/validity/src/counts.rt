// Whether a bank has a record: its counts, block by block.
ghost use Rattle.std.specs.Prelude.{◌≡◌, true, ◌≤◌};
ghost use Rattle.model.specs.Definitions.Layout.{form_of, since_size};
ghost use Rattle.model.specs.Definitions.Codec.{decode_in};
ghost use Rattle.model.specs.Definitions.Check.{head_valid};
ghost use Rattle.model.specs.Definitions.Older.{no_records};
ghost use Rattle.model.specs.Clauses.{counts_zero};
ghost use Rattle.validity.specs.Sizes.{BlockSized};

use crate::block::{area_count, volatile_count};
use format::layout::{BOARDS_AT, PAGES_AT, block_at_in, block_size_in};

// The volatile count of a block, and those of both areas.
fn counts_zero(block: &[u8], since: usize, pages: usize) -> bool
    requires { BlockSized since pages block.now }
    ensures { result ≡ counts_zero (form_of since) pages block.now }
{
    volatile_count(block, since, pages) == 0
        && area_count(block, since, pages, 0) == 0
        && area_count(block, since, pages, 1) == 0
}

// "when every stored and volatile count is zero" (document 02, F-6), of a bank in a form whose head was tested.
pub fn no_records(bank: &[u8], since: usize) -> bool
    requires { (since ≤ since_size) × (head_valid (form_of since) bank.now ≡ true) }
    ensures { result ≡ no_records (decode_in (form_of since) bank.now) }
{
    let boards = usize::from(bank[BOARDS_AT]);
    let pages = usize::from(bank[PAGES_AT]);
    let size = block_size_in(since, pages);
    for board in 0..boards {
        let a = block_at_in(since, pages, board);
        if !counts_zero(&bank[a..a + size], since, pages) {
            return false;
        }
    }
    true
}
