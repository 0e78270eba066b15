// A bank of the older form over bytes of the length that it has today: head and directory as they are, block by block.
ghost use Rattle.std.specs.Prelude.{◌≡◌, length};
ghost use Rattle.model.specs.Definitions.Parts.{splice};
ghost use Rattle.model.specs.Definitions.Layout.{blocks_at, bank_size};
ghost use Rattle.model.specs.Definitions.Codec.{encode};
ghost use Rattle.model.specs.Definitions.Older.{older_bank};
ghost use Rattle.conversion.specs.Banks.{OlderBank, rewritten_blocks};

use crate::block::write_block;
use fields::bytes::copy;
use fields::widths::OLDER_SINCE_SIZE;
use format::layout::{block_at, block_at_in, block_size, block_size_in, blocks_at};

// Every board's block, each handed on as its own part.
fn write_blocks(old: &[u8], new: &mut [u8], boards: usize, pages: usize)
    requires { OlderBank boards pages old.now × (length new.old ≡ bank_size boards pages) }
    ensures { new.new ≡ splice new.old (blocks_at pages) (rewritten_blocks pages boards old.now) }
{
    let from = block_size_in(OLDER_SINCE_SIZE, pages);
    let to = block_size(pages);
    for board in 0..boards {
        let a = block_at_in(OLDER_SINCE_SIZE, pages, board);
        let b = block_at(pages, board);
        write_block(&old[a..a + from], &mut new[b..b + to], pages);
    }
}

// "writes the new form into another": every byte of the target is written.
pub fn write_converted(old: &[u8], new: &mut [u8], boards: usize, pages: usize)
    requires { OlderBank boards pages old.now × (length new.old ≡ bank_size boards pages) }
    ensures { new.new ≡ encode (older_bank old.now) }
{
    copy(old, 0, new, 0, blocks_at(pages));
    write_blocks(old, new, boards, pages);
}
