// A fresh bank over bytes of its length: head, directory, blocks.
ghost use Rattle.std.specs.Prelude.{◌≡◌, ◌+◌, ◌%◌, ◌≤◌, ◌<◌, length};
ghost use Rattle.model.specs.Definitions.Parts.{splice};
ghost use Rattle.model.specs.Definitions.Layout.{most_boards, head_size, blocks_at, bank_size};
ghost use Rattle.model.specs.Definitions.Bank.{fresh};
ghost use Rattle.model.specs.Definitions.Codec.{encode};
ghost use Rattle.fresh.specs.Fresh.{fresh_head, fresh_directory, fresh_blocks, BlocksZero};

use crate::block::write_block;
use crate::sizes::Sizes;
use fields::bytes::{clear, put};
use format::directory::write_entry;
use format::layout::{
    BOARDS_AT, FIRST_LETTER, FIRST_LETTER_AT, PAGES_AT, SECOND_LETTER, SECOND_LETTER_AT, block_at,
    block_size,
};

// "Head: bytes 66, 75, then N, P."
fn write_head(bank: &mut [u8], sizes: Sizes)
    requires { head_size ≤ length bank.old }
    ensures { bank.new ≡ splice bank.old 0 (fresh_head sizes.boards sizes.pages) }
{
    put(bank, FIRST_LETTER_AT, FIRST_LETTER);
    put(bank, SECOND_LETTER_AT, SECOND_LETTER);
    put(bank, BOARDS_AT, sizes.boards as u8);
    put(bank, PAGES_AT, sizes.pages as u8);
}

// The owner of the page after an owner's: the next board, and the first after the last.
fn next_owner(boards: usize, owner: usize) -> usize
    requires { (boards ≤ most_boards) × (owner < boards) }
    ensures { result ≡ (owner + 1) % boards }
{
    let next = owner + 1;
    if next == boards { 0 } else { next }
}

// "page p owned by board p mod N", no copy out; the remainder is counted along, since a division for each page is slow.
fn write_directory(bank: &mut [u8], sizes: Sizes)
    requires { blocks_at sizes.pages ≤ length bank.old }
    ensures { bank.new ≡ splice bank.old head_size (fresh_directory sizes.boards sizes.pages) }
{
    let mut owner = 0;
    for page in 0..sizes.pages {
        write_entry(bank, page, owner as u8, 0);
        owner = next_owner(sizes.boards, owner);
    }
}

// Every board's block, each lent as its own part of zeros.
fn write_blocks(bank: &mut [u8], sizes: Sizes)
    requires { (length bank.old ≡ bank_size sizes.boards sizes.pages) × BlocksZero sizes.boards sizes.pages bank.old }
    ensures { bank.new ≡ splice bank.old (blocks_at sizes.pages) (fresh_blocks sizes.boards sizes.pages sizes.boards) }
{
    let size = block_size(sizes.pages);
    for board in 0..sizes.boards {
        let a = block_at(sizes.pages, board);
        write_block(&mut bank[a..a + size], sizes, board);
    }
}

// A fresh bank over bytes of its length. Zeroing the whole at once is faster than block by block.
pub fn write_fresh(bank: &mut [u8], sizes: Sizes)
    requires { length bank.old ≡ bank_size sizes.boards sizes.pages }
    ensures { bank.new ≡ encode (fresh sizes.boards sizes.pages) }
{
    clear(bank);
    write_head(bank, sizes);
    write_directory(bank, sizes);
    write_blocks(bank, sizes);
}
