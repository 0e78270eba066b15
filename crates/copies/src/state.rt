// A board's state, read in its block, which is lent.
ghost use Rattle.std.specs.Prelude.{◌≡◌};
ghost use Rattle.model.specs.Definitions.Bank.{board_at};
ghost use Rattle.model.specs.Definitions.Codec.{decode};
ghost use Rattle.model.specs.Definitions.WellFormed.{is_up};
ghost use Rattle.copies.specs.Banks.{OfBank};

use format::block::read_state;
use format::layout::{block_at, block_size};
use types::State;

pub fn board_state(bank: &[u8], pages: usize, board: usize) -> State
    requires { OfBank pages board bank.now }
    ensures { result ≡ (board_at (decode bank.now) board).state }
{
    let a = block_at(pages, board);
    let size = block_size(pages);
    read_state(&bank[a..a + size])
}

pub fn board_up(bank: &[u8], pages: usize, board: usize) -> bool
    requires { OfBank pages board bank.now }
    ensures { result ≡ is_up (board_at (decode bank.now) board).state }
{
    board_state(bank, pages, board) == State::Up
}
