// What every call reads of a bank before it begins: the numbers of boards and pages, and a board's state.
ghost use Rattle.std.specs.Prelude.{◌≡◌, ◌<◌, length};
ghost use Rattle.model.specs.Definitions.Bank.{board_at};
ghost use Rattle.model.specs.Definitions.Codec.{decode};
ghost use Rattle.model.specs.Clauses.{IsBank};

use copies::state;
use format::layout::{BOARDS_AT, PAGES_AT};
use types::State;

pub fn board_count(bank: &[u8]) -> usize
    requires { IsBank bank.now }
    ensures { result ≡ length (decode bank.now).boards }
{
    usize::from(bank[BOARDS_AT])
}

pub fn page_count(bank: &[u8]) -> usize
    requires { IsBank bank.now }
    ensures { result ≡ length (decode bank.now).directory }
{
    usize::from(bank[PAGES_AT])
}

// The state of a board of the bank.
pub fn board_state(bank: &[u8], board: usize) -> State
    requires { IsBank bank.now × (board < length (decode bank.now).boards) }
    ensures { result ≡ (board_at (decode bank.now) board).state }
{
    state::board_state(bank, page_count(bank), board)
}
