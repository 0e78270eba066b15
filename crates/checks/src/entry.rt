// The tests with which every call of a board begins: the bytes are a bank, the board is one of it.
ghost use Rattle.std.specs.Prelude.{◌≡◌};
ghost use Rattle.checks.specs.Findings.{finding_of};

use crate::bank::{board_count, board_state};
use crate::refusal::Refusal;
use types::State;
use validity::bank::well_formed;

// "1: not well formed", then "2: board ≥ N"; past these the board's state is known.
pub fn enter(bank: &[u8], board: u32) -> Result<State, Refusal>
    ensures { result ≡ finding_of board bank.now }
{
    if !well_formed(bank) {
        return Err(Refusal::Malformed);
    }
    let b = board as usize;
    if board_count(bank) <= b {
        return Err(Refusal::OutOfRange);
    }
    Ok(board_state(bank, b))
}
