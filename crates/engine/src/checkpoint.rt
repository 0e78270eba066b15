// The call that stores an up board's state: what a restart begins with.
ghost use Rattle.std.specs.Prelude.{◌≤◌};
ghost use Rattle.model.specs.Definitions.Calls.{call, Checkpointing};
ghost use Rattle.model.specs.Clauses.{most_stores};
ghost use Rattle.checks.specs.Refusals.{outcome_of};
ghost use Rattle.engine.specs.Clauses.{Replied};

use accesses::outcome::ended;
use checks::bank::page_count;
use checks::entry::enter;
use checks::refusal::{Refusal, answered};
use exchange::runs;
use steps::state::is_up;
use types::Outcome;

fn try_checkpoint(bank: &mut [u8], board: u32) -> Result<Outcome, Refusal>
    ensures { Replied (call (Checkpointing board) bank.old) (outcome_of result) bank.new }
{
    let state = enter(bank, board)?;
    if !is_up(state) {
        return Err(Refusal::WrongState(board as u8));
    }
    let pages = page_count(bank);
    let b = board as usize;
    let stored = runs::checkpoint(bank, pages, b);
    Ok(ended(0, b, stored))
}

// "Checkpoint": "dark and not restart", "checkpoint while replaying" are refused.
pub fn checkpoint(bank: &mut [u8], board: u32) -> Outcome
    ensures reply { Replied (call (Checkpointing board) bank.old) result bank.new }
    ensures few { result.stores ≤ most_stores }
{
    answered(try_checkpoint(bank, board))
}
