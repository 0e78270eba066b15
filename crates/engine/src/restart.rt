// The call that gives a board its power again: its checkpoint loaded, and the first records of its log used up.
ghost use Rattle.std.specs.Prelude.{◌≡◌, ◌≤◌};
ghost use Rattle.model.specs.Definitions.Bank.{board_at, on_board};
ghost use Rattle.model.specs.Definitions.Codec.{encode_board, decode};
ghost use Rattle.model.specs.Definitions.Replay.{loaded, used_up, replay_over};
ghost use Rattle.model.specs.Definitions.Calls.{call, Restarting};
ghost use Rattle.steps.specs.Blocks.{IsBlock, board_of};
ghost use Rattle.copies.specs.Banks.{OfBank, Holds};
ghost use Rattle.model.specs.Clauses.{most_stores};
ghost use Rattle.checks.specs.Refusals.{outcome_of};
ghost use Rattle.engine.specs.Clauses.{Replied};

use accesses::outcome::ended;
use accesses::replaying::end_replay;
use checks::bank::page_count;
use checks::entry::enter;
use checks::refusal::{Refusal, answered};
use format::layout::{block_at, block_size};
use format::selected::read_number;
use replay::next::replay_over;
use replay::restart::begin_replay;
use steps::state::is_down;
use types::{Answer, Outcome};

// The number that a board begins again with, and whether its log has no record left: both count in either case, so no Option says it.
#[derive(Clone, Copy)]
struct Restarted {
    number: u32,
    over: bool,
}

fn restart_block(block: &mut [u8], pages: usize) -> Restarted
    requires { IsBlock pages block.old }
    ensures { (result.number ≡ (board_of pages block.old).stable.selected.number)
        × (result.over ≡ replay_over (used_up (loaded (board_of pages block.old))))
        × (block.new ≡ encode_board (used_up (loaded (board_of pages block.old)))) }
{
    let number = read_number(block, pages);
    begin_replay(block, pages);
    Restarted {
        number,
        over: replay_over(block, pages),
    }
}

// The same of a board of the bank, whose block is lent.
fn restart_board(bank: &mut [u8], pages: usize, board: usize) -> Restarted
    requires { OfBank pages board bank.old }
    ensures { (result.number ≡ (board_at (decode bank.old) board).stable.selected.number)
        × (result.over ≡ replay_over (used_up (loaded (board_at (decode bank.old) board))))
        × Holds bank.new (on_board board (λ x. used_up (loaded x)) (decode bank.old)) }
{
    let a = block_at(pages, board);
    let size = block_size(pages);
    restart_block(&mut bank[a..a + size], pages)
}

fn try_restart(bank: &mut [u8], board: u32) -> Result<Outcome, Refusal>
    ensures { Replied (call (Restarting board) bank.old) (outcome_of result) bank.new }
{
    let state = enter(bank, board)?;
    if !is_down(state) {
        return Err(Refusal::WrongState(board as u8));
    }
    let pages = page_count(bank);
    let b = board as usize;
    let restarted = restart_board(bank, pages, b);
    if !restarted.over {
        return Ok(Outcome {
            answer: Answer::Done(restarted.number),
            stores: 0,
        });
    }
    let stored = end_replay(bank, pages, b);
    Ok(ended(restarted.number, b, stored))
}

// "Restart", and the end of replay where its log has no record to repeat.
pub fn restart(bank: &mut [u8], board: u32) -> Outcome
    ensures reply { Replied (call (Restarting board) bank.old) result bank.new }
    ensures few { result.stores ≤ most_stores }
{
    answered(try_restart(bank, board))
}
