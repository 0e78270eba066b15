// The call that takes a board's power: after some stores or, with a fuse of 0, then and there.
ghost use Rattle.std.specs.Prelude.{◌≡◌, ◌≤◌, ◌<◌, length};
ghost use Rattle.model.specs.Definitions.Codec.{encode, decode};
ghost use Rattle.model.specs.Definitions.Steps.{fuse_board};
ghost use Rattle.model.specs.Definitions.Calls.{call, Fusing};
ghost use Rattle.model.specs.Clauses.{IsBank, most_stores};
ghost use Rattle.checks.specs.Refusals.{outcome_of};
ghost use Rattle.engine.specs.Clauses.{Replied};

use checks::bank::page_count;
use checks::entry::enter;
use checks::refusal::{Refusal, answered};
use format::layout;
use format::layout::{block_at, block_size};
use steps::fuse::set_fuse;
use steps::power::power_off;
use steps::state::is_down;
use types::{Answer, Outcome};

// "65,535 none", as wide as the number that a call is given.
const NO_FUSE: u32 = layout::NO_FUSE as u32;

// "fuse 0 cuts the board then and there, with no store" (document 02, F-1); any other is written in the board's block, which is lent.
fn fuse_board(bank: &mut [u8], pages: usize, board: usize, stores: u16)
    requires { IsBank bank.old × (pages ≡ length (decode bank.old).directory) × (board < length (decode bank.old).boards) }
    ensures { bank.new ≡ encode (fuse_board board stores (decode bank.old)) }
{
    if stores == 0 {
        power_off(bank, pages, board);
    } else {
        let a = block_at(pages, board);
        let size = block_size(pages);
        set_fuse(&mut bank[a..a + size], pages, stores);
    }
}

fn try_fuse(bank: &mut [u8], board: u32, stores: u32) -> Result<Outcome, Refusal>
    ensures { Replied (call (Fusing board stores) bank.old) (outcome_of result) bank.new }
{
    let state = enter(bank, board)?;
    if NO_FUSE <= stores {
        return Err(Refusal::OutOfRange);
    }
    if is_down(state) {
        return Err(Refusal::WrongState(board as u8));
    }
    let pages = page_count(bank);
    fuse_board(bank, pages, board as usize, stores as u16);
    Ok(Outcome {
        answer: Answer::Done(0),
        stores: 0,
    })
}

// "Fuse k .. : cut after its k-th next store"; "code 2 then covers only what is above 65,534" (document 02, F-1).
pub fn fuse(bank: &mut [u8], board: u32, stores: u32) -> Outcome
    ensures reply { Replied (call (Fusing board stores) bank.old) result bank.new }
    ensures few { result.stores ≤ most_stores }
{
    answered(try_fuse(bank, board, stores))
}
