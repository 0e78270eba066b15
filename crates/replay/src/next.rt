// The next stored record of a replaying board, and whether one is left.
#![tactic(auto, using(steps::specs::BlockLaws::block_length))]

ghost use Rattle.std.specs.Prelude.{◌≡◌, drop};
ghost use Rattle.model.specs.Definitions.Replay.{replay_over};
ghost use Rattle.steps.specs.Blocks.{IsBlock, board_of};
ghost use Rattle.replay.specs.Clauses.{ready_in, ready};

use format::block::{read_place, read_since};
use format::selected;
use types::Record;

// "when no record is left"
pub fn replay_over(block: &[u8], pages: usize) -> bool
    requires { IsBlock pages block.now }
    ensures { result ≡ replay_over (board_of pages block.now) }
{
    selected::read_stored_count(block, pages) <= read_place(block)
}

// The stored record at a place, if there is one and its count equals since.
pub fn ready_at(block: &[u8], pages: usize, place: usize, since: u32) -> Option<Record>
    requires { IsBlock pages block.now }
    ensures { result ≡ ready_in (drop place (board_of pages block.now).stable.selected.log) since }
{
    if usize::from(selected::read_stored_count(block, pages)) <= place {
        return None;
    }
    let next = selected::read_stored(block, pages, place);
    (next.count == since).then_some(next)
}

// The record that "is next and its count equals since".
pub fn next_ready(block: &[u8], pages: usize) -> Option<Record>
    requires { IsBlock pages block.now }
    ensures { result ≡ ready (board_of pages block.now) }
{
    let place = usize::from(read_place(block));
    ready_at(block, pages, place, read_since(block))
}
