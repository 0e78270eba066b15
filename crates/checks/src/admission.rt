// The tests with which an access begins: its numbers, then codes 4 and 5 on its board's block.
ghost use Rattle.std.specs.Prelude.{◌≡◌};
ghost use Rattle.model.specs.Definitions.Bank.{board_at};
ghost use Rattle.model.specs.Definitions.Codec.{decode};
ghost use Rattle.model.specs.Definitions.Steps.{Access};
ghost use Rattle.steps.specs.Asked.{Takes};
ghost use Rattle.steps.specs.Blocks.{IsBlock, board_of};
ghost use Rattle.copies.specs.Banks.{OfBank};
ghost use Rattle.checks.specs.Admission.{numbers_fit, admission_of};

use crate::refusal::Refusal;
use format::layout::{block_at, block_size};
use replay::got::differs;
use steps::access::counters_full;
use types::PAGE_SIZE;

// What a byte can hold, as wide as the number that a call is given.
const BYTE_VALUES: u32 = 256;

// "page ≥ P, offset ≥ 16, value > 255": none of them.
pub fn numbers_fit(pages: usize, page: u32, offset: u32, value: u32) -> bool
    ensures { result ≡ numbers_fit pages page offset value }
{
    (page as usize) < pages && (offset as usize) < PAGE_SIZE && value < BYTE_VALUES
}

// "since or access number at 4,294,967,295" (document 02, F-2), then of a replaying board an access that its log doesn't have.
// (`replaying` is the first half of the definition's test: a closure for the second would carry block, pages and names.)
fn admit_block(
    block: &[u8],
    pages: usize,
    board: u8,
    replaying: bool,
    named: u16,
    writes: bool,
) -> Result<(), Refusal>
    requires { IsBlock pages block.now }
    ensures { (a : Access) → Takes pages a writes named → result ≡ admission_of board replaying a (board_of pages block.now) }
{
    if counters_full(block, pages) {
        return Err(Refusal::CountersFull(board));
    }
    if !replaying {
        return Ok(());
    }
    if differs(block, pages, named, writes) {
        return Err(Refusal::ReplayDiffers(board));
    }
    Ok(())
}

// The same of a board of the bank, whose block is lent.
pub fn admit(
    bank: &[u8],
    pages: usize,
    board: usize,
    replaying: bool,
    named: u16,
    writes: bool,
) -> Result<(), Refusal>
    requires { OfBank pages board bank.now }
    ensures { (a : Access) → Takes pages a writes named → result ≡ admission_of board replaying a (board_at (decode bank.now) board) }
{
    let a = block_at(pages, board);
    let size = block_size(pages);
    admit_block(
        &bank[a..a + size],
        pages,
        board as u8,
        replaying,
        named,
        writes,
    )
}
