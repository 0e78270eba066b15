// "well formed requires every slot at or past a count to be zero" (document 02, F-8): that test, in today's form.
ghost use Rattle.std.specs.Prelude.{◌≡◌, true, ◌+◌, ◌≤◌, ◌<◌, length};
ghost use Rattle.model.specs.Definitions.Layout.{slot_count, slots_size, today};
ghost use Rattle.model.specs.Definitions.Check.{area_count, area_log_at, rest_zero, block_clean, formed_in, slots_clean};
ghost use Rattle.validity.specs.Sizes.{BlockCounted};

use crate::block::{area_count, volatile_count};
use crate::parts::zero_run;
use fields::widths::{SINCE_SIZE, SLOT_SIZE, SLOTS_SIZE};
use format::layout::{BOARDS_AT, PAGES_AT, area_at, area_slots_at, block_at, block_size, slots_at};

// The slots behind so many records, of the log whose slots start at a place. Most logs are empty, and a run of a known length is the quickest:
// the compiler takes its bytes 16 at a time and without a loop.
fn rest_zero(block: &[u8], at: usize, count: usize) -> bool
    requires { (at + slots_size ≤ length block.now) × (count ≤ slot_count) }
    ensures { result ≡ rest_zero today at count block.now }
{
    if count == 0 {
        return zero_run(block, at, SLOTS_SIZE);
    }
    let used = count * SLOT_SIZE;
    zero_run(block, at + used, SLOTS_SIZE - used)
}

// The same of an area's log.
fn area_rest_zero(block: &[u8], pages: usize, area: usize) -> bool
    requires { BlockCounted pages block.now × (area < 2) }
    ensures { result ≡ rest_zero today (area_log_at today pages area) (area_count today pages area block.now) block.now }
{
    let at = area_at(pages, area) + area_slots_at(pages);
    rest_zero(block, at, area_count(block, SINCE_SIZE, pages, area))
}

// A block's logs: the volatile one and those of both areas.
fn block_clean(block: &[u8], pages: usize) -> bool
    requires { BlockCounted pages block.now }
    ensures { result ≡ block_clean today pages block.now }
{
    let count = volatile_count(block, SINCE_SIZE, pages);
    rest_zero(block, slots_at(pages), count)
        && area_rest_zero(block, pages, 0)
        && area_rest_zero(block, pages, 1)
}

// Every board's block, of a bank that passed all other tests: so its length is that of its head, and no count is above 32.
pub fn slots_clean(bank: &[u8]) -> bool
    requires { formed_in today true bank.now ≡ true }
    ensures { result ≡ slots_clean today bank.now }
{
    let boards = usize::from(bank[BOARDS_AT]);
    let pages = usize::from(bank[PAGES_AT]);
    let size = block_size(pages);
    for board in 0..boards {
        let a = block_at(pages, board);
        if !block_clean(&bank[a..a + size], pages) {
            return false;
        }
    }
    true
}
