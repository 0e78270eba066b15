// Slots at or past a count made zero, in place: log by log, block by block; no other byte changes.
ghost use Rattle.std.specs.Prelude.{◌≡◌, true, ◌+◌, ◌≤◌, ◌<◌, length};
ghost use Rattle.model.specs.Definitions.Layout.{today, most_pages, slot_count, slots_size, block_size};
ghost use Rattle.model.specs.Definitions.Check.{area_count};
ghost use Rattle.model.specs.Definitions.Older.{cleaned_log, cleaned_block, cleaned_in};
ghost use Rattle.conversion.specs.Formed.{FormedBank};
ghost use Rattle.conversion.specs.Cleaning.{cleaned_area, CountedBlock};

use fields::bytes::clear;
use fields::widths::{SLOT_SIZE, SLOTS_SIZE};
use format::block::read_volatile_count;
use format::layout::{AREA_COUNT_AT, area_at, area_slots_at, block_at, block_size, slots_at};

// The log of so many records whose slots start at a place.
fn clean_log(block: &mut [u8], at: usize, count: usize)
    requires { (at + slots_size ≤ length block.old) × (count ≤ slot_count) }
    ensures { block.new ≡ cleaned_log today at count block.old }
{
    let used = count * SLOT_SIZE;
    let first = at + used;
    let rest = SLOTS_SIZE - used;
    clear(&mut block[first..first + rest]);
}

// The log of an area, selected or not.
fn clean_area(block: &mut [u8], pages: usize, area: usize)
    requires { (pages ≤ most_pages) × (area < 2) × (length block.old ≡ block_size pages) × (area_count today pages area block.old ≤ slot_count) }
    ensures { block.new ≡ cleaned_area pages area block.old }
{
    let a = area_at(pages, area);
    let count = usize::from(block[a + AREA_COUNT_AT]);
    clean_log(block, a + area_slots_at(pages), count);
}

// A block's three logs: those of both areas, and the volatile one.
fn clean_block(block: &mut [u8], pages: usize)
    requires { CountedBlock pages block.old }
    ensures { block.new ≡ cleaned_block today pages block.old }
{
    clean_area(block, pages, 1);
    clean_area(block, pages, 0);
    let count = usize::from(read_volatile_count(block));
    clean_log(block, slots_at(pages), count);
}

// Every board's block, each handed on as its own part.
pub fn clean_slots(bank: &mut [u8], boards: usize, pages: usize)
    requires { FormedBank today true boards pages bank.old }
    ensures { bank.new ≡ cleaned_in today bank.old }
{
    let size = block_size(pages);
    for board in 0..boards {
        let a = block_at(pages, board);
        clean_block(&mut bank[a..a + size], pages);
    }
}
