// Whether bytes are a well-formed bank: head, directory, every block, the search for a malformed slot, and in today's form the slots behind the records.
ghost use Rattle.std.specs.Prelude.{◌≡◌, ◌&&◌, ◌≤◌, ltb, leb};
ghost use Rattle.model.specs.Definitions.Layout.{most_pages, form_of, since_size};
ghost use Rattle.model.specs.Definitions.Check.{head_valid, blocks_fit, logs_valid, peers_valid, formed_in, well_formed};
ghost use Rattle.validity.specs.Sizes.{BlockSized, BankSized};
ghost use Rattle.validity.specs.Pieces.{log_count, log_slots_at};

use crate::block::{area_count, block_fits, volatile_count};
use crate::parts::{all_holders, directory_valid, record_valid};
use crate::slots::slots_clean;
use fields::widths::SINCE_SIZE;
use format::layout::{
    BOARDS_AT, ENTRY_SIZE, FIRST_LETTER, FIRST_LETTER_AT, HEAD_SIZE, MOST_BOARDS, MOST_PAGES,
    PAGES_AT, SECOND_LETTER, SECOND_LETTER_AT, area_at_in, area_slots_at, bank_size_in,
    block_at_in, block_size_in, slot_size_in, slots_at_in,
};

// ---- the head

// A number of boards or pages: at least one.
fn in_range(n: usize, most: usize) -> bool
    ensures { result ≡ (ltb 0 n && leb n most) }
{
    0 < n && n <= most
}

// "that length", and the head that gives it.
fn head_valid(bank: &[u8], since: usize) -> bool
    requires { since ≤ since_size }
    ensures { result ≡ head_valid (form_of since) bank.now }
{
    if bank.len() < HEAD_SIZE {
        return false;
    }
    let boards = usize::from(bank[BOARDS_AT]);
    let pages = usize::from(bank[PAGES_AT]);
    bank[FIRST_LETTER_AT] == FIRST_LETTER
        && bank[SECOND_LETTER_AT] == SECOND_LETTER
        && in_range(boards, MOST_BOARDS)
        && in_range(pages, MOST_PAGES)
        && bank.len() == bank_size_in(since, boards, pages)
}

// ---- blocks and records

// A block's logs: those of its areas, and the volatile one.
#[derive(Clone, Copy)]
enum Log {
    First,
    Second,
    Volatile,
}

// How many records a log holds.
fn log_count(block: &[u8], since: usize, pages: usize, log: Log) -> usize
    requires { BlockSized since pages block.now }
    ensures { result ≡ log_count (form_of since) pages block.now log }
{
    match log {
        Log::First => area_count(block, since, pages, 0),
        Log::Second => area_count(block, since, pages, 1),
        Log::Volatile => volatile_count(block, since, pages),
    }
}

// Where a log's slots stand in a block.
fn log_slots_at(since: usize, pages: usize, log: Log) -> usize
    requires { (since ≤ since_size) × (pages ≤ most_pages) }
    ensures { result ≡ log_slots_at (form_of since) pages log }
{
    match log {
        Log::First => area_at_in(since, pages, 0) + area_slots_at(pages),
        Log::Second => area_at_in(since, pages, 1) + area_slots_at(pages),
        Log::Volatile => slots_at_in(since, pages),
    }
}

// "The search for a malformed slot, board by board and slot by slot, ends at the first": whether it comes to its end. A board's block is tested
// before its slots. Where block and log stand is worked out once for each, outside the loop over slots.
fn boards_valid(bank: &[u8], since: usize, named: bool, boards: usize, pages: usize) -> bool
    requires { BankSized since boards pages bank.now }
    ensures { result ≡ (blocks_fit (form_of since) boards pages bank.now
        && (logs_valid (form_of since) boards pages bank.now && peers_valid (form_of since) named boards pages bank.now)) }
{
    let directory = &bank[HEAD_SIZE..HEAD_SIZE + pages * ENTRY_SIZE];
    let holders = all_holders(directory, pages);
    let size = block_size_in(since, pages);
    let slot = slot_size_in(since);
    'search: {
        for board in 0..boards {
            let a = block_at_in(since, pages, board);
            let block = &bank[a..a + size];
            if !block_fits(directory, block, since, pages, board, holders) {
                break 'search;
            }
            for log in [Log::First, Log::Second, Log::Volatile] {
                let at = log_slots_at(since, pages, log);
                for index in 0..log_count(block, since, pages, log) {
                    let from = at + index * slot;
                    if !record_valid(
                        &block[from..from + slot],
                        since,
                        named,
                        boards,
                        pages,
                        board,
                    ) {
                        break 'search;
                    }
                }
            }
        }
        return true;
    }
    false
}

// ---- the whole

// "Well formed means: ..", of any slice in a form, in which records name a board or don't: the answer is the definition's. A slot at or past a count may hold
// anything here, as it did before F-8.
pub fn formed_in(bank: &[u8], since: usize, named: bool) -> bool
    requires { since ≤ since_size }
    ensures { result ≡ formed_in (form_of since) named bank.now }
{
    if !head_valid(bank, since) {
        return false;
    }
    let boards = usize::from(bank[BOARDS_AT]);
    let pages = usize::from(bank[PAGES_AT]);
    let directory = &bank[HEAD_SIZE..HEAD_SIZE + pages * ENTRY_SIZE];
    directory_valid(directory, boards, pages) && boards_valid(bank, since, named, boards, pages)
}

// The same in today's form, in which they do, and in which the slots at or past a count are zero.
pub fn well_formed(bank: &[u8]) -> bool
    ensures { result ≡ well_formed bank.now }
{
    formed_in(bank, SINCE_SIZE, true) && slots_clean(bank)
}
