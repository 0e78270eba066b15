// Document 02, F-7: the stored logs of two boards held against each other. Nothing changes, so the bank is only read.
ghost use Rattle.std.specs.Prelude.{◌≡◌, ◌≤◌, ◌<◌, length};
ghost use Rattle.model.specs.Definitions.Codec.{decode};
ghost use Rattle.model.specs.Definitions.Logs.{compared_in_order, compared_logs};
ghost use Rattle.model.specs.Definitions.Calls.{call, Comparing};
ghost use Rattle.model.specs.Clauses.{IsBank, most_stores};
ghost use Rattle.checks.specs.Refusals.{outcome_of};
ghost use Rattle.engine.specs.Clauses.{Replied};

use checks::bank::{board_count, page_count};
use checks::entry::enter;
use checks::refusal::{Refusal, answered};
use comparison::unmatched::unmatched_in;
use types::{Answer, Outcome};

// "all gots with the lower board as giver come first"
fn compare_in_order(bank: &[u8], pages: usize, lower: usize, higher: usize) -> Answer
    requires { IsBank bank.now × (pages ≡ length (decode bank.now).directory) × (lower < length (decode bank.now).boards)
        × (higher < length (decode bank.now).boards) }
    ensures { result ≡ compared_in_order lower higher (decode bank.now) }
{
    if let Some(first) = unmatched_in(bank, pages, lower, higher) {
        return Answer::Compared(first, higher as u8);
    }
    match unmatched_in(bank, pages, higher, lower) {
        Some(second) => Answer::Compared(second, lower as u8),
        // "both are 0 if there is none" (document 02, F-7)
        None => Answer::Compared(0, 0),
    }
}

// Two boards of the bank, named in either order.
fn compare_boards(bank: &[u8], b: usize, c: usize) -> Answer
    requires { IsBank bank.now × (b < length (decode bank.now).boards) × (c < length (decode bank.now).boards) }
    ensures { result ≡ compared_logs b c (decode bank.now) }
{
    let pages = page_count(bank);
    if b < c {
        return compare_in_order(bank, pages, b, c);
    }
    compare_in_order(bank, pages, c, b)
}

fn try_compare_logs(bank: &[u8], board: u32, other: u32) -> Result<Outcome, Refusal>
    ensures { Replied (call (Comparing board other) bank.now) (outcome_of result) bank.now }
{
    enter(bank, board)?;
    let b = board as usize;
    let c = other as usize;
    if board_count(bank) <= c {
        return Err(Refusal::OutOfRange);
    }
    if b == c {
        return Err(Refusal::SameBoard);
    }
    let answer = compare_boards(bank, b, c);
    Ok(Outcome { answer, stores: 0 })
}

// "It works in every state of the boards": only their numbers are tested.
pub fn compare_logs(bank: &[u8], board: u32, other: u32) -> Outcome
    ensures reply { Replied (call (Comparing board other) bank.now) result bank.now }
    ensures few { result.stores ≤ most_stores }
{
    answered(try_compare_logs(bank, board, other))
}
