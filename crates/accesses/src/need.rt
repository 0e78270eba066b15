// Code 7: "stored + volatile + needed > 32 on some board".
ghost use Rattle.std.specs.Prelude.{◌≡◌, true, ℕ, ◌+◌, ◌*◌, ◌≤◌, ◌<◌, ltb, IfSome};
ghost use Rattle.model.specs.Definitions.Layout.{most_boards, slot_count};
ghost use Rattle.model.specs.Definitions.Bank.{Bank, board_at, entry_at};
ghost use Rattle.model.specs.Definitions.Codec.{decode};
ghost use Rattle.model.specs.Definitions.WellFormed.{RoomOk, WellFormed};
ghost use Rattle.model.specs.Definitions.Steps.{Access};
ghost use Rattle.model.specs.Definitions.Calls.{fetch_need, page_need, need, short_board};
ghost use Rattle.model.specs.Clauses.{volatile_count, stored_count};
ghost use Rattle.steps.specs.Asked.{got};
ghost use Rattle.copies.specs.Banks.{OfBank};
ghost use Rattle.accesses.specs.Asks.{Lacking, Asks};
ghost use Rattle.accesses.specs.Needs.{held_by, found};

use crate::ask::Ask;
use copies::givers::giver;
use fields::sets::Set;
use format::directory::read_copies;
use format::layout::{block_at, block_size};
use steps::records::room;

// "other holders 1", "own write: holders 1"
fn holder_need(copies: u8, board: usize) -> usize
    requires { board < most_boards }
    ensures need { result ≡ held_by copies board }
    ensures few { result ≤ 2 }
{
    if copies.has(board) { 1 } else { 0 }
}

// "read fetch: reader 1, owner 1; write fetch: writer 1, owner 2, other holders 1"; "its need in code 7 moves to the giver" (F-4)
// (`writes` is compared by, as `got writes` in the definition.)
fn fetch_need(writes: bool, taker: usize, giver: usize, copies: u8, board: usize) -> usize
    requires { board < most_boards }
    ensures need { (k : Bank) (p : ℕ) → copies ≡ (entry_at k p).copies → result ≡ fetch_need (got writes) k taker giver p board }
    ensures few { result ≤ 2 }
{
    if board == taker {
        1
    } else if board == giver {
        if writes { 2 } else { 1 }
    } else if writes {
        holder_need(copies, board)
    } else {
        0
    }
}

// What a board needs in its log for one page: it is fetched, or an own write drops its copies, or nothing.
fn page_need(bank: &[u8], pages: usize, ask: Ask, lacking: u16, page: usize, board: usize) -> usize
    requires { OfBank pages board bank.now × WellFormed (decode bank.now) × (page < pages) }
    ensures need { (a : Access) → Lacking pages a ask lacking (decode bank.now)
        → result ≡ page_need ask.board a (decode bank.now) board page }
    ensures few { result ≤ 2 }
{
    if lacking.has(page) {
        let writes = ask.write.is_some();
        let giver = giver(bank, pages, page, writes);
        let copies = read_copies(bank, page);
        return fetch_need(writes, ask.board, giver, copies, board);
    }
    match ask.write {
        Some(w) if w.page == page => holder_need(read_copies(bank, page), board),
        _ => 0,
    }
}

// "code 7 adds up the needs of all pages" (F-3). A write has one page, and an access that lacks none and writes nothing needs nothing.
fn need(bank: &[u8], pages: usize, ask: Ask, lacking: u16, board: usize) -> usize
    requires { OfBank pages board bank.now × WellFormed (decode bank.now) × IfSome ask.write (λ w. w.page < pages) }
    ensures need { (a : Access) → Lacking pages a ask lacking (decode bank.now)
        → result ≡ need ask.board a (decode bank.now) board }
    ensures few { result ≤ 2 * pages }
{
    if let Some(w) = ask.write {
        return page_need(bank, pages, ask, lacking, w.page, board);
    }
    if lacking == 0 {
        return 0;
    }
    let mut need = 0;
    for page in 0..pages {
        need += page_need(bank, pages, ask, lacking, page, board);
    }
    need
}

// Whether a board's log has too little room; one that needs nothing is not looked at.
fn short_of(bank: &[u8], pages: usize, board: usize, need: usize) -> bool
    requires { OfBank pages board bank.now × RoomOk (board_at (decode bank.now) board) }
    ensures { result ≡ ltb slot_count (stored_count (board_at (decode bank.now) board) + volatile_count
        (board_at (decode bank.now) board) + need) }
{
    if need == 0 {
        return false;
    }
    let a = block_at(pages, board);
    let size = block_size(pages);
    !room(&bank[a..a + size], pages, need)
}

// "who: lowest such board", if one is short.
pub fn short_board(
    bank: &[u8],
    boards: usize,
    pages: usize,
    ask: Ask,
    lacking: u16,
) -> Option<usize>
    requires { Asks boards pages ask bank.now × IfSome ask.write (λ w. w.page < pages) }
    ensures found { (a : Access) → Lacking pages a ask lacking (decode bank.now)
        → found result ≡ short_board ask.board a (decode bank.now) }
    ensures within { IfSome result (λ board. board < boards) }
{
    for board in 0..boards {
        if short_of(bank, pages, board, need(bank, pages, ask, lacking, board)) {
            return Some(board);
        }
    }
    None
}
