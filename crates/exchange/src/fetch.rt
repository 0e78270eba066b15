// Fetches: the givers' records are stored first, then a writer's got, and only then does a right pass.
ghost use Rattle.std.specs.Prelude.{◌≡◌, [], ◌∷◌, ℕ, ◌+◌, ◌*◌, ◌≤◌, ◌<◌, length, is_some, IfSome};
ghost use Rattle.types.specs.declared.CopyOrOwn.TheVariants.{GotCopy, GotOwn};
ghost use Rattle.types.specs.declared.State.TheVariants.{Up};
ghost use Rattle.model.specs.Definitions.Layout.{most_pages, slot_count};
ghost use Rattle.model.specs.Definitions.Bank.{board_at};
ghost use Rattle.model.specs.Definitions.Codec.{decode};
ghost use Rattle.model.specs.Definitions.WellFormed.{WellFormed};
ghost use Rattle.model.specs.Definitions.Steps.{giver, show, show_all, read_fetch, write_fetch, fetch};
ghost use Rattle.model.specs.Clauses.{RoomFor, CanFetch};
ghost use Rattle.steps.specs.Asked.{got};
ghost use Rattle.copies.specs.Banks.{OfBank};
ghost use Rattle.copies.specs.Copies.{pages_in};
ghost use Rattle.exchange.specs.Progress.{running, stores_by, loss_of, Came, CanShow, get_own};

use crate::progress::Loss;
use crate::runs::log_through;
use copies::copies::{give_copies, page_frame, pass_ownership};
use copies::givers::giver;
use fields::sets::Set;
use types::{CopyOrOwn, Kind, PAGE_SIZE};

// "That giver records shown and flushes as an owner does." (F-4): the giver's part of every fetch, which names the taker.
fn show(bank: &mut [u8], pages: usize, giver: usize, board: usize, page: usize) -> Result<u32, Loss>
    requires { OfBank pages giver bank.old × WellFormed (decode bank.old) × (board < length (decode bank.old).boards) × (page < pages)
        × CanShow giver (decode bank.old) }
    ensures run { (n : ℕ) → Came bank.new (n + stores_by result) (loss_of result)
        (show giver board page (running n (decode bank.old))) }
    ensures few { stores_by result ≤ slot_count }
{
    log_through(
        bank,
        pages,
        giver,
        Kind::Shown(page as u8),
        board as u8,
        [0u8; PAGE_SIZE],
    )
    .map_err(|lost| Loss::of(giver, lost))
}

// "All givers record and store first, page by page." (F-3); the first that loses its power ends it.
fn show_all(bank: &mut [u8], pages: usize, board: usize, lacking: u16) -> Result<u32, Loss>
    requires { OfBank pages board bank.old × WellFormed (decode bank.old) × CanFetch GotCopy board (pages_in pages lacking) (decode bank.old) }
    ensures run { (n : ℕ) → Came bank.new (n + stores_by result) (loss_of result)
        (show_all board (pages_in pages lacking) (running n (decode bank.old))) }
    ensures few { stores_by result ≤ pages * slot_count }
{
    let mut stores = 0;
    for page in 0..pages {
        if lacking.has(page) {
            let giver = giver(bank, pages, page, false);
            stores += show(bank, pages, giver, board, page).map_err(|loss| loss.after(stores))?;
        }
    }
    Ok(stores)
}

// "owner records shown and flushes; reader records got copy, gains the copy and its bit", each page from its giver
fn read_fetch(bank: &mut [u8], pages: usize, board: usize, lacking: u16) -> Result<u32, Loss>
    requires { OfBank pages board bank.old × WellFormed (decode bank.old) × CanFetch GotCopy board (pages_in pages lacking) (decode bank.old) }
    ensures run { (n : ℕ) → Came bank.new (n + stores_by result) (loss_of result)
        (read_fetch board (pages_in pages lacking) (running n (decode bank.old))) }
    ensures few { stores_by result ≤ pages * slot_count }
{
    let stores = show_all(bank, pages, board, lacking)?;
    give_copies(bank, pages, board, lacking);
    Ok(stores)
}

// The writer's part: "writer records got own and flushes", with the page of the owner, by value.
fn get_own(
    bank: &mut [u8],
    pages: usize,
    owner: usize,
    board: usize,
    page: usize,
) -> Result<u32, Loss>
    requires { OfBank pages board bank.old × WellFormed (decode bank.old) × (owner < length (decode bank.old).boards)
        × ((board_at (decode bank.old) board).state ≡ Up) × RoomFor 1 (board_at (decode bank.old) board) × (page < pages) }
    ensures run { (n : ℕ) → Came bank.new (n + stores_by result) (loss_of result)
        (get_own owner board page (running n (decode bank.old))) }
    ensures few { stores_by result ≤ slot_count }
{
    let frame = page_frame(bank, pages, owner, page);
    log_through(
        bank,
        pages,
        board,
        Kind::Got(CopyOrOwn::GotOwn, page as u8),
        owner as u8,
        frame.bytes,
    )
    .map_err(|lost| Loss::of(board, lost))
}

// "owner records shown and flushes; writer records got own and flushes; then together .."
fn write_fetch(
    bank: &mut [u8],
    pages: usize,
    owner: usize,
    board: usize,
    page: usize,
) -> Result<u32, Loss>
    requires { OfBank pages board bank.old × WellFormed (decode bank.old) × CanFetch GotOwn board (page ∷ []) (decode bank.old)
        × (owner ≡ giver GotOwn (decode bank.old) page) }
    ensures run { (n : ℕ) → Came bank.new (n + stores_by result) (loss_of result) (write_fetch board page (running n (decode bank.old))) }
    ensures few { stores_by result ≤ 2 * slot_count }
{
    let shown = show(bank, pages, owner, board, page)?;
    let got = get_own(bank, pages, owner, board, page).map_err(|loss| loss.after(shown))?;
    pass_ownership(bank, pages, owner, board, page);
    Ok(shown + got)
}

// The fetch that brings copies of the lacking pages, or ownership of the one that is written.
pub fn fetch(
    bank: &mut [u8],
    pages: usize,
    board: usize,
    lacking: u16,
    written: Option<usize>,
) -> Result<u32, Loss>
    requires { OfBank pages board bank.old × WellFormed (decode bank.old)
        × CanFetch (got (is_some written)) board (pages_in pages lacking) (decode bank.old)
        × IfSome written (λ page. pages_in pages lacking ≡ page ∷ []) }
    ensures run { (n : ℕ) → Came bank.new (n + stores_by result) (loss_of result)
        (fetch (got (is_some written)) board (pages_in pages lacking) (running n (decode bank.old))) }
    ensures few { stores_by result ≤ most_pages * slot_count }
{
    match written {
        Some(page) => {
            let owner = giver(bank, pages, page, true);
            write_fetch(bank, pages, owner, board, page)
        }
        None => read_fetch(bank, pages, board, lacking),
    }
}
