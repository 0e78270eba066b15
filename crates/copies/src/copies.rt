// Copies and ownership on a bank's bytes: a copy given, copies dropped, a page passed on. Frames go by value from block to block.
// The bank goes with its pages beside it. A struct of both holds a `&mut`: tried, it proves, but then each function says that the reference is the same and the
// pages are, beside the bank that it leaves, and the board's number stays in its `requires`.
ghost use Rattle.std.specs.Prelude.{◌≡◌, ◌≢◌, true, ℕ, ◌^◌, ◌<◌, length};
ghost use Rattle.model.specs.Definitions.Parts.{member};
ghost use Rattle.model.specs.Definitions.Bank.{board_at, entry_at, on_board};
ghost use Rattle.model.specs.Definitions.Codec.{decode};
ghost use Rattle.model.specs.Definitions.WellFormed.{FrameOk, EntryOk};
ghost use Rattle.model.specs.Definitions.Steps.{frame_of, give_copy, give_copies, dropped, drop_at, drop_copies, pass_ownership};
ghost use Rattle.model.specs.Clauses.{took_copy, took_own};
ghost use Rattle.model.specs.Clauses.{Space};
ghost use Rattle.copies.specs.Banks.{Holds, OfBank};
ghost use Rattle.copies.specs.Copies.{pages_in, CanGive};

use crate::boards::{drop_right, take_copy, take_own};
use crate::givers::giver;
use fields::copies::lowest_holder;
use fields::sets::Set;
use format::block::read_page_frame;
use format::directory::{read_copies, read_owner, write_entry};
use format::layout::{block_at, block_size};
use types::Frame;

// A board's frame of a page, by value.
pub fn page_frame(bank: &[u8], pages: usize, board: usize, page: usize) -> Frame
    requires { OfBank pages board bank.now × (page < pages) }
    ensures { (result ≡ frame_of (decode bank.now) board page) × FrameOk result }
{
    let a = block_at(pages, board);
    let size = block_size(pages);
    read_page_frame(&bank[a..a + size], page)
}

// ---- a copy given

fn copy_to(bank: &mut [u8], pages: usize, giver: u8, board: usize, page: usize, frame: Frame)
    requires { OfBank pages board bank.old × Space (board_at (decode bank.old) board) × (page < pages) × FrameOk frame }
    ensures { Holds bank.new (on_board board (took_copy giver page frame.bytes) (decode bank.old)) }
{
    let a = block_at(pages, board);
    let size = block_size(pages);
    take_copy(&mut bank[a..a + size], pages, giver, page, frame);
}

// "reader records got copy, gains the copy and its bit"
pub fn give_copy(bank: &mut [u8], pages: usize, giver: usize, board: usize, page: usize)
    requires { OfBank pages board bank.old × (giver < length (decode bank.old).boards) × Space (board_at (decode bank.old) board) × (page < pages) }
    ensures { Holds bank.new (give_copy giver board page (decode bank.old)) }
{
    let frame = page_frame(bank, pages, giver, page);
    copy_to(bank, pages, giver as u8, board, page, frame);
    let owner = read_owner(bank, page);
    let copies = read_copies(bank, page);
    write_entry(bank, page, owner, copies.with_member(board));
}

// "Only then are the copies taken, together. The got records follow each other, the later ones with count 0." (F-3)
pub fn give_copies(bank: &mut [u8], pages: usize, board: usize, lacking: u16)
    requires { OfBank pages board bank.old × CanGive board (pages_in pages lacking) (decode bank.old) }
    ensures { Holds bank.new (give_copies board (pages_in pages lacking) (decode bank.old)) }
{
    for page in 0..pages {
        if lacking.has(page) {
            let giver = giver(bank, pages, page, false);
            give_copy(bank, pages, giver, board, page);
        }
    }
}

// ---- rights dropped

fn drop_at(bank: &mut [u8], pages: usize, writer: u8, board: usize, page: usize)
    requires { OfBank pages board bank.old × Space (board_at (decode bank.old) board) × (page < pages) }
    ensures { Holds bank.new (on_board board (dropped writer page) (decode bank.old)) }
{
    let a = block_at(pages, board);
    let size = block_size(pages);
    drop_right(&mut bank[a..a + size], pages, writer, page);
}

// The boards of a set drop their right to the writer, the lowest first; no board sees another's drop.
fn drop_all(bank: &mut [u8], pages: usize, writer: u8, losers: u8, page: usize)
    requires { OfBank pages 0 bank.old × (losers < 2 ^ length (decode bank.old).boards) × (page < pages)
        × ((c : ℕ) → c < length (decode bank.old).boards → member c losers ≡ true → Space (board_at (decode bank.old) c)) }
    ensures { Holds bank.new (drop_at (λ c. member c losers) writer page (decode bank.old)) }
{
    let mut left = losers;
    while let Some(holder) = lowest_holder(left) {
        drop_at(bank, pages, writer, holder, page);
        left = left.without_member(holder);
    }
}

// "each holder records dropped and loses its copy, the copy-set empties"; the board is the writer.
pub fn drop_copies(bank: &mut [u8], pages: usize, board: usize, page: usize)
    requires { OfBank pages board bank.old × (page < pages) × EntryOk (length (decode bank.old).boards) (entry_at (decode bank.old) page)
        × ((c : ℕ) → c < length (decode bank.old).boards → member c (entry_at (decode bank.old) page).copies ≡ true
        → Space (board_at (decode bank.old) c)) }
    ensures { Holds bank.new (drop_copies board page (decode bank.old)) }
{
    let owner = read_owner(bank, page);
    let copies = read_copies(bank, page);
    drop_all(bank, pages, board as u8, copies, page);
    write_entry(bank, page, owner, 0);
}

// ---- a page passed on

fn own_to(bank: &mut [u8], pages: usize, board: usize, page: usize, frame: Frame)
    requires { OfBank pages board bank.old × (page < pages) × FrameOk frame }
    ensures { Holds bank.new (on_board board (took_own page frame.bytes) (decode bank.old)) }
{
    let a = block_at(pages, board);
    let size = block_size(pages);
    take_own(&mut bank[a..a + size], pages, page, frame);
}

// "then together owner and all copy holders but the writer record dropped and lose the right, the writer gains right own and the page,
// the directory names the writer, the copy-set empties"; the page is read before the old owner drops it.
pub fn pass_ownership(bank: &mut [u8], pages: usize, owner: usize, board: usize, page: usize)
    requires { OfBank pages board bank.old × (owner < length (decode bank.old).boards) × (owner ≢ board) × (page < pages)
        × EntryOk (length (decode bank.old).boards) (entry_at (decode bank.old) page) × (Space (board_at (decode bank.old) owner))
        × ((c : ℕ) → c < length (decode bank.old).boards → c ≢ board → member c (entry_at (decode bank.old) page).copies ≡ true
        → Space (board_at (decode bank.old) c)) }
    ensures { Holds bank.new (pass_ownership owner board page (decode bank.old)) }
{
    let passed = page_frame(bank, pages, owner, page);
    let copies = read_copies(bank, page);
    let losers = copies.without_member(board).with_member(owner);
    drop_all(bank, pages, board as u8, losers, page);
    own_to(bank, pages, board, page, passed);
    write_entry(bank, page, board as u8, 0);
}
