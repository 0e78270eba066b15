// An access of a replaying board, and the end of replay on a bank's bytes.
ghost use Rattle.std.specs.Prelude.{◌≡◌, false, map, ℕ, ◌+◌, ◌*◌, ◌≤◌, length, eqb};
ghost use Rattle.types.specs.declared.State.TheVariants.{Replaying};
ghost use Rattle.model.specs.Definitions.Layout.{most_pages, slot_count};
ghost use Rattle.model.specs.Definitions.Bank.{board_at, entry_at, on_board};
ghost use Rattle.model.specs.Definitions.Codec.{decode};
ghost use Rattle.model.specs.Definitions.Steps.{Access, cells_asked, cells_read, cell_byte};
ghost use Rattle.model.specs.Definitions.Replay.{took_due, replay_over, end_replay};
ghost use Rattle.model.specs.Definitions.Calls.{replaying, live_after_end};
ghost use Rattle.model.specs.Clauses.{WellFormedBut, InReplay};
ghost use Rattle.stores.specs.Clauses.{stores_made, is_lost};
ghost use Rattle.copies.specs.Banks.{OfBank, Holds};
ghost use Rattle.exchange.specs.Progress.{running, lost_by, Came};
ghost use Rattle.accesses.specs.Asks.{Stands, GoesOn, Enters, Asks, InRange};
ghost use Rattle.accesses.specs.Results.{Answered};
ghost use Rattle.accesses.specs.BlockReplay.{replayed_board, replayed_to, Repeats};
ghost use Rattle.accesses.specs.Ends.{set_from};

use crate::ask::Ask;
use crate::blocks;
use crate::blocks::Replayed;
use crate::live::live;
use crate::outcome::ended;
use format::directory::read_owner;
use format::layout::{block_at, block_size};
use replay::end;
use steps::power::forget;
use stores::spend::PowerLost;
use types::{Answer, Outcome};

// The pages that the directory gives a board, of which bit p stands for page p.
fn owned_pages(bank: &[u8], pages: usize, board: usize) -> u16
    requires { OfBank pages board bank.now }
    ensures { result ≡ set_from (λ p. eqb (entry_at (decode bank.now) p).owner board) 0 pages }
{
    let mut owned = 0;
    for page in (0..pages).rev() {
        owned *= 2;
        if usize::from(read_owner(bank, page)) == board {
            owned += 1;
        }
    }
    owned
}

// "End of replay": rights by the directory, state up, a checkpoint; the board's bits leave the directory where that lost its power.
pub fn end_replay(bank: &mut [u8], pages: usize, board: usize) -> Result<u32, PowerLost>
    requires { OfBank pages board bank.old × WellFormedBut board InReplay (decode bank.old) }
    ensures run { (n : ℕ) → Came bank.new (n + stores_made result) (lost_by board (is_lost result)) (end_replay board (running n (decode bank.old))) }
    ensures few { stores_made result ≤ pages + 2 }
{
    let owned = owned_pages(bank, pages, board);
    let a = block_at(pages, board);
    let size = block_size(pages);
    let stored = end::end_replay(&mut bank[a..a + size], pages, owned);
    if stored.is_err() {
        forget(bank, pages, board);
    }
    stored
}

// The replaying board's block goes through the access.
fn replay_at(bank: &mut [u8], pages: usize, ask: Ask, cells: &[u8], out: &mut [u8]) -> Replayed
    requires { OfBank pages ask.board bank.old × InRange pages ask cells.now (length out.old)
        × ((a : Access) × Stands pages a ask × Repeats a (board_at (decode bank.old) ask.board)) }
    ensures read { replay_over (took_due (board_at (decode bank.old) ask.board)) ≡ false → out.new
        ≡ map (cell_byte (took_due (board_at (decode bank.old) ask.board)).working.frames) (cells_asked cells.now) }
    ensures did { (a : Access) → Stands pages a ask → Repeats a (board_at (decode bank.old) ask.board)
        → (result ≡ replayed_to a (board_at (decode bank.old) ask.board))
        × Holds bank.new (on_board ask.board (replayed_board a) (decode bank.old)) }
{
    let a = block_at(pages, ask.board);
    let size = block_size(pages);
    blocks::replay(&mut bank[a..a + size], pages, ask, cells, out)
}

// "An access whose got was the last record then goes on live", unless the end's own checkpoint blew the fuse.
fn go_on_live(
    bank: &mut [u8],
    boards: usize,
    pages: usize,
    ask: Ask,
    cells: &[u8],
    out: &mut [u8],
) -> Outcome
    requires { OfBank pages ask.board bank.old × (boards ≡ length (decode bank.old).boards) × InRange pages ask cells.now (length out.old)
        × WellFormedBut ask.board InReplay (decode bank.old) × ((a : Access) × GoesOn pages a ask (decode bank.old)) }
    ensures run { (a : Access) → GoesOn pages a ask (decode bank.old) → cells_read a ≡ cells_asked cells.now
        → Answered a bank.new result 0
        (live_after_end ask.board a (end_replay ask.board (running 0 (decode bank.old)))) out.new }
    ensures few { result.stores ≤ most_pages * slot_count + pages + 2 }
{
    let stored = end_replay(bank, pages, ask.board);
    let Ok(stores) = stored else {
        return ended(0, ask.board, stored);
    };
    let outcome = live(bank, boards, pages, ask, cells, out);
    Outcome {
        stores: stores + outcome.stores,
        ..outcome
    }
}

// As for a live access, the answer of a done one has value 0 here, and the bytes that it read are in the buffer.
pub fn replay(
    bank: &mut [u8],
    boards: usize,
    pages: usize,
    ask: Ask,
    cells: &[u8],
    out: &mut [u8],
) -> Outcome
    requires { Asks boards pages ask bank.old × InRange pages ask cells.now (length out.old)
        × ((board_at (decode bank.old) ask.board).state ≡ Replaying) × ((a : Access) × Enters pages a ask (decode bank.old)) }
    ensures run { (a : Access) → Enters pages a ask (decode bank.old) → cells_read a ≡ cells_asked cells.now
        → Answered a bank.new result 0 (replaying ask.board a (decode bank.old)) out.new }
    ensures few { result.stores ≤ most_pages * slot_count + pages + 2 }
{
    match replay_at(bank, pages, ask, cells, out) {
        Replayed::Live => go_on_live(bank, boards, pages, ask, cells, out),
        Replayed::Last => ended(0, ask.board, end_replay(bank, pages, ask.board)),
        Replayed::Going => Outcome {
            answer: Answer::Done(0),
            stores: 0,
        },
    }
}
