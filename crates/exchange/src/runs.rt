// Runs of stores of a board on a bank's bytes: what its block goes through, and its bits out of the directory where it lost its power.
ghost use Rattle.std.specs.Prelude.{◌≡◌, ◌≢◌, ℕ, ◌+◌, ◌≤◌};
ghost use Rattle.types.specs.declared.State.TheVariants.{Up, Replaying};
ghost use Rattle.model.specs.Definitions.Layout.{slot_count};
ghost use Rattle.model.specs.Definitions.Bank.{board_at};
ghost use Rattle.model.specs.Definitions.Codec.{decode};
ghost use Rattle.model.specs.Definitions.WellFormed.{WellFormed};
ghost use Rattle.model.specs.Definitions.Steps.{step, note, flush, checkpoint};
ghost use Rattle.model.specs.Clauses.{RoomFor, Recordable};
ghost use Rattle.stores.specs.Clauses.{stores_made, is_lost};
ghost use Rattle.copies.specs.Banks.{OfBank};
ghost use Rattle.exchange.specs.Progress.{running, lost_by, Came};

use format::layout::{block_at, block_size};
use steps::power::forget;
use stores::spend::PowerLost;
use stores::{checkpoint, flush};
use types::{Kind, PAGE_SIZE};

// A board notes a record and flushes: every record that another board is to rely on is stored before it goes on.
pub fn log_through(
    bank: &mut [u8],
    pages: usize,
    board: usize,
    kind: Kind,
    peer: u8,
    bytes: [u8; PAGE_SIZE],
) -> Result<u32, PowerLost>
    requires { OfBank pages board bank.old × WellFormed (decode bank.old) × ((board_at (decode bank.old) board).state ≡ Up)
        × RoomFor 1 (board_at (decode bank.old) board) × Recordable pages kind peer bytes }
    ensures run { (n : ℕ) → Came bank.new (n + stores_made result) (lost_by board (is_lost result))
        (flush board (step (note board kind peer bytes) (running n (decode bank.old)))) }
    ensures few { stores_made result ≤ slot_count }
{
    let a = block_at(pages, board);
    let size = block_size(pages);
    let stored = flush::log_through(&mut bank[a..a + size], pages, kind, peer, bytes);
    if stored.is_err() {
        forget(bank, pages, board);
    }
    stored
}

pub fn checkpoint(bank: &mut [u8], pages: usize, board: usize) -> Result<u32, PowerLost>
    requires { OfBank pages board bank.old × WellFormed (decode bank.old) × ((board_at (decode bank.old) board).state ≢ Replaying) }
    ensures run { (n : ℕ) → Came bank.new (n + stores_made result) (lost_by board (is_lost result))
        (checkpoint board (running n (decode bank.old))) }
    ensures few { stores_made result ≤ pages + 2 }
{
    let a = block_at(pages, board);
    let size = block_size(pages);
    let stored = checkpoint::checkpoint(&mut bank[a..a + size], pages);
    if stored.is_err() {
        forget(bank, pages, board);
    }
    stored
}
