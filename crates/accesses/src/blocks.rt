// What an access does to its board's block: its cells read and then performed, or repeated from the log.
ghost use Rattle.std.specs.Prelude.{◌≡◌, false, map, ◌<◌, length};
ghost use Rattle.model.specs.Definitions.Layout.{last_since, last_number};
ghost use Rattle.model.specs.Definitions.Bank.{on_working};
ghost use Rattle.model.specs.Definitions.Codec.{encode_board};
ghost use Rattle.model.specs.Definitions.Steps.{Access, cells_asked, cell_byte, accessed};
ghost use Rattle.model.specs.Definitions.Replay.{took_due, replay_over};
ghost use Rattle.steps.specs.Blocks.{IsBlock, board_of};
ghost use Rattle.accesses.specs.Asks.{Stands, InRange};
ghost use Rattle.accesses.specs.BlockReplay.{replayed_board, replayed_to, Repeats};

use crate::ask::Ask;
use replay::got::take_due;
use replay::next::replay_over;
use replay::used::replay_access;
use steps::access::{gather, perform};

// The bytes of its cells, "in the asked order" (F-3), then the access itself.
pub fn perform_cells(block: &mut [u8], pages: usize, ask: Ask, cells: &[u8], out: &mut [u8])
    requires { IsBlock pages block.old × ((board_of pages block.old).working.number < last_number) × ((board_of pages block.old).working.since < last_since)
        × InRange pages ask cells.now (length out.old) }
    ensures read { out.new ≡ map (cell_byte (board_of pages block.old).working.frames) (cells_asked cells.now) }
    ensures did { (a : Access) → Stands pages a ask
        → block.new ≡ encode_board (on_working (accessed a) (board_of pages block.old)) }
{
    gather(block, pages, cells, out);
    perform(block, pages, ask.write);
}

// How far a replaying board came with an access: no record was left behind its gots and it goes on live, or it was repeated, as the last one or not.
#[derive(Clone, Copy)]
pub enum Replayed {
    Live,
    Last,
    Going,
}

// The gots that are due are taken; then the access is repeated, unless no record is left. The bytes are read before the end of replay drops rights.
pub fn replay(block: &mut [u8], pages: usize, ask: Ask, cells: &[u8], out: &mut [u8]) -> Replayed
    requires { IsBlock pages block.old × InRange pages ask cells.now (length out.old)
        × ((a : Access) × Stands pages a ask × Repeats a (board_of pages block.old)) }
    ensures read { replay_over (took_due (board_of pages block.old)) ≡ false → out.new
        ≡ map (cell_byte (took_due (board_of pages block.old)).working.frames) (cells_asked cells.now) }
    ensures did { (a : Access) → Stands pages a ask → Repeats a (board_of pages block.old)
        → (result ≡ replayed_to a (board_of pages block.old))
        × (block.new ≡ encode_board (replayed_board a (board_of pages block.old))) }
{
    take_due(block, pages);
    if replay_over(block, pages) {
        return Replayed::Live;
    }
    gather(block, pages, cells, out);
    replay_access(block, pages, ask.write);
    if replay_over(block, pages) {
        return Replayed::Last;
    }
    Replayed::Going
}
