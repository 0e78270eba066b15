// The calls for C: a bank is a pointer and a length, an answer one number (`pack`). Nothing is asked of the bytes.
#![tactic(auto)]

ghost use Rattle.std.specs.Prelude.{◌≡◌, length};
ghost use Rattle.model.specs.Definitions.Steps.{Read, Write, ReadCells};
ghost use Rattle.model.specs.Definitions.Calls.{make as making, call, buffer_after, Accessing, Checkpointing, Fusing, Restarting, Comparing};
ghost use Rattle.model.specs.Definitions.Older.{convert as converting, adopt as adopting, clean as cleaning};
ghost use Rattle.bank.specs.Clauses.{RepliedPacked};

use answers::pack::pack;
use engine::access::{read, read_cells, write};
use engine::checkpoint::checkpoint;
use engine::clean::clean;
use engine::compare::compare_logs;
use engine::convert::{adopt, convert};
use engine::fuse::fuse;
use engine::make::make;
use engine::restart::restart;

#[unsafe(no_mangle)]
pub extern "C" fn bank_make(bank: &mut [u8], boards: u32, pages: u32) -> u64
    ensures { RepliedPacked (making boards pages bank.old) result bank.new }
{
    pack(make(bank, boards, pages))
}

#[unsafe(no_mangle)]
pub extern "C" fn bank_read(bank: &mut [u8], board: u32, page: u32, offset: u32) -> u64
    ensures { RepliedPacked (call (Accessing board (Read page offset)) bank.old) result bank.new }
{
    pack(read(bank, board, page, offset))
}

#[unsafe(no_mangle)]
pub extern "C" fn bank_write(bank: &mut [u8], board: u32, page: u32, offset: u32, value: u32) -> u64
    ensures { RepliedPacked (call (Accessing board (Write page offset value)) bank.old) result bank.new }
{
    pack(write(bank, board, page, offset, value))
}

#[unsafe(no_mangle)]
pub extern "C" fn bank_shelf(bank: &mut [u8], board: u32, cells: &[u8], out: &mut [u8]) -> u64
    ensures reply { RepliedPacked (call (Accessing board (ReadCells cells.now (length out.old))) bank.old)
        result bank.new }
    ensures given { out.new
        ≡ buffer_after (call (Accessing board (ReadCells cells.now (length out.old))) bank.old) out.old }
{
    pack(read_cells(bank, board, cells, out))
}

#[unsafe(no_mangle)]
pub extern "C" fn bank_checkpoint(bank: &mut [u8], board: u32) -> u64
    ensures { RepliedPacked (call (Checkpointing board) bank.old) result bank.new }
{
    pack(checkpoint(bank, board))
}

#[unsafe(no_mangle)]
pub extern "C" fn bank_fuse(bank: &mut [u8], board: u32, stores: u32) -> u64
    ensures { RepliedPacked (call (Fusing board stores) bank.old) result bank.new }
{
    pack(fuse(bank, board, stores))
}

#[unsafe(no_mangle)]
pub extern "C" fn bank_restart(bank: &mut [u8], board: u32) -> u64
    ensures { RepliedPacked (call (Restarting board) bank.old) result bank.new }
{
    pack(restart(bank, board))
}

#[unsafe(no_mangle)]
pub extern "C" fn bank_convert(old: &[u8], new: &mut [u8]) -> u64
    ensures { RepliedPacked (converting old.now new.old) result new.new }
{
    pack(convert(old, new))
}

#[unsafe(no_mangle)]
pub extern "C" fn bank_adopt(bank: &[u8]) -> u64
    ensures { RepliedPacked (adopting bank.now) result bank.now }
{
    pack(adopt(bank))
}

#[unsafe(no_mangle)]
pub extern "C" fn bank_compare_logs(bank: &[u8], board: u32, other: u32) -> u64
    ensures { RepliedPacked (call (Comparing board other) bank.now) result bank.now }
{
    pack(compare_logs(bank, board, other))
}

#[unsafe(no_mangle)]
pub extern "C" fn bank_clean(bank: &mut [u8]) -> u64
    ensures { RepliedPacked (cleaning bank.old) result bank.new }
{
    pack(clean(bank))
}
