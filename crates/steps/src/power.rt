// A power loss: the board's bits out of the directory, its block emptied but for its stable areas.
#![tactic(auto, using(crate::specs::BlockLaws::block_length))]

ghost use Rattle.std.specs.Prelude.{◌≡◌, map, ◌+◌, ◌*◌, ◌≤◌, ◌<◌, length};
ghost use Rattle.model.specs.Definitions.Parts.{part, splice};
ghost use Rattle.model.specs.Definitions.Layout.{most_boards, head_size, entry_size};
ghost use Rattle.model.specs.Definitions.Codec.{encode_entry, decode_entry, encode_board, encode, decode};
ghost use Rattle.model.specs.Definitions.Steps.{forgotten, powered_off, power_off};
ghost use Rattle.model.specs.Clauses.{IsBank};
ghost use Rattle.steps.specs.Blocks.{IsBlock, board_of};

use fields::bytes::clear_at;
use fields::sets::Set;
use format::block::{write_fuse, write_state};
use format::directory::{read_copies, read_owner, write_entry};
use format::layout::{NO_FUSE, NUMBER_AT, area_at, block_at, block_size};
use types::State;

// "Cut: frames, since, access number, replay place, volatile log and slots become zero, fuse none, state dark"
pub fn wipe(block: &mut [u8], pages: usize)
    requires { IsBlock pages block.old }
    ensures { block.new ≡ encode_board (powered_off (board_of pages block.old)) }
{
    write_state(block, State::Down);
    write_fuse(block, NO_FUSE);
    clear_at(block, NUMBER_AT, area_at(pages, 0) - NUMBER_AT);
}

// A page's copy-set without the board's bit.
fn forget_page(bank: &mut [u8], page: usize, board: usize)
    requires { (head_size + page * entry_size + entry_size ≤ length bank.old) × (board < most_boards) }
    ensures { bank.new ≡ splice bank.old (head_size + page * entry_size)
        (encode_entry (forgotten board (decode_entry (part bank.old (head_size + page * entry_size) entry_size)))) }
{
    let owner = read_owner(bank, page);
    let copies = read_copies(bank, page);
    write_entry(bank, page, owner, copies.without_member(board));
}

// "its copy-set bits 0"
pub fn forget(bank: &mut [u8], pages: usize, board: usize)
    requires { IsBank bank.old × (pages ≡ length (decode bank.old).directory) × (board < most_boards) }
    ensures { bank.new ≡ encode (record {
      directory = map (forgotten board) (decode bank.old).directory;
      boards =
          (decode bank.old).boards;
    }) }
{
    for page in 0..pages {
        forget_page(bank, page, board);
    }
}

// The whole of a cut.
pub fn power_off(bank: &mut [u8], pages: usize, board: usize)
    requires { IsBank bank.old × (pages ≡ length (decode bank.old).directory) × (board < length (decode bank.old).boards) }
    ensures { bank.new ≡ encode (power_off board (decode bank.old)) }
{
    forget(bank, pages, board);
    let a = block_at(pages, board);
    let size = block_size(pages);
    wipe(&mut bank[a..a + size], pages);
}
