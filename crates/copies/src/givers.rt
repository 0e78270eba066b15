// Who gives a page. Nobody is 8, as in the definition, of whose number the contract speaks. (The flag is a value to compare by, `got writes`.)
ghost use Rattle.std.specs.Prelude.{◌≡◌, ◌<◌};
ghost use Rattle.model.specs.Definitions.Bank.{entry_at};
ghost use Rattle.model.specs.Definitions.Codec.{decode};
ghost use Rattle.model.specs.Definitions.Steps.{giver};
ghost use Rattle.steps.specs.Asked.{got};
ghost use Rattle.copies.specs.Banks.{OfBank};

use crate::state::board_up;
use fields::copies::lowest_holder;
use format::directory::{read_copies, read_owner};
use format::layout::MOST_BOARDS;

// A read "is now served by the owner if up, otherwise by the lowest-numbered board in the copy-set"; "A write still needs the owner." (F-4)
pub fn giver(bank: &[u8], pages: usize, page: usize, writes: bool) -> usize
    requires { OfBank pages (entry_at (decode bank.now) page).owner bank.now × (page < pages) }
    ensures { result ≡ giver (got writes) (decode bank.now) page }
{
    let owner = usize::from(read_owner(bank, page));
    if writes || board_up(bank, pages, owner) {
        return owner;
    }
    lowest_holder(read_copies(bank, page)).unwrap_or(MOST_BOARDS)
}
