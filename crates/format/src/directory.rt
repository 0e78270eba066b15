// The directory, page by page: the owner and the copy-set, on the bytes of a whole bank; a field's reader is one call.
ghost use Rattle.std.specs.Prelude.{◌≡◌, ◌+◌, ◌*◌, ◌≤◌, length};
ghost use Rattle.model.specs.Definitions.Parts.{part, splice};
ghost use Rattle.model.specs.Definitions.Layout.{head_size, entry_size};
ghost use Rattle.model.specs.Definitions.Codec.{encode_entry, decode_entry};

use crate::layout::{COPIES_AT, ENTRY_SIZE, HEAD_SIZE, OWNER_AT};
use fields::bytes::{get, put};

pub fn read_owner(bank: &[u8], page: usize) -> u8
    requires { head_size + page * entry_size + entry_size ≤ length bank.now }
    ensures { result ≡ (decode_entry (part bank.now (head_size + page * entry_size) entry_size)).owner }
{
    get(bank, HEAD_SIZE + page * ENTRY_SIZE + OWNER_AT)
}

pub fn read_copies(bank: &[u8], page: usize) -> u8
    requires { head_size + page * entry_size + entry_size ≤ length bank.now }
    ensures { result ≡ (decode_entry (part bank.now (head_size + page * entry_size) entry_size)).copies }
{
    get(bank, HEAD_SIZE + page * ENTRY_SIZE + COPIES_AT)
}

pub fn write_entry(bank: &mut [u8], page: usize, owner: u8, copies: u8)
    requires { head_size + page * entry_size + entry_size ≤ length bank.old }
    ensures { bank.new ≡ splice bank.old (head_size + page * entry_size) (encode_entry (record { owner = owner; copies = copies })) }
{
    let at = HEAD_SIZE + page * ENTRY_SIZE;
    put(bank, at + OWNER_AT, owner);
    put(bank, at + COPIES_AT, copies);
}
