// A slot of a log: its 24 bytes as a record and back.
ghost use Rattle.std.specs.Prelude.{◌≡◌, length};
ghost use Rattle.model.specs.Definitions.Parts.{splice};
ghost use Rattle.model.specs.Definitions.Layout.{mark0_at, slot_size};
ghost use Rattle.model.specs.Definitions.Codec.{mark0, mark1, page_of, kind_of, encode_record, decode_record};
ghost use Rattle.fields.specs.SlotParts.{front_bytes};

use crate::bytes::{get_number, put_number, read_page, write_page};
use crate::encoded::Encoded;
use crate::widths::{
    MARK0_AT, MARK1_AT, RECORD_COUNT_AT, SINCE_SIZE, SLOT_BYTES_AT, SLOT_PAGE_AT, SLOT_PEER_AT,
    SLOT_SIZE,
};
use types::{CopyOrOwn, Kind, Record};

// "Marks: "GC" got copy, "GO" got own, "SH" shown, "DR" dropped."
pub const GOT_MARK0: u8 = b'G';

pub const COPY_MARK1: u8 = b'C';

pub const OWN_MARK1: u8 = b'O';

pub const SHOWN_MARK0: u8 = b'S';

pub const SHOWN_MARK1: u8 = b'H';

pub const DROPPED_MARK0: u8 = b'D';

pub const DROPPED_MARK1: u8 = b'R';

// The kind that a mark and a page stand for. (No From: it would have to stand in `types`, below the model's letters.)
#[tactic(auto, unfolding(model::specs::Definitions::Codec::kind_of))]
fn read_kind(m0: u8, m1: u8, page: u8) -> Kind
    ensures { result ≡ kind_of m0 m1 page }
{
    match (m0, m1) {
        (GOT_MARK0, COPY_MARK1) => Kind::Got(CopyOrOwn::GotCopy, page),
        (GOT_MARK0, _) => Kind::Got(CopyOrOwn::GotOwn, page),
        (SHOWN_MARK0, _) => Kind::Shown(page),
        _ => Kind::Dropped(page),
    }
}

// The first byte of a kind's mark.
#[tactic(auto, unfolding(model::specs::Definitions::Codec::mark0))]
fn first_mark(kind: Kind) -> u8
    ensures { result ≡ mark0 kind }
{
    match kind {
        Kind::Got(_, _) => GOT_MARK0,
        Kind::Shown(_) => SHOWN_MARK0,
        Kind::Dropped(_) => DROPPED_MARK0,
    }
}

// The second byte of a kind's mark; a got's says copy or own.
#[tactic(auto, unfolding(model::specs::Definitions::Codec::mark1))]
fn second_mark(kind: Kind) -> u8
    ensures { result ≡ mark1 kind }
{
    match kind {
        Kind::Got(CopyOrOwn::GotCopy, _) => COPY_MARK1,
        Kind::Got(CopyOrOwn::GotOwn, _) => OWN_MARK1,
        Kind::Shown(_) => SHOWN_MARK1,
        Kind::Dropped(_) => DROPPED_MARK1,
    }
}

// The page that a kind carries.
#[tactic(auto, unfolding(model::specs::Definitions::Codec::page_of))]
pub fn page_of(kind: Kind) -> u8
    ensures { result ≡ page_of kind }
{
    match kind {
        Kind::Got(_, page) | Kind::Shown(page) | Kind::Dropped(page) => page,
    }
}

// The first bytes of a slot: a kind's mark and page, and whom the record names.
fn write_front(slot: &mut [u8], kind: Kind, peer: u8)
    requires { length slot.old ≡ slot_size }
    ensures { slot.new ≡ splice slot.old mark0_at (front_bytes kind peer) }
{
    slot[MARK0_AT] = first_mark(kind);
    slot[MARK1_AT] = second_mark(kind);
    slot[SLOT_PAGE_AT] = page_of(kind);
    slot[SLOT_PEER_AT] = peer;
}

impl Encoded for Record {
    const SIZE: usize = SLOT_SIZE;

    ghost SIZE = { slot_size };

    ghost encode = { encode_record };

    ghost decode = { decode_record };

    fn read(s: &[u8]) -> Record {
        Record {
            count: get_number::<SINCE_SIZE>(s, RECORD_COUNT_AT) as u32,
            kind: read_kind(s[MARK0_AT], s[MARK1_AT], s[SLOT_PAGE_AT]),
            peer: s[SLOT_PEER_AT],
            bytes: read_page(s, SLOT_BYTES_AT),
        }
    }

    fn write(self, s: &mut [u8]) {
        write_front(s, self.kind, self.peer);
        put_number::<SINCE_SIZE>(s, RECORD_COUNT_AT, u64::from(self.count));
        write_page(s, SLOT_BYTES_AT, self.bytes);
    }
}
