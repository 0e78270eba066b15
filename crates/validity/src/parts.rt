// Tests of the small parts of a bank, each on its own bytes: a page, a frame, a slot, a directory entry.
ghost use Rattle.std.specs.Prelude.{◌≡◌, ◌&&◌, ◌+◌, ◌*◌, ◌≤◌, ◌<◌, length};
ghost use Rattle.words.specs.LittleEndian.{number_of};
ghost use Rattle.model.specs.Definitions.Parts.{part};
ghost use Rattle.model.specs.Definitions.Layout.{most_boards, most_pages, byte_values, last_number, number_size, entry_size, page_size, frame_size, form_of, since_size};
ghost use Rattle.model.specs.Definitions.Layout.{slot_size_in};
ghost use Rattle.model.specs.Definitions.Codec.{decode_entry};
ghost use Rattle.model.specs.Definitions.Check.{is_zero, frame_valid, frames_valid, got_mark, bare_mark, slot_valid, peer_allowed, entry_valid, directory_valid};
ghost use Rattle.validity.specs.Pieces.{word_size, page_bits, Holders, record_valid};

use fields::sets::Set;
use fields::slot::{
    COPY_MARK1, DROPPED_MARK0, DROPPED_MARK1, GOT_MARK0, OWN_MARK1, SHOWN_MARK0, SHOWN_MARK1,
};
use fields::widths::{
    FRAME_BYTES_AT, FRAME_SIZE, MARK0_AT, MARK1_AT, NUMBER_SIZE, RIGHT_AT, SLOT_PAGE_AT,
    SLOT_PEER_AT,
};
use format::layout::{COPIES_AT, ENTRY_SIZE, OWNER_AT, slot_bytes_at_in};
use types::Right;

// The `n` bytes at a place are all zero: no bit is set in any, which takes no branch for each byte. For since, whose width is the form's, and for slots.
pub fn zero_run(s: &[u8], at: usize, n: usize) -> bool
    requires { at + n ≤ length s.now }
    ensures { result ≡ is_zero (part s.now at n) }
{
    let mut bits = 0u8;
    for b in &s[at..at + n] {
        bits |= *b;
    }
    bits == 0
}

const WORD_SIZE: usize = 2 * NUMBER_SIZE;

// Eight bytes as a number.
fn word(s: &[u8]) -> u64
    requires { length s.now ≡ word_size }
    ensures { result ≡ number_of s.now }
{
    u64::from_le_bytes(<[u8; WORD_SIZE]>::try_from(s).unwrap())
}

// The bits of the page at a place, of its two words joined: none is set where the page is zero.
fn page_bits(s: &[u8], at: usize) -> u64
    requires { at + page_size ≤ length s.now }
    ensures { result ≡ page_bits (part s.now at page_size) }
{
    let middle = at + WORD_SIZE;
    word(&s[at..middle]) | word(&s[middle..middle + WORD_SIZE])
}

fn zero_page(s: &[u8], at: usize) -> bool
    requires { at + page_size ≤ length s.now }
    ensures { result ≡ is_zero (part s.now at page_size) }
{
    page_bits(s, at) == 0
}

// The frame at a place is zero, its right and its page.
pub fn zero_frame(s: &[u8], at: usize) -> bool
    requires { at + frame_size ≤ length s.now }
    ensures { result ≡ is_zero (part s.now at frame_size) }
{
    u64::from(s[at]) | page_bits(s, at + FRAME_BYTES_AT) == 0
}

// A frame's right is in range, and its page zero under right none.
pub fn frame_valid(frame: &[u8]) -> bool
    requires { length frame.now ≡ frame_size }
    ensures { result ≡ frame_valid frame.now }
{
    let right = frame[RIGHT_AT];
    if right == u8::from(Right::None) {
        zero_page(frame, FRAME_BYTES_AT)
    } else {
        right <= u8::from(Right::Own)
    }
}

// The frames of all pages, from a place on.
pub fn frames_valid(s: &[u8], pages: usize, at: usize) -> bool
    requires { (at + pages * frame_size ≤ length s.now) × (pages ≤ most_pages) }
    ensures { result ≡ frames_valid pages at s.now }
{
    (0..pages).all(|page| {
        let a = at + page * FRAME_SIZE;
        frame_valid(&s[a..a + FRAME_SIZE])
    })
}

// The frames at two places. Where neither has a right, as most have none, both pages are tested at once.
pub fn frame_pair_valid(s: &[u8], first: usize, second: usize) -> bool
    requires { (first + frame_size ≤ length s.now) × (second + frame_size ≤ length s.now) }
    ensures { result ≡ (frame_valid (part s.now first frame_size) && frame_valid (part s.now second frame_size)) }
{
    if s[first] | s[second] == u8::from(Right::None) {
        page_bits(s, first + FRAME_BYTES_AT) | page_bits(s, second + FRAME_BYTES_AT) == 0
    } else {
        frame_valid(&s[first..first + FRAME_SIZE]) && frame_valid(&s[second..second + FRAME_SIZE])
    }
}

// The frames of all pages from two places on, two frames a turn.
pub fn frame_pairs_valid(s: &[u8], pages: usize, first: usize, second: usize) -> bool
    requires { (first + pages * frame_size ≤ length s.now) × (second + pages * frame_size ≤ length s.now) × (pages ≤ most_pages) }
    ensures { result ≡ (frames_valid pages first s.now && frames_valid pages second s.now) }
{
    (0..pages).all(|page| frame_pair_valid(
        s,
        first + page * FRAME_SIZE,
        second + page * FRAME_SIZE,
    ))
}

// Letter by letter: both marks of a got begin with the same one.
fn got_mark(m0: u8, m1: u8) -> bool
    ensures { result ≡ got_mark m0 m1 }
{
    m0 == GOT_MARK0 && matches!(m1, COPY_MARK1 | OWN_MARK1)
}

// The mark of shown or dropped: as numbers, so that both letters take one comparison.
fn bare_mark(m0: u8, m1: u8) -> bool
    ensures { result ≡ bare_mark m0 m1 }
{
    let mark = u16::from_le_bytes([m0, m1]);
    let shown = u16::from_le_bytes([SHOWN_MARK0, SHOWN_MARK1]);
    let dropped = u16::from_le_bytes([DROPPED_MARK0, DROPPED_MARK1]);
    mark == shown || mark == dropped
}

// A slot below a count holds a record: a mark, a page of the bank, and no page bytes unless it is a got, whose page is not looked at.
fn slot_valid(slot: &[u8], since: usize, pages: usize) -> bool
    requires { (since ≤ since_size) × (length slot.now ≡ slot_size_in (form_of since)) × (pages ≤ most_pages) }
    ensures { result ≡ slot_valid (form_of since) pages slot.now }
{
    if usize::from(slot[SLOT_PAGE_AT]) >= pages {
        return false;
    }
    if bare_mark(slot[MARK0_AT], slot[MARK1_AT]) {
        zero_page(slot, slot_bytes_at_in(since))
    } else {
        got_mark(slot[MARK0_AT], slot[MARK1_AT])
    }
}

// "this board below N and different from the log's own" (document 02, F-6); where no record names a board it is a zero byte.
// (`named` is of the form, as the definition has it.)
fn peer_allowed(peer: u8, named: bool, boards: usize, board: usize) -> bool
    ensures { result ≡ peer_allowed named boards board peer }
{
    if named {
        usize::from(peer) < boards && usize::from(peer) != board
    } else {
        peer == 0
    }
}

// A record of a board's log: whom it names, and the rest of its slot.
pub fn record_valid(
    slot: &[u8],
    since: usize,
    named: bool,
    boards: usize,
    pages: usize,
    board: usize,
) -> bool
    requires { (since ≤ since_size) × (length slot.now ≡ slot_size_in (form_of since)) × (pages ≤ most_pages) }
    ensures { result ≡ record_valid (form_of since) named boards pages board slot.now }
{
    peer_allowed(slot[SLOT_PEER_AT], named, boards, board) && slot_valid(slot, since, pages)
}

// A directory entry names a board of the bank, and copy holders that are boards and not the owner.
fn entry_valid(entry: &[u8], boards: usize) -> bool
    requires { (length entry.now ≡ entry_size) × (boards ≤ most_boards) }
    ensures { result ≡ entry_valid boards (decode_entry entry.now) }
{
    let owner = usize::from(entry[OWNER_AT]);
    let copies = entry[COPIES_AT];
    owner < boards && usize::from(copies) >> boards == 0 && !copies.has(owner)
}

// Every entry of the directory.
pub fn directory_valid(directory: &[u8], boards: usize, pages: usize) -> bool
    requires { (length directory.now ≡ pages * entry_size) × (boards ≤ most_boards) }
    ensures { result ≡ directory_valid boards pages directory.now }
{
    (0..pages).all(|page| {
        let a = page * ENTRY_SIZE;
        entry_valid(&directory[a..a + ENTRY_SIZE], boards)
    })
}

// The boards that hold a copy of some page, as one set. The contract says it of every bit.
pub fn all_holders(directory: &[u8], pages: usize) -> u8
    requires { length directory.now ≡ pages * entry_size }
    ensures { Holders pages directory.now result }
{
    let mut holders = 0u8;
    for page in 0..pages {
        holders |= directory[page * ENTRY_SIZE + COPIES_AT];
    }
    holders
}
