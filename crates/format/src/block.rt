// A board's block: its fixed fields, its frames and its volatile slots, on a slice that starts at the block's offset. A field's two functions are one call
// each of the generic readers and writers of `fields`: they name the field, its place and its width, which a place as argument would leave to the caller.
ghost use Rattle.std.specs.Prelude.{◌≡◌, true, [], ◌∷◌, ◌+◌, ◌*◌, ◌≤◌, length, eqb};
ghost use Rattle.words.specs.LittleEndian.{bytes_of, number_of};
ghost use Rattle.model.specs.Definitions.Parts.{part, splice, byte_at, zeros};
ghost use Rattle.model.specs.Definitions.Layout.{most_pages, fuse_size, number_size, since_size, frame_size, slot_size, state_at, selector_at, fuse_at, number_at};
ghost use Rattle.model.specs.Definitions.Layout.{since_at, place_at, volatile_count_at, frames_at, slots_at, slots_size};
ghost use Rattle.model.specs.Definitions.Codec.{state_byte, state_of, selector_byte, encode_frame, decode_frame, encode_record, decode_record};

use crate::layout::{
    FRAMES_AT, FUSE_AT, NUMBER_AT, PLACE_AT, SELECTOR_AT, SINCE_AT, STATE_AT, VOLATILE_COUNT_AT,
    slots_at,
};
use fields::bytes::{clear_at, get, get_number, put, put_number};
use fields::encoded::Encoded;
use fields::widths::{FRAME_SIZE, FUSE_SIZE, NUMBER_SIZE, SINCE_SIZE, SLOT_SIZE, SLOTS_SIZE};
use types::{Frame, Record, State};

// ---- state

pub fn read_state(block: &[u8]) -> State
    requires { frames_at ≤ length block.now }
    ensures { result ≡ state_of (byte_at block.now state_at) }
{
    State::from(get(block, STATE_AT))
}

pub fn write_state(block: &mut [u8], state: State)
    requires { frames_at ≤ length block.old }
    ensures { block.new ≡ splice block.old state_at (state_byte state ∷ []) }
{
    put(block, STATE_AT, u8::from(state));
}

// ---- selector: whether area 1 is the selected one

pub fn read_selector(block: &[u8]) -> bool
    requires { frames_at ≤ length block.now }
    ensures { result ≡ eqb (byte_at block.now selector_at) (selector_byte true) }
{
    get(block, SELECTOR_AT) == 1
}

// The flag is the byte that is written.
pub fn write_selector(block: &mut [u8], second: bool)
    requires { frames_at ≤ length block.old }
    ensures { block.new ≡ splice block.old selector_at (selector_byte second ∷ []) }
{
    put(block, SELECTOR_AT, u8::from(second));
}

// ---- fuse, access number, since

// A number and no Option: the definitions say it as the format does ("65,535 none"), and most callers put it back as they read it.
pub fn read_fuse(block: &[u8]) -> u16
    requires { frames_at ≤ length block.now }
    ensures { result ≡ number_of (part block.now fuse_at fuse_size) }
{
    get_number::<FUSE_SIZE>(block, FUSE_AT) as u16
}

pub fn write_fuse(block: &mut [u8], fuse: u16)
    requires { frames_at ≤ length block.old }
    ensures { block.new ≡ splice block.old fuse_at (bytes_of fuse_size fuse) }
{
    put_number::<FUSE_SIZE>(block, FUSE_AT, u64::from(fuse));
}

pub fn read_number(block: &[u8]) -> u32
    requires { frames_at ≤ length block.now }
    ensures { result ≡ number_of (part block.now number_at number_size) }
{
    get_number::<NUMBER_SIZE>(block, NUMBER_AT) as u32
}

pub fn write_number(block: &mut [u8], number: u32)
    requires { frames_at ≤ length block.old }
    ensures { block.new ≡ splice block.old number_at (bytes_of number_size number) }
{
    put_number::<NUMBER_SIZE>(block, NUMBER_AT, u64::from(number));
}

pub fn read_since(block: &[u8]) -> u32
    requires { frames_at ≤ length block.now }
    ensures { result ≡ number_of (part block.now since_at since_size) }
{
    get_number::<SINCE_SIZE>(block, SINCE_AT) as u32
}

pub fn write_since(block: &mut [u8], since: u32)
    requires { frames_at ≤ length block.old }
    ensures { block.new ≡ splice block.old since_at (bytes_of since_size since) }
{
    put_number::<SINCE_SIZE>(block, SINCE_AT, u64::from(since));
}

// ---- replay place, volatile count

pub fn read_place(block: &[u8]) -> u8
    requires { frames_at ≤ length block.now }
    ensures { result ≡ byte_at block.now place_at }
{
    get(block, PLACE_AT)
}

pub fn write_place(block: &mut [u8], place: u8)
    requires { frames_at ≤ length block.old }
    ensures { block.new ≡ splice block.old place_at (place ∷ []) }
{
    put(block, PLACE_AT, place);
}

pub fn read_volatile_count(block: &[u8]) -> u8
    requires { frames_at ≤ length block.now }
    ensures { result ≡ byte_at block.now volatile_count_at }
{
    get(block, VOLATILE_COUNT_AT)
}

pub fn write_volatile_count(block: &mut [u8], count: u8)
    requires { frames_at ≤ length block.old }
    ensures { block.new ≡ splice block.old volatile_count_at (count ∷ []) }
{
    put(block, VOLATILE_COUNT_AT, count);
}

// ---- the frame of a page

pub fn read_page_frame(block: &[u8], page: usize) -> Frame
    requires { frames_at + page * frame_size + frame_size ≤ length block.now }
    ensures { result ≡ decode_frame (part block.now (frames_at + page * frame_size) frame_size) }
{
    Frame::read_at(block, FRAMES_AT + page * FRAME_SIZE)
}

pub fn write_page_frame(block: &mut [u8], page: usize, frame: Frame)
    requires { frames_at + page * frame_size + frame_size ≤ length block.old }
    ensures { block.new ≡ splice block.old (frames_at + page * frame_size) (encode_frame frame) }
{
    frame.write_at(block, FRAMES_AT + page * FRAME_SIZE);
}

// ---- the volatile slot of an index

pub fn read_volatile(block: &[u8], pages: usize, index: usize) -> Record
    requires { (pages ≤ most_pages) × (slots_at pages + index * slot_size + slot_size ≤ length block.now) }
    ensures { result ≡ decode_record (part block.now (slots_at pages + index * slot_size) slot_size) }
{
    Record::read_at(block, slots_at(pages) + index * SLOT_SIZE)
}

pub fn write_volatile(block: &mut [u8], pages: usize, index: usize, r: Record)
    requires { (pages ≤ most_pages) × (slots_at pages + index * slot_size + slot_size ≤ length block.old) }
    ensures { block.new ≡ splice block.old (slots_at pages + index * slot_size) (encode_record r) }
{
    r.write_at(block, slots_at(pages) + index * SLOT_SIZE);
}

// "the volatile log is emptied and zeroed": all its slots.
pub fn clear_volatiles(block: &mut [u8], pages: usize)
    requires { (pages ≤ most_pages) × (slots_at pages + slots_size ≤ length block.old) }
    ensures { block.new ≡ splice block.old (slots_at pages) (zeros slots_size) }
{
    clear_at(block, slots_at(pages), SLOTS_SIZE);
}
