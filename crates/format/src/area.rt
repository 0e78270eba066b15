// A checkpoint area: its number, stored count, frames and slots, on a slice that starts at the area's offset.
// A field's two functions are one call each of the generic readers and writers, as a block's are.
ghost use Rattle.std.specs.Prelude.{◌≡◌, [], ◌∷◌, ◌+◌, ◌*◌, ◌≤◌, length};
ghost use Rattle.words.specs.LittleEndian.{bytes_of, number_of};
ghost use Rattle.model.specs.Definitions.Parts.{part, splice, byte_at};
ghost use Rattle.model.specs.Definitions.Layout.{most_pages, number_size, frame_size, slot_size, slots_size, area_number_at, area_count_at, area_frames_at, area_slots_at};
ghost use Rattle.model.specs.Definitions.Codec.{encode_frame, decode_frame, encode_record, decode_record};
ghost use Rattle.format.specs.Areas.{head_stored};

use crate::layout::{AREA_COUNT_AT, AREA_FRAMES_AT, AREA_NUMBER_AT, area_slots_at};
use fields::bytes::{clear_at, get, get_number, put, put_number};
use fields::encoded::Encoded;
use fields::widths::{FRAME_SIZE, NUMBER_SIZE, SLOT_SIZE, SLOTS_SIZE};
use types::{Frame, Record};

// ---- number, stored count

pub fn read_number(area: &[u8]) -> u32
    requires { area_frames_at ≤ length area.now }
    ensures { result ≡ number_of (part area.now area_number_at number_size) }
{
    get_number::<NUMBER_SIZE>(area, AREA_NUMBER_AT) as u32
}

pub fn write_number(area: &mut [u8], number: u32)
    requires { area_frames_at ≤ length area.old }
    ensures { area.new ≡ splice area.old area_number_at (bytes_of number_size number) }
{
    put_number::<NUMBER_SIZE>(area, AREA_NUMBER_AT, u64::from(number));
}

pub fn read_stored_count(area: &[u8]) -> u8
    requires { area_frames_at ≤ length area.now }
    ensures { result ≡ byte_at area.now area_count_at }
{
    get(area, AREA_COUNT_AT)
}

pub fn write_stored_count(area: &mut [u8], count: u8)
    requires { area_frames_at ≤ length area.old }
    ensures { area.new ≡ splice area.old area_count_at (count ∷ []) }
{
    put(area, AREA_COUNT_AT, count);
}

// "one area head (number and stored count 0)", which "also zeroes its 32 slots" (document 02, F-8): one store
pub fn store_head(area: &mut [u8], pages: usize, number: u32)
    requires { (pages ≤ most_pages) × (area_slots_at pages + slots_size ≤ length area.old) }
    ensures { area.new ≡ head_stored pages number area.old }
{
    write_number(area, number);
    write_stored_count(area, 0);
    clear_at(area, area_slots_at(pages), SLOTS_SIZE);
}

// ---- the frame of a page

pub fn read_page_frame(area: &[u8], page: usize) -> Frame
    requires { area_frames_at + page * frame_size + frame_size ≤ length area.now }
    ensures { result ≡ decode_frame (part area.now (area_frames_at + page * frame_size) frame_size) }
{
    Frame::read_at(area, AREA_FRAMES_AT + page * FRAME_SIZE)
}

pub fn write_page_frame(area: &mut [u8], page: usize, frame: Frame)
    requires { area_frames_at + page * frame_size + frame_size ≤ length area.old }
    ensures { area.new ≡ splice area.old (area_frames_at + page * frame_size) (encode_frame frame) }
{
    frame.write_at(area, AREA_FRAMES_AT + page * FRAME_SIZE);
}

// ---- the stored slot of an index

pub fn read_stored(area: &[u8], pages: usize, index: usize) -> Record
    requires { (pages ≤ most_pages) × (area_slots_at pages + index * slot_size + slot_size ≤ length area.now) }
    ensures { result ≡ decode_record (part area.now (area_slots_at pages + index * slot_size) slot_size) }
{
    Record::read_at(area, area_slots_at(pages) + index * SLOT_SIZE)
}

pub fn write_stored(area: &mut [u8], pages: usize, index: usize, r: Record)
    requires { (pages ≤ most_pages) × (area_slots_at pages + index * slot_size + slot_size ≤ length area.old) }
    ensures { area.new ≡ splice area.old (area_slots_at pages + index * slot_size) (encode_record r) }
{
    r.write_at(area, area_slots_at(pages) + index * SLOT_SIZE);
}
