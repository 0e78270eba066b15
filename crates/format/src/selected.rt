// The selected area of a block, read and appended to through its own part; nothing else in the block changes.
ghost use Rattle.std.specs.Prelude.{◌≡◌, [], ◌∷◌, ◌+◌, ◌*◌, ◌≤◌, ◌<◌, length};
ghost use Rattle.words.specs.LittleEndian.{number_of};
ghost use Rattle.model.specs.Definitions.Parts.{part, splice, byte_at};
ghost use Rattle.model.specs.Definitions.Layout.{most_pages, slot_count, number_size, frame_size, slot_size, frames_at, area_number_at, area_count_at, area_frames_at};
ghost use Rattle.model.specs.Definitions.Layout.{area_slots_at, area_size, block_size};
ghost use Rattle.model.specs.Definitions.Codec.{decode_frame, encode_record, decode_record};
ghost use Rattle.format.specs.Areas.{selected_at, selected_part, with_selected};

use crate::area;
use crate::block::read_selector;
use crate::layout::{area_at, area_size};
use types::{Frame, Record};

// Where the selected area stands in a block.
pub fn selected_at(block: &[u8], pages: usize) -> usize
    requires { (pages ≤ most_pages) × (frames_at ≤ length block.now) }
    ensures place { result ≡ selected_at pages block.now }
    ensures within { result + area_size pages ≤ block_size pages }
{
    area_at(pages, usize::from(read_selector(block)))
}

// The selected area, as its own part.
fn selected(block: &[u8], pages: usize) -> &[u8]
    requires { (pages ≤ most_pages) × (length block.now ≡ block_size pages) }
    ensures bytes { result.now ≡ selected_part pages block.now }
    ensures whole { length result.now ≡ area_size pages }
{
    let a = selected_at(block, pages);
    &block[a..a + area_size(pages)]
}

pub fn read_number(block: &[u8], pages: usize) -> u32
    requires { (pages ≤ most_pages) × (length block.now ≡ block_size pages) }
    ensures { result ≡ number_of (part (selected_part pages block.now) area_number_at number_size) }
{
    area::read_number(selected(block, pages))
}

pub fn read_stored_count(block: &[u8], pages: usize) -> u8
    requires { (pages ≤ most_pages) × (length block.now ≡ block_size pages) }
    ensures { result ≡ byte_at (selected_part pages block.now) area_count_at }
{
    area::read_stored_count(selected(block, pages))
}

pub fn read_page_frame(block: &[u8], pages: usize, page: usize) -> Frame
    requires { (pages ≤ most_pages) × (page < pages) × (length block.now ≡ block_size pages) }
    ensures { result ≡ decode_frame (part (selected_part pages block.now) (area_frames_at + page * frame_size) frame_size) }
{
    area::read_page_frame(selected(block, pages), page)
}

pub fn read_stored(block: &[u8], pages: usize, index: usize) -> Record
    requires { (pages ≤ most_pages) × (index < slot_count) × (length block.now ≡ block_size pages) }
    ensures { result ≡ decode_record (part (selected_part pages block.now) (area_slots_at pages + index * slot_size) slot_size) }
{
    area::read_stored(selected(block, pages), pages, index)
}

pub fn write_stored_count(block: &mut [u8], pages: usize, count: u8)
    requires { (pages ≤ most_pages) × (length block.old ≡ block_size pages) }
    ensures { block.new ≡ with_selected pages (λ a. splice a area_count_at (count ∷ [])) block.old }
{
    let a = selected_at(block, pages);
    let size = area_size(pages);
    area::write_stored_count(&mut block[a..a + size], count);
}

pub fn write_stored(block: &mut [u8], pages: usize, index: usize, r: Record)
    requires { (pages ≤ most_pages) × (index < slot_count) × (length block.old ≡ block_size pages) }
    ensures { block.new ≡ with_selected pages (λ a. splice a (area_slots_at pages + index * slot_size) (encode_record r)) block.old }
{
    let a = selected_at(block, pages);
    let size = area_size(pages);
    area::write_stored(&mut block[a..a + size], pages, index, r);
}
