// The spare area of a block, written through a part that starts mid-buffer; nothing else in the block changes.
ghost use Rattle.std.specs.Prelude.{◌≡◌, ◌+◌, ◌*◌, ◌≤◌, ◌<◌, length};
ghost use Rattle.model.specs.Definitions.Parts.{splice};
ghost use Rattle.model.specs.Definitions.Layout.{most_pages, frame_size, frames_at, area_frames_at, area_size, block_size};
ghost use Rattle.model.specs.Definitions.Codec.{encode_frame};
ghost use Rattle.format.specs.Areas.{spare_at, with_spare, head_stored};

use crate::block::read_selector;
use crate::layout::{area_at, area_size};
use types::Frame;

// Where the spare area stands in a block.
pub fn spare_at(block: &[u8], pages: usize) -> usize
    requires { (pages ≤ most_pages) × (frames_at ≤ length block.now) }
    ensures place { result ≡ spare_at pages block.now }
    ensures within { result + area_size pages ≤ block_size pages }
{
    area_at(pages, usize::from(!read_selector(block)))
}

// "one area frame", to the spare area
pub fn store_frame(block: &mut [u8], pages: usize, page: usize, frame: Frame)
    requires { (pages ≤ most_pages) × (page < pages) × (length block.old ≡ block_size pages) }
    ensures { block.new ≡ with_spare pages (λ a. splice a (area_frames_at + page * frame_size) (encode_frame frame)) block.old }
{
    let a = spare_at(block, pages);
    let size = area_size(pages);
    crate::area::write_page_frame(&mut block[a..a + size], page, frame);
}

// "one area head (number and stored count 0)" and its slots, of the spare area
pub fn store_head(block: &mut [u8], pages: usize, number: u32)
    requires { (pages ≤ most_pages) × (length block.old ≡ block_size pages) }
    ensures { block.new ≡ with_spare pages (head_stored pages number) block.old }
{
    let a = spare_at(block, pages);
    let size = area_size(pages);
    crate::area::store_head(&mut block[a..a + size], pages, number);
}
