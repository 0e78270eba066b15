// A block of the older form over a whole block of today's.
ghost use Rattle.std.specs.Prelude.{◌≡◌, ◌<◌, length};
ghost use Rattle.model.specs.Definitions.Parts.{splice};
ghost use Rattle.model.specs.Definitions.Layout.{area_size, area_at, block_size};
ghost use Rattle.model.specs.Definitions.Codec.{encode_area, decode_area_in, encode_board, decode_board_in};
ghost use Rattle.model.specs.Definitions.Older.{older};
ghost use Rattle.conversion.specs.Blocks.{OlderArea, OlderBlock, widened_working, widened_area};

use fields::bytes::{clear, copy, get_number, put_number};
use fields::widths::{OLDER_SINCE_SIZE, SINCE_SIZE, SLOTS_SIZE};
use format::block::clear_volatiles;
use format::layout::{
    PLACE_AT, SINCE_AT, area_at, area_at_in, area_size, area_size_in, area_slots_at, place_at_in,
    slots_at,
};

// An area: number, stored count and frames as they are; without a record its slots are zero.
fn write_area(old: &[u8], new: &mut [u8], pages: usize)
    requires { OlderArea pages old.now × (length new.old ≡ area_size pages) }
    ensures { new.new ≡ encode_area (decode_area_in older pages old.now) }
{
    let n = area_slots_at(pages);
    copy(old, 0, new, 0, n);
    clear(&mut new[n..n + SLOTS_SIZE]);
}

// What a power loss empties, and the fields before it: all as they are but since, which gets two bytes more, and the slots, which are zero.
fn write_working(old: &[u8], new: &mut [u8], pages: usize)
    requires { OlderBlock pages old.now × (length new.old ≡ block_size pages) }
    ensures { new.new ≡ splice new.old 0 (widened_working pages old.now) }
{
    copy(old, 0, new, 0, SINCE_AT);
    let since = get_number::<OLDER_SINCE_SIZE>(old, SINCE_AT);
    put_number::<SINCE_SIZE>(new, SINCE_AT, since);
    copy(
        old,
        place_at_in(OLDER_SINCE_SIZE),
        new,
        PLACE_AT,
        slots_at(pages) - PLACE_AT,
    );
    clear_volatiles(new, pages);
}

// An area of a block, each handed on as its own part.
fn write_area_at(old: &[u8], new: &mut [u8], pages: usize, area: usize)
    requires { OlderBlock pages old.now × (length new.old ≡ block_size pages) × (area < 2) }
    ensures { new.new ≡ splice new.old (area_at pages area) (widened_area pages area old.now) }
{
    let a = area_at_in(OLDER_SINCE_SIZE, pages, area);
    let n = area_size_in(OLDER_SINCE_SIZE, pages);
    let b = area_at(pages, area);
    let m = area_size(pages);
    write_area(&old[a..a + n], &mut new[b..b + m], pages);
}

pub fn write_block(old: &[u8], new: &mut [u8], pages: usize)
    requires { OlderBlock pages old.now × (length new.old ≡ block_size pages) }
    ensures { new.new ≡ encode_board (decode_board_in older pages old.now) }
{
    write_working(old, new, pages);
    write_area_at(old, new, pages, 0);
    write_area_at(old, new, pages, 1);
}
