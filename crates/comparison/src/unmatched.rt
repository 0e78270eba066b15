// The gots of one board and the showns of another, place by place.
ghost use Rattle.std.specs.Prelude.{◌≡◌, ◌≤◌, ◌<◌, length, IfSome};
ghost use Rattle.model.specs.Definitions.Layout.{slot_count};
ghost use Rattle.model.specs.Definitions.Codec.{decode};
ghost use Rattle.model.specs.Definitions.Logs.{first_unmatched, unmatched_in};
ghost use Rattle.model.specs.Clauses.{IsBank};
ghost use Rattle.comparison.specs.Left.{pages_left};
ghost use Rattle.comparison.specs.Matched.{place_in, Found};

use crate::naming::{Naming, Wanted};
use crate::pages::board_pages;

// Whether the next shown has this page.
fn shows_page(showns: &mut Naming, page: u8) -> bool
    ensures { Found page (pages_left showns.old) (pages_left showns.new) result }
{
    match showns.next() {
        Some(shown) => shown == page,
        None => false,
    }
}

// "the i-th got .. must have the page of the i-th shown", counted from 1; a shown without a got is no fault.
fn first_unmatched(gots: Naming, mut showns: Naming) -> Option<u32>
    ensures first { result ≡ place_in (first_unmatched 1 (pages_left gots.entry) (pages_left showns.entry)) }
    ensures few { IfSome result (λ i. i ≤ slot_count) }
{
    for (i, page) in gots.enumerate() {
        if !shows_page(&mut showns, page) {
            return Some((i + 1) as u32);
        }
    }
    None
}

// The taker's gots from the giver against the giver's showns to the taker, both stored in the selected areas.
pub fn unmatched_in(bank: &[u8], pages: usize, giver: usize, taker: usize) -> Option<u32>
    requires { IsBank bank.now × (pages ≡ length (decode bank.now).directory) × (giver < length (decode bank.now).boards)
        × (taker < length (decode bank.now).boards) }
    ensures first { result ≡ place_in (unmatched_in giver taker (decode bank.now)) }
    ensures few { IfSome result (λ i. i ≤ slot_count) }
{
    let gots = board_pages(bank, pages, taker, Wanted::Gots, giver);
    let showns = board_pages(bank, pages, giver, Wanted::Showns, taker);
    first_unmatched(gots, showns)
}
