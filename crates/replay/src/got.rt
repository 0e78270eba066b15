// The gots that are due in a replaying board's log: whether an access needs them, and the frames that they bring.
#![tactic(auto, using(steps::specs::BlockLaws::block_length))]

ghost use Rattle.std.specs.Prelude.{◌≡◌, ◌<◌, drop};
ghost use Rattle.model.specs.Definitions.Layout.{most_pages};
ghost use Rattle.model.specs.Definitions.Codec.{page_of, encode_board};
ghost use Rattle.model.specs.Definitions.Steps.{Access};
ghost use Rattle.model.specs.Definitions.Replay.{gots_due, same_got, differs, right_got, took_due};
ghost use Rattle.steps.specs.Asked.{got, Takes};
ghost use Rattle.steps.specs.Blocks.{IsBlock, board_of};
ghost use Rattle.replay.specs.Clauses.{first, fits, takes_got, took_first};

use crate::next::ready_at;
use crate::used::use_with_frame;
use fields::sets::Set;
use fields::slot::page_of;
use format::block::{read_place, read_since};
use format::selected;
use steps::access::lacking_pages;
use types::{CopyOrOwn, Frame, Kind, Record, Right};

// The got at a place, if it is due there: "A got record is due when it is next and its count equals since."
fn due_at(block: &[u8], pages: usize, place: usize, since: u32) -> Option<Record>
    requires { IsBlock pages block.now }
    ensures { result ≡ first (gots_due (drop place (board_of pages block.now).stable.selected.log) since) }
{
    let next = ready_at(block, pages, place, since)?;
    matches!(next.kind, Kind::Got(..)).then_some(next)
}

// Whether a got is of the kind that an access takes: a read a copy, a write ownership. (Here and below the flag is a value to compare by; it chooses no step.)
#[tactic(auto, unfolding(model::specs::Definitions::Replay::same_got, steps::specs::Asked::got))]
fn serves(brought: CopyOrOwn, writes: bool) -> bool
    ensures { result ≡ same_got brought (got writes) }
{
    match brought {
        CopyOrOwn::GotCopy => !writes,
        CopyOrOwn::GotOwn => writes,
    }
}

// "an access that needs it: its page, a read with right none for copy, a write without right own for own"; "if their pages rise" (document 02, F-3)
fn needs_got(kind: Kind, writes: bool, lacking: u16, lowest: usize) -> bool
    requires { page_of kind < most_pages }
    ensures { result ≡ fits (got writes) lacking lowest kind }
{
    match kind {
        Kind::Got(brought, page) => {
            lowest <= usize::from(page) && lacking.has(usize::from(page)) && serves(brought, writes)
        }
        Kind::Shown(_) | Kind::Dropped(_) => false,
    }
}

// Code 5: "a got is due and the access doesn't need it, or the access lacks a right and no fitting got is due"; of several gots, "a call that doesn't need
// them all gets code 5" (document 02, F-3). Where no record is left, what is lacking then is fetched live.
pub fn differs(block: &[u8], pages: usize, named: u16, writes: bool) -> bool
    requires { IsBlock pages block.now }
    ensures { (a : Access) → Takes pages a writes named → result ≡ differs a (board_of pages block.now) }
{
    let stored = usize::from(selected::read_stored_count(block, pages));
    let mut lacking = lacking_pages(block, pages, named, writes);
    let mut since = read_since(block);
    let mut lowest = 0;
    for place in usize::from(read_place(block))..stored {
        let Some(got) = due_at(block, pages, place, since) else {
            return lacking != 0;
        };
        if !needs_got(got.kind, writes, lacking, lowest) {
            return true;
        }
        let page = usize::from(page_of(got.kind));
        lacking = lacking.without_member(page);
        lowest = page + 1;
        since = 0;
    }
    false
}

// The right that a got brings. (No `From`: it would have to stand in `types`, where a kind has no right.)
#[tactic(auto, unfolding(model::specs::Definitions::Replay::right_got))]
fn right_got(kind: Kind) -> Right
    ensures { result ≡ right_got kind }
{
    match kind {
        Kind::Got(CopyOrOwn::GotCopy, _) => Right::Copy,
        Kind::Got(CopyOrOwn::GotOwn, _) => Right::Own,
        Kind::Shown(_) | Kind::Dropped(_) => Right::None,
    }
}

// The frame that a got brings: "its right and bytes".
fn got_frame(value: Record) -> Frame
    ensures { result ≡ record { right = right_got value.kind; bytes = value.bytes } }
{
    let bytes = value.bytes;
    Frame {
        right: right_got(value.kind),
        bytes,
    }
}

// The next got used, if it is due: "The frame then takes its right and bytes, and since becomes 0."; says whether it was.
fn take_got(block: &mut [u8], pages: usize) -> bool
    requires { IsBlock pages block.old }
    ensures { (result ≡ takes_got (board_of pages block.old))
        × (block.new ≡ encode_board (took_first (board_of pages block.old))) }
{
    let place = usize::from(read_place(block));
    let Some(got) = due_at(block, pages, place, read_since(block)) else {
        return false;
    };
    let page = usize::from(page_of(got.kind));
    use_with_frame(block, pages, page, got_frame(got));
    true
}

// "a due got and the count 0 gots right behind it go together" (document 02, F-3). Without one nothing changes. (One function for this and `use_up` would take
// the step as a closure, and be longer than both.)
pub fn take_due(block: &mut [u8], pages: usize)
    requires { IsBlock pages block.old }
    ensures { block.new ≡ encode_board (took_due (board_of pages block.old)) }
{
    while take_got(block, pages) {}
}
