// The pages of the stored records, gots or showns, that name a board, in the order of the log.
ghost use Rattle.std.specs.Prelude.{◌≡◌, ◌&&◌, ◌≤◌, eqb, length};
ghost use Rattle.std.specs.Iterator.{YieldsFirst, item_count};
ghost use Rattle.model.specs.Definitions.Layout.{most_pages, slot_count, block_size};
ghost use Rattle.comparison.specs.Naming.{wanted, pages_from};

use fields::slot::page_of;
use format::selected;
use std::ops::Range;
use types::{Kind, Record};

// What is looked for in a log.
#[derive(Clone, Copy, PartialEq, Eq)]
pub enum Wanted {
    Gots,
    Showns,
}

// A shown, or else a got, whether copy or own.
fn of_kind(kind: Kind, looked_for: Wanted) -> bool
    ensures { result ≡ wanted looked_for kind }
{
    match kind {
        Kind::Got(_, _) => looked_for == Wanted::Gots,
        Kind::Shown(_) => looked_for == Wanted::Showns,
        Kind::Dropped(_) => false,
    }
}

// A record of that kind that names this board.
fn names(value: Record, looked_for: Wanted, peer: u8) -> bool
    ensures { result ≡ (wanted looked_for value.kind && eqb value.peer peer) }
{
    of_kind(value.kind, looked_for) && value.peer == peer
}

// The pages of such records of a block, from the next place of its log that is not yet read.
#[derive(Drop)]
pub struct Naming<'a> {
    pub block: &'a [u8],
    pub pages: usize,
    pub looked_for: Wanted,
    pub peer: u8,
    pub left: Range<usize>,
    ghost few_pages: { pages ≤ most_pages },
    ghost is_block: { length block.now ≡ block_size pages },
    ghost few: { left.end ≤ slot_count },
}

impl<'a> Iterator for Naming<'a> {
    type Item = u8;

    ghost next_gives = { YieldsFirst (λ s. pages_from s.looked_for s.peer s.pages s.block.now s.left.start s.left.end) };

    ghost remaining = { item_count (λ s. pages_from s.looked_for s.peer s.pages s.block.now s.left.start s.left.end) };

    fn next(&mut self) -> Option<u8> {
        while let Some(i) = self.left.next() {
            let value = selected::read_stored(self.block, self.pages, i);
            if names(value, self.looked_for, self.peer) {
                return Some(page_of(value.kind));
            }
        }
        None
    }
}
