// How large a bank may be.
ghost use Rattle.std.specs.Prelude.{◌≡◌, is_some, IfSome};
ghost use Rattle.model.specs.Definitions.Check.{sizes_allowed};
ghost use Rattle.model.specs.Definitions.WellFormed.{SizesOk};

use format::layout::{MOST_BOARDS, MOST_PAGES};

// "A bank has N boards (1 to 8) and P pages (1 to 16)": numbers that a bank may have of each.
#[derive(Clone, Copy)]
pub struct Sizes {
    pub boards: usize,
    pub pages: usize,
    ghost allowed: { SizesOk boards pages },
}

impl Sizes {
    // These, where a bank may have them.
    pub fn of(boards: u32, pages: u32) -> Option<Sizes>
        ensures some { is_some result ≡ sizes_allowed boards pages }
        ensures same { IfSome result (λ s. (s.boards ≡ boards) × (s.pages ≡ pages)) }
    {
        let (boards, pages) = (boards as usize, pages as usize);
        if 0 < boards && boards <= MOST_BOARDS && 0 < pages && pages <= MOST_PAGES {
            Some(Sizes { boards, pages })
        } else {
            None
        }
    }
}
