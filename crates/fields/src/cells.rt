// Cells asked as bytes: "page byte and offset byte" (document 02, F-3). Whether they are in range, whether they are as many as may be, which pages they name.
ghost use Rattle.std.specs.Prelude.{◌≡◌, ℕ, ◌≤◌};
ghost use Rattle.words.specs.Bytes.{Each};
ghost use Rattle.model.specs.Definitions.Parts.{every, member};
ghost use Rattle.model.specs.Definitions.Layout.{most_pages};
ghost use Rattle.model.specs.Definitions.Steps.{ReadCells, cells_asked, any_cell};
ghost use Rattle.model.specs.Definitions.Calls.{cell_in_range, wrong_cells};
ghost use Rattle.fields.specs.Cells.{CellIn};

use crate::sets::Set;
use types::PAGE_SIZE;

// "The front display wants up to 32 cells in one call."
pub const MOST_CELLS: usize = 32;

// "page ≥ P, offset ≥ 16": neither.
#[tactic(auto, unfolding(model::specs::Definitions::Calls::cell_in_range))]
fn cell_fits(pages: usize, page: u8, offset: u8) -> bool
    ensures { result ≡ cell_in_range pages (record { page = page; offset = offset }) }
{
    usize::from(page) < pages && usize::from(offset) < PAGE_SIZE
}

// The same of every cell, also past the 32nd; an odd last byte is no cell.
pub fn cells_fit(pages: usize, cells: &[u8]) -> bool
    ensures { result ≡ every (cell_in_range pages) (cells_asked cells.now) }
{
    for cell in cells.chunks_exact(2) {
        if !cell_fits(pages, cell[0], cell[1]) {
            return false;
        }
    }
    true
}

// "Zero cells, an odd byte, more than 32, or a second buffer of another length give code 10".
pub fn wrong_cells(cells: &[u8], room: usize) -> bool
    ensures { result ≡ wrong_cells (ReadCells cells.now room) }
{
    let count = cells.len() / 2;
    if count == 0 {
        return true;
    }
    if cells.len() % 2 == 1 {
        return true;
    }
    if MOST_CELLS < count {
        return true;
    }
    room != count
}

// The pages that the cells name, each once.
pub fn named_pages(pages: usize, cells: &[u8]) -> u16
    requires { Each (CellIn pages) (cells_asked cells.now) × (pages ≤ most_pages) }
    ensures { (p : ℕ) → member p result ≡ any_cell (cells_asked cells.now) p }
{
    let mut named: u16 = 0;
    for cell in cells.chunks_exact(2) {
        named = named.with_member(usize::from(cell[0]));
    }
    named
}
