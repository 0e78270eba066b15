// A copy-set byte, "where bit b stands for board b": its ones and its lowest holder. One board in or out is as in any set.
ghost use Rattle.std.specs.Prelude.{◌≡◌, not, eqb, is_some, IfSome};
ghost use Rattle.std.specs.Int.Count.{ones, count_trailing_zeros};
ghost use Rattle.model.specs.Definitions.Layout.{most_boards};

// "How many copies are out is the number of ones in it."
pub fn count_copies(copies: u8) -> u32
    ensures { result ≡ ones copies }
{
    copies.count_ones()
}

// The lowest board with a copy, where one has it. (The test of 0 is the Option's: the library counts eight zeros there.)
pub fn lowest_holder(copies: u8) -> Option<usize>
    ensures some { is_some result ≡ not (eqb copies 0) }
    ensures lowest { IfSome result (λ b. b ≡ count_trailing_zeros most_boards copies) }
{
    if copies == 0 {
        None
    } else {
        Some(copies.trailing_zeros() as usize)
    }
}
