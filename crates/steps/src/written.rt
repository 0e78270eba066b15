ghost use Rattle.std.specs.Prelude.{◌<◌};
ghost use Rattle.model.specs.Definitions.Layout.{byte_values};

// The byte that a write leaves, and where. That it is a byte its type says to the lemmas too.
#[derive(Clone, Copy)]
pub struct CellWrite {
    pub page: usize,
    pub offset: usize,
    pub value: u8,
    ghost small: { value < byte_values },
}
