use steps::written::CellWrite;

// What an access asks for, by value: the pages that it names, as a set, and the byte that it writes, if it is a write.
// The cells that it reads stand beside it, as bytes.
#[derive(Clone, Copy)]
pub struct Ask {
    pub board: usize,
    pub named: u16,
    pub write: Option<CellWrite>,
}
