// Stable stores of one board, on its block: a flush and a checkpoint, each up to the store after which power is lost.
#![tactic(auto)]

pub mod checkpoint;
pub mod flush;
pub mod spend;
