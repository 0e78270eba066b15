// Where the parts stand in a bank: offsets, directory, block, areas; each part read and written there.
#![tactic(auto)]

pub mod area;
pub mod block;
pub mod directory;
pub mod layout;
pub mod selected;
pub mod spare;
