// The micro-steps of one board, on its block: each writes a few fields, and leaves the encoding of the stepped board. A block is a slice that starts at its
// offset, the form that document 01 names, with the number of pages beside it: so that it is a block is a clause (`IsBlock`) and not a type.
#![tactic(auto)]

pub mod access;
pub mod checkpoint;
pub mod fuse;
pub mod power;
pub mod records;
pub mod state;
pub mod written;
