// The parts that a bank is made of, by value and as bytes: numbers, pages, frames, records in slots, sets of boards and of pages.
#![tactic(auto)]

pub mod bytes;
pub mod cells;
pub mod copies;
pub mod encoded;
pub mod frame;
pub mod sets;
pub mod slot;
pub mod widths;
