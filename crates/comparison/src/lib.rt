// Document 02, F-7: two boards' stored logs held against each other.
#![tactic(auto)]

mod naming;
mod pages;
pub mod unmatched;
