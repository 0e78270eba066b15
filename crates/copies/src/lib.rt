// What boards of a bank do to each other in memory: who gives a page, a copy given, copies dropped, a page passed on.
#![tactic(auto)]

pub mod boards;
pub mod copies;
pub mod givers;
pub mod state;
