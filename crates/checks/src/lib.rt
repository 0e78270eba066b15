// The tests with which calls begin: the bytes are a bank that has the board, and what an access is refused for on entry.
#![tactic(auto)]

pub mod admission;
pub mod bank;
pub mod entry;
pub mod refusal;
