// Reads, writes and cells read of a board, on a bank that is known to be well formed: live, or repeated from the log.
#![tactic(auto)]

pub mod ask;
pub mod blocks;
pub mod live;
pub mod need;
pub mod outcome;
pub mod replaying;
