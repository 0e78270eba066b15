// Restart and replay on a board's block: the checkpoint loaded, its records used one by one, the gots that an access takes, and the end.
#![tactic(auto)]

pub mod end;
pub mod got;
pub mod next;
pub mod restart;
pub mod settle;
pub mod used;
