// A bank of document 01's form written anew in today's: head, directory, blocks, each over its whole part; and slots past a count made zero in place.
#![tactic(auto)]

pub mod bank;
mod block;
pub mod clean;
