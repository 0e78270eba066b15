// The line runner: a line's work on the bank, and lines as bytes are fed. The program above it only reads, feeds and writes.
#![tactic(auto)]

pub mod feed;
pub mod line;
pub mod stream;
pub mod work;
