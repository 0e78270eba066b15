// A line's text, without the engine: what a line asks, what it prints, and the tally of lines.
#![tactic(auto)]

pub mod number;
pub mod print;
pub mod request;
pub mod tally;
pub mod text;
