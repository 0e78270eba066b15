// Fetches between boards of a bank, and runs of stores on it: givers store first, then a writer its got, and a board may lose its power after each store.
#![tactic(auto)]

pub mod fetch;
pub mod progress;
pub mod runs;
