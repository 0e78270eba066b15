// What a call answers as document 01's numbers: code, value and who of each case, and the whole outcome as one number.
#![tactic(auto)]

pub mod numbers;
pub mod pack;
