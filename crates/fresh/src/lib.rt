// A fresh bank: "all up, page p owned by board p mod N, every other right, byte, count and slot zero".
#![tactic(auto)]

pub mod bank;
pub mod block;
pub mod sizes;
