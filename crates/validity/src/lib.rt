// Whether bytes are a well-formed bank, tested part by part. Blocks and directory are slices, the form that document 01 names, with the width of since and
// whether records name a board beside them, as the definitions take them: what is asked of both is a clause (`BlockSized`).
#![tactic(auto)]

pub mod bank;
mod block;
pub mod counts;
mod parts;
mod slots;
