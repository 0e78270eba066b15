// Document 01's calls, with F-1 to F-8 of document 02, on bytes of any length and content: each answers and leaves what the definitions say.
#![tactic(auto)]

pub mod access;
pub mod checkpoint;
pub mod clean;
pub mod compare;
pub mod convert;
pub mod fuse;
pub mod make;
pub mod restart;
