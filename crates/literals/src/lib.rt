//! Items with bytes of their own: integers, atoms, strings, comments and tags, binaries.
#![tactic(auto)]

pub mod binary;
pub mod number;
pub mod text;
