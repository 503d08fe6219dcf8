//! The UBF(A) format: the types that every crate shares, the bytes and their classes, and the paper's numbers.
#![tactic(auto)]

pub mod bound;
pub mod byte;
pub mod class;
pub mod kind;
pub mod refusal;

// The number of a row in a row table.
#[derive(Clone, Copy, Debug, PartialEq, Eq)]
pub struct Row(pub u32);

// A place in a message, counted in bytes from its start.
#[derive(Clone, Copy, Debug, PartialEq, Eq)]
pub struct Offset(pub usize);

// A stack depth: how many values lie below.
#[derive(Clone, Copy, Debug, PartialEq, Eq)]
pub struct Depth(pub usize);

// Words of a row.
pub const ROW_WORDS: usize = 4;
