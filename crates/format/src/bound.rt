//! The numbers that bound the work (01), as `Bound` defines them.

// Bytes of a message slice, at most.
pub const MESSAGE_BYTES: usize = 1048576;

// Rows, at most.
pub const ROWS: usize = 65536;

// Values on the stack, at most.
pub const STACK: usize = 4096;

// Marks, at most.
pub const MARKS: usize = 256;

// Words of the register table, at least.
pub const REGISTER_WORDS: usize = 256;
