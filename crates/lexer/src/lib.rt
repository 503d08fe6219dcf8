//! The item readers. Each takes the bytes of a message from an offset on and answers what stands there, the byte that
//! cannot stand there, or that the slice ended, with the state to go on from. Nothing is written. Message and offset
//! stay two parameters: nothing is asked of them, and a slice from the offset on costs what `scan` says.
#![tactic(auto)]

pub mod integer;
pub mod quoted;
pub mod register;
