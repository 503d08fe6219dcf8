//! The machine in lent tables: where an item begins, what it answers, and a value pushed.
#![tactic(auto)]

pub mod start;
pub mod state;
pub mod value;
