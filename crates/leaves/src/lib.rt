//! The texts of leaves: decimal digits, spans of the message, and what stands around them, stored part by part.
#![tactic(auto)]

pub mod decimal;
pub mod leaf;
pub mod output;
pub mod span;
