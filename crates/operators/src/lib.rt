//! Items with no bytes of their own to keep: white space, `{` and `}`, `#` and `&`, `>` and registers, `$`.
#![tactic(auto)]

pub mod end;
pub mod list;
pub mod register;
pub mod tuple;
pub mod white;
