//! A checked module with its code: what the rules of a module say of its code and of the memory in which it starts.
#![tactic(auto)]

pub mod laws;
pub mod program;
pub mod shared;
