//! The memory of symbolic bytes: objects with names, pointers into them, and what every memory does at its calls.
#![tactic(auto)]

pub mod fault;
pub mod image;
pub mod laws;
pub mod memory;
pub mod object;
pub mod shared;
pub mod word;
