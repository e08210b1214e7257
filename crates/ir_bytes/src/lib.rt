//! The first bytes of a module's globals, and the memory in which its program starts.
#![tactic(auto)]

pub mod image;
pub mod initial;
pub mod pieces;
