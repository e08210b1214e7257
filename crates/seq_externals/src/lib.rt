//! What calls of the functions outside a module do, over any memory: their effects.
#![tactic(auto)]

pub mod externals;
pub mod texts;
