//! The functions outside a module: which names are known, and what `printf` prints.
#![tactic(auto)]

pub mod directive;
pub mod laws;
pub mod names;
pub mod printing;
pub mod show;
