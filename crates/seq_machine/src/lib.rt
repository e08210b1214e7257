//! The sequential machine: one step over any memory, and the run of a program.
#![tactic(auto)]

pub mod acts;
mod execute;
pub mod machine;
pub mod run;
pub mod shared;
pub mod state;
