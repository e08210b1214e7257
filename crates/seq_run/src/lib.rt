//! The run of a program: its first state, whole runs, runs to a header, and what a run leaves.
#![tactic(auto)]

pub mod header;
pub mod headers;
pub mod outcome;
pub mod run;
pub mod start;
