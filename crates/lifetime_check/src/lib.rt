//! Objects that were to live no longer than a turn, and are alive at its end.
#![tactic(auto)]

pub mod alive;
