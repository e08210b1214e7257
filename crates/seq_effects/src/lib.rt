//! What each instruction does in a frame, over any memory: its effect.
#![tactic(auto)]

pub mod accesses;
pub mod addresses;
pub mod flow;
pub mod numbers;
pub mod shared;
pub mod state;
pub mod values;
pub mod words;
