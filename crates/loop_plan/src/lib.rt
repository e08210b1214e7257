//! The plan of a profile, as types and as definitions: which loops are planned, what their turns may touch, and which check
//! lines stand beside the module. No code finds it here.
#![tactic(auto)]

pub mod laws;
pub mod plan;
pub mod shared;
