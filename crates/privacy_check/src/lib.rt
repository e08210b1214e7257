//! The private objects of a worker: what it read and wrote, byte by byte, as one code each.
#![tactic(auto)]

pub mod access;
pub mod laws;
mod object;
pub mod shadow;
