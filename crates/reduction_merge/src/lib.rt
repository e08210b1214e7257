//! Sums and folds that workers keep of the operands of a reduction, and what they make of a first value.
#![tactic(auto)]

pub mod laws;
pub mod partial;
mod sums;
