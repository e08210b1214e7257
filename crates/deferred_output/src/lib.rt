//! Output that turns printed beside each other, put into the order in which the turns would have printed it.
#![tactic(auto)]

pub mod laws;
pub mod order;
pub mod output;
