//! How many turns the counted test of a loop leads into the loop, over numbers alone.
#![tactic(auto)]

mod arc;
pub mod test;
pub mod turns;
mod walk;
