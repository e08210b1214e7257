//! Calls on states of the machine: copies, the place where a state stands, single changes of the top frame, and turns of a loop.
#![tactic(auto)]

pub mod change;
pub mod copy;
pub mod place;
pub mod result;
pub mod turn;
