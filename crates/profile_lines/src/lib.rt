//! One line of a profile: what it says, or what is wrong with it.
#![tactic(auto)]

pub mod cut;
mod hex;
pub mod keys;
pub mod lines;
mod name;
mod number;
pub mod profile;
mod site;
