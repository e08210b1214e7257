//! A program and a profile of it, generated from a number: what the speculative run is loaded with.
#![tactic(auto)]

pub mod load;
mod main_text;
mod module_text;
mod profile_text;
mod put;
