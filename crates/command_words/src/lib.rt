//! The words of the command line, read by `clap`.
#![tactic(auto)]

pub mod command_line;
pub mod laws;
pub mod number;
pub mod numerals;
pub mod request;
pub mod taken;
pub mod texts;
pub mod usage;
pub mod values;
