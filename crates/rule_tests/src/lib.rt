//! Plain tests of what a module keeps that is read from text, and of all its rules.
#![tactic(auto)]

pub mod differing;
pub mod functions;
pub mod instructions;
pub mod levels;
pub mod meets;
pub mod reading;
pub mod tables;
pub mod within;
