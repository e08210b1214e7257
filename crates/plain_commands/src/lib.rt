//! The commands that run and check a module, from its file to the answer.
#![tactic(auto)]

pub mod answer;
pub mod commands;
pub mod loading;
pub mod status;
