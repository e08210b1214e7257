//! The canonical text of a module.
#![tactic(auto)]

mod instructions;
mod items;
mod nested;
mod operands;
pub mod print;
mod spelling;
