//! Tokens of a module's text: where they stand, the first place where no token can be read, and what names, numbers and
//! strings spell.
#![tactic(auto)]

pub mod class;
pub mod forms;
pub mod laws;
pub mod piece;
pub mod scan;
pub mod spelled;
pub mod token;
