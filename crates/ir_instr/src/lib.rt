//! Instructions of module text.
#![tactic(auto)]

pub mod addresses;
pub mod arithmetic;
pub mod calls;
pub mod casts;
pub mod comparing;
pub mod control;
pub mod defined;
pub mod flags;
pub mod forms;
pub mod instructions;
pub mod memory;
pub mod naming;
pub mod parts;
pub mod reading;
pub mod selecting;
pub mod switching;
pub mod words;
