//! The ground of reading module text: tokens in hand, single tokens, what is passed over, types, constants and operands.
#![tactic(auto)]

pub mod constants;
pub mod cursor;
pub mod fault;
pub mod indices;
pub mod layouts;
pub mod leaves;
pub mod memory_types;
pub mod named;
pub mod names;
pub mod nested;
pub mod nested_constants;
pub mod operands;
pub mod passed;
pub mod promises;
pub mod tails;
pub mod types;
