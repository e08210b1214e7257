//! The rules of a module as definitions, exact tests of their parts, and a module that keeps them.
#![tactic(auto)]

pub mod checked;
pub mod classes;
pub mod constants;
pub mod defining;
pub mod edges;
pub mod externals;
pub mod fault;
pub mod fitting;
pub mod flags;
pub mod forms;
pub mod given;
pub mod labels;
pub mod numbers;
pub mod operands;
pub mod parts;
pub mod paths;
pub mod tables;
pub mod together;
pub mod type_keys;
pub mod types;
pub mod typing;
pub mod whole;
