//! A module with its names resolved: what the machine runs.
#![tactic(auto)]

mod addresses;
mod calls;
pub mod cases;
pub mod code;
mod edges;
mod exits;
mod families;
pub mod fixed;
mod functions;
mod joins;
mod lookups;
mod made;
pub mod op;
mod ops;
mod places;
mod registers;
mod scope;
pub mod strides;
