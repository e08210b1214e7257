//! The trees of a module: names, types and constants by number, instructions, items, and the layout of types; and the small
//! parts of a plan that stands beside it.
#![tactic(auto)]

pub mod fields;
pub mod instruction;
pub mod items;
pub mod layout;
pub mod layouts;
pub mod nodes;
pub mod plans;
pub mod shared;
pub mod table;
pub mod whole;
