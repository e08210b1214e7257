//! Whole modules from their text.
#![tactic(auto)]

pub mod body;
pub mod function;
pub mod global;
pub mod item;
pub mod named;
pub mod names;
pub mod params;
pub mod place;
pub mod records;
pub mod scope;
pub mod skipped;
pub mod so_far;
pub mod whole;
