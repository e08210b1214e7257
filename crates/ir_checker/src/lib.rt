//! The test of a module by its rules: exactly the modules without a fault pass, and of another the first fault is answered.
#![tactic(auto)]

pub mod calls;
pub mod causes;
pub mod check;
pub mod constant_keys;
pub mod edges;
pub mod facts;
pub mod faults;
pub mod firsts;
pub mod found;
pub mod index;
pub mod keys;
pub mod kinds;
pub mod known;
pub mod meeting;
pub mod operands;
pub mod phis;
pub mod scope;
