//! Integers of widths 1 to 64, and the operations on them.
#![tactic(auto)]

mod arithmetic;
pub mod binary;
mod bits;
pub mod bytes;
pub mod cast;
pub mod compare;
mod division;
pub mod int;
pub mod laws;
pub mod ops;
mod promise;
pub mod reduce;
mod shifts;
pub mod sign;
