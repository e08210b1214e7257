//! Shadow codes: one number for each private byte of a worker's copy, which says what this worker did to that byte.
//!
//! 0 is untouched, 1 is written in an earlier period of the span, 2 is read in this period from before any write, and a
//! number from 3 on is the stamp of the turn of this period that wrote the byte last. The transitions are this project's
//! own, after the shadow metadata of speculative privatization.
#![tactic(auto)]

pub mod codes;
mod lanes;
