//! The top call: words, files, the run, and what is put out and reported.
#![tactic(auto)]

pub mod laws;
pub mod requests;
pub mod top;
