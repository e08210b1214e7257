//! The texts that a run and a check report.
#![tactic(auto)]

mod bytes;
mod put;
pub mod refusals;
pub mod report;
#[cfg(test)]
mod tests;
