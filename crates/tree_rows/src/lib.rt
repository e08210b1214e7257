//! Layouts of types, as tests.
#![tactic(auto)]

#[cfg(test)]
mod trees;
