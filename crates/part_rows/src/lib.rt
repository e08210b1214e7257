//! The ground, the integers and the tokens, as tests.
#![tactic(auto)]

#[cfg(test)]
mod base;
#[cfg(test)]
mod integer_table;
#[cfg(test)]
mod integers;
#[cfg(test)]
mod other_integers;
#[cfg(test)]
mod tokens;
