//! The memory, the functions outside a module and the words, as tests.
#![tactic(auto)]

#[cfg(test)]
mod guarded;
#[cfg(test)]
mod lifetimes;
#[cfg(test)]
mod memories;
#[cfg(test)]
mod printing;
#[cfg(test)]
mod words;
