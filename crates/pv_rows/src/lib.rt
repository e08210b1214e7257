//! Worked runs of the whole program, over files and sinks in memory.
#![tactic(auto)]

#[cfg(test)]
mod arithmetic;
#[cfg(test)]
mod calls;
#[cfg(test)]
mod calls_and_output;
#[cfg(test)]
mod control;
#[cfg(test)]
mod faults;
#[cfg(test)]
mod loops;
#[cfg(test)]
mod memory;
#[cfg(test)]
mod modules;
#[cfg(test)]
mod states;
#[cfg(test)]
mod statuses;
#[cfg(test)]
mod tables;
