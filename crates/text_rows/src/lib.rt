//! Texts that are read, and what is written of them, as tests.
#![tactic(auto)]

#[cfg(test)]
mod constants;
#[cfg(test)]
mod faulty_parts;
#[cfg(test)]
mod faulty_types;
#[cfg(test)]
mod forms;
#[cfg(test)]
mod instructions;
#[cfg(test)]
mod item_faults;
#[cfg(test)]
mod items;
#[cfg(test)]
mod large;
#[cfg(test)]
mod modules;
#[cfg(test)]
mod more_forms;
#[cfg(test)]
mod named;
#[cfg(test)]
mod refusals;
#[cfg(test)]
mod refused_words;
#[cfg(test)]
mod samples;
#[cfg(test)]
mod settled;
#[cfg(test)]
mod settled_items;
#[cfg(test)]
mod types;
