//! The leaves of speculation, as tests.
#![tactic(auto)]

#[cfg(test)]
mod counts;
#[cfg(test)]
mod outputs;
#[cfg(test)]
mod partials;
#[cfg(test)]
mod profiles;
#[cfg(test)]
mod shadows;
