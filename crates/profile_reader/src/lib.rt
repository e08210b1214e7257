//! Profiles: what a text says of a module's loops.
#![tactic(auto)]

mod lines;
mod put;
mod read;
mod reader;
mod repeats;

pub use profile_lines::profile::{
    FlowLine, ObjectName, PhiLine, PhiWord, Profile, ProfileCause, ProfileLoop, ProfileName,
    SiteName, UseLine, ValueLine,
};
pub use read::{ProfileEnd, ProfileError, read_profile};
