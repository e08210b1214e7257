//! The ground of every crate: bytes and lists, places in a module and in memory, and the traits of the outside.
#![tactic(auto)]

pub mod bytes;
pub mod external;
pub mod host;
pub mod in_memory;
pub mod limits;
pub mod list;
pub mod name;
pub mod outside;
pub mod place;
pub mod shared;
pub mod want;
