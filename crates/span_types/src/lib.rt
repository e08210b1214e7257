//! The plain types of speculation: what a span is, what a worker hands over for a period, what the verdict on a period may say, and
//! what a run with speculation records. They have public fields and no code of their own.
#![tactic(auto)]

pub mod failure;
pub mod journal;
pub mod piece;
pub mod shared;
pub mod span;
