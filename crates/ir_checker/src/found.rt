//! Where a cause is met in a function.
use ir_rules::fault::CheckCause;

/// A cause, and the number in its function of the instruction at which it is met.
#[derive(Clone, Copy)]
pub struct Found {
    pub place: u32,
    pub cause: CheckCause,
}
