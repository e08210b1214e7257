//! Outputs of turns, and their order.

use pv_base::bytes::Bytes;

/// What one turn printed.
#[derive(Debug, Drop)]
pub struct TurnOutput {
    /// The turn's number in its span.
    pub turn: u64,
    pub bytes: Bytes,
}
