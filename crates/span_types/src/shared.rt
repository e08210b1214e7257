//! What workers may send each other and share.

use crate::journal::Journal;
use crate::piece::{MemDelta, Piece};
use crate::span::{Span, SpanEnd};
use pv_base::shared::may_be_shared;

/// Spans, pieces and journals may be shared.
pub fn spans_may_be_shared() {
    may_be_shared::<Span>();
    may_be_shared::<SpanEnd>();
    may_be_shared::<Piece>();
    may_be_shared::<MemDelta>();
    may_be_shared::<Journal>();
}
