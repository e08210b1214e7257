//! What workers may send each other and share of trees and plans.

use crate::plans::{CheckAt, CheckLine, Expect, MemGuess, Tag, Triple};
use pv_base::shared::may_be_shared;

/// The parts of a plan may be shared.
pub fn plans_may_be_shared() {
    may_be_shared::<Tag>();
    may_be_shared::<Expect>();
    may_be_shared::<MemGuess>();
    may_be_shared::<Triple>();
    may_be_shared::<CheckLine>();
    may_be_shared::<CheckAt>();
}
