//! What workers may send each other and share.

use crate::program::Program;
use pv_base::shared::may_be_shared;

/// A program may be shared.
pub fn programs_may_be_shared() {
    may_be_shared::<Program>();
}
