//! What workers may send each other and share.

use crate::state::{Frame, Value};
use pv_base::shared::may_be_shared;

/// What registers hold, and frames, may be shared.
pub fn frames_may_be_shared() {
    may_be_shared::<Value>();
    may_be_shared::<Frame>();
}
