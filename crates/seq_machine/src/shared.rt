//! What workers may send each other and share.

use crate::state::{Outcome, State};
use pv_base::shared::may_be_shared;

/// A state may be shared where its memory may be, and what a run leaves may.
pub fn states_may_be_shared<M: Send + Sync>() {
    may_be_shared::<State<M>>();
    may_be_shared::<Outcome>();
}
