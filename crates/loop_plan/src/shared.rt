//! What workers may send each other and share of a plan.

use crate::plan::{CountedTest, LeftOut, LoopPlan, PhiPlan, Plan, Region};
use pv_base::shared::may_be_shared;

/// Plans and their parts may be shared.
pub fn loop_plans_may_be_shared() {
    may_be_shared::<Plan>();
    may_be_shared::<LoopPlan>();
    may_be_shared::<LeftOut>();
    may_be_shared::<Region>();
    may_be_shared::<PhiPlan>();
    may_be_shared::<CountedTest>();
}
