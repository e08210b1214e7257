//! Laws of plans. They are proved, and no code calls them.
ghost use Rattle.loop_plan.specs.Laws.{EachIsPlannedOrLeftOut, RegionsStand};

/// As many loops are planned and left out as the profile has.
pub fn each_is_planned_or_left_out()
    ensures { EachIsPlannedOrLeftOut }
{}

/// What the region of a loop promises.
pub fn regions_stand()
    ensures { RegionsStand }
{}
