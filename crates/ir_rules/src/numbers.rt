//! A law of the numbers of modules.
ghost use Rattle.ir_rules.specs.Laws.{StayingIsWithin};

/// Where a module stays the same as its table grows, the numbers in it are of the table.
pub fn staying_is_within()
    ensures { StayingIsWithin }
{}
