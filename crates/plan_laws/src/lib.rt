//! Laws of plans, for who relies on what a plan says of slots, sites and guesses. They are proved, and no code calls them.
#![tactic(auto)]

ghost use Rattle.plan_laws.specs.Laws.{EachHasItsLoop, SlotsTouchTheirClass, SlotsHaveOneClass, TagsAreOfSites, GuessesAreInside, GuessesAreApart, ReductionsHaveOneKind, LoopsAgree, FlowsAreGuessed};

/// A plan is that of a loop of the profile.
pub fn each_has_its_loop()
    ensures { EachHasItsLoop }
{}

/// What a slot may touch.
pub fn slots_touch_their_class()
    ensures { SlotsTouchTheirClass }
{}

/// One class a slot.
pub fn slots_have_one_class()
    ensures { SlotsHaveOneClass }
{}

/// One tag a site.
pub fn tags_are_of_sites()
    ensures { TagsAreOfSites }
{}

/// Where a guess lies.
pub fn guesses_are_inside()
    ensures { GuessesAreInside }
{}

/// One guess a byte.
pub fn guesses_are_apart()
    ensures { GuessesAreApart }
{}

/// One kind a reduction.
pub fn reductions_have_one_kind()
    ensures { ReductionsHaveOneKind }
{}

/// One tag a site over all planned loops.
pub fn loops_agree()
    ensures { LoopsAgree }
{}

/// What flows from turn to turn.
pub fn flows_are_guessed()
    ensures { FlowsAreGuessed }
{}
