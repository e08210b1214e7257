//! Laws of the grammar of profiles: they are proved, and nothing is computed here.
#![tactic(auto)]

ghost use Rattle.profile_laws.specs.Accepted.{AcceptsTheGrammar};
ghost use Rattle.profile_laws.specs.Laws.{OneProfile, KeysTell, FaultsAreFirst, FirstFaultsAreFound};

/// No two profiles have the same version and the same lines, so a text is the text of at most one.
pub fn one_profile()
    ensures { OneProfile }
{}

/// A line repeats an earlier one of its loop exactly where both say the same, however they are spelled.
pub fn keys_tell()
    ensures { KeysTell }
{}

/// A text that is refused has the first fault that the refusal names, or no line that stands first.
pub fn faults_are_first()
    ensures { FaultsAreFirst }
{}

/// A text with a first fault is refused by it, so no text has two.
pub fn first_faults_are_found()
    ensures { FirstFaultsAreFound }
{}

/// A reading accepts a text as that of a profile exactly where the grammar does.
pub fn accepts_the_grammar()
    ensures { AcceptsTheGrammar }
{}
