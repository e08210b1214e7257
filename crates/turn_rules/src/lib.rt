//! What one turn of a planned loop is on a worker's copy: which spans are lawful, what is guessed, the view in which a turn begins, what
//! its memory does at each call, and the turn alone with its first failure. These are definitions; no code stands here.
//!
//! A turn alone runs the same trees as the sequential step. Only its memory is another one, and what it may not do is said beside it.
#![tactic(auto)]

ghost use Rattle.turn_rules.specs.Laws.{FirstViewIsBase, PassedGuessesStand};

/// Where no turn of the worker came before, and no bytes are guessed, a turn sees the base's memory.
pub fn the_first_view_is_the_base()
    ensures { FirstViewIsBase }
{}

/// Where a turn passed, the guessed bytes stand again.
pub fn guesses_stand_where_a_turn_passed()
    ensures { PassedGuessesStand }
{}
