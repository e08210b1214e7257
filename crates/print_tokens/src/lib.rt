//! Laws of canonical text: they are proved, and nothing is computed here.
//!
//! The pieces of a text that stand apart are its tokens.
#![tactic(auto)]

ghost use Rattle.print_tokens.specs.Laws.{PiecesAreRead};

/// The tokens of a text made of pieces that fit and stand apart are those pieces.
pub fn pieces_are_read()
    ensures { PiecesAreRead }
{}
