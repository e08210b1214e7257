//! Laws of the definitions that the code's contracts cite.

ghost use Rattle.ir_lex.specs.Cut.{TokensInOrder, TokensAreCut, OneCut};
ghost use Rattle.ir_lex.specs.Faults.{FaultsAreNamed};

/// The tokens stand in the text in order, each of its kind's form, with only blanks and comments between them.
pub fn law_tokens_in_order()
    ensures { TokensInOrder }
{}

/// The tokens before the first fault are those of a text cut into longest pieces. Without a fault nothing is left over;
/// with one the pieces end where no further piece can be cut off.
pub fn law_tokens_are_cut()
    ensures { TokensAreCut }
{}

/// A whole text is cut into longest pieces in one way alone.
pub fn law_one_cut()
    ensures { OneCut }
{}

/// The fault's cause says what stands behind the longest pieces before it: `End` where more bytes would make a piece,
/// `Token` where none would, `Number` and `TooLong` where the longest piece passes that limit.
pub fn law_faults_are_named()
    ensures { FaultsAreNamed }
{}
