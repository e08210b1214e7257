//! What a module's text says, in full: the readings of all items, and of a whole text. There is no code here; the
//! definitions stand in `specs/`, and the reader's contract cites them.
#![tactic(auto)]
