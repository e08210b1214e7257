//! Laws of first faults in the bytes of a text: they are proved, and nothing is computed here.
//!
//! A text of no module has one first fault. But where it ends too early, no text avoids that fault that begins alike through it,
//! byte for byte, and defines the same named types with the same bodies.
#![tactic(auto)]

ghost use Rattle.fault_laws.specs.Alike.{AlikeAreRead};
ghost use Rattle.fault_laws.specs.Lexical.{LexicalFaultsStay};
ghost use Rattle.fault_laws.specs.Texts.{FaultsAreMet};

/// Texts with the same bytes through a token that is read in both are read alike up to it.
pub fn alike_are_read()
    ensures { AlikeAreRead }
{}

/// No text avoids a lexical fault that is cut alike through it, unless the fault is that the text ends.
pub fn lexical_faults_stay()
    ensures { LexicalFaultsStay }
{}

/// The first fault of a text stands at a token or at bytes, and each text that begins alike has it, or the text ends too early.
pub fn faults_are_met()
    ensures { FaultsAreMet }
{}
