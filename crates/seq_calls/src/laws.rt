//! What the definitions say, as laws.
ghost use Rattle.seq_calls.specs.Names.{KnownBySpelling};

/// A name is known exactly as the external that is spelled so.
pub fn names_are_known_by_their_spelling()
    ensures { KnownBySpelling }
{}
