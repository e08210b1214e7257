//! A shadow stands for sets of turns.
ghost use Rattle.privacy_check.specs.History.{CodesLaw, RefusalLaw, AccessLaw};
ghost use Rattle.privacy_check.specs.Meaning.{MeaningLaw};

/// Each code says which turns of the worker wrote its byte, in this period and in earlier ones, and whether one read it
/// in this period.
pub fn codes_law()
    ensures { CodesLaw }
{}

/// An access is refused exactly at the first byte where those turns say so.
pub fn refusal_law()
    ensures { RefusalLaw }
{}

/// A lawful access meets the condition of the call.
pub fn access_law()
    ensures { AccessLaw }
{}

/// Each code means what the calls that were not refused did to its byte.
pub fn meaning_law()
    ensures { MeaningLaw }
{}
