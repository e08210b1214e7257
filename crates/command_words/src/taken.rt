//! What `clap` takes.
ghost use Rattle.std.specs.Prelude.{◌≡◌, ◌≢◌, true, [], IfOk, MatchResult, map};
ghost use Rattle.clap.specs.Words.{app_of, is_simple_and_free};
ghost use Rattle.command_words.specs.Requests.{faults, IsTaken};

use clap::error::ErrorKind;
use clap::{ArgMatches, Command};
use pv_base::bytes::Bytes;
use pv_base::want::Memory;
use std::alloc::Global;

/// The matches of the words, or the text with which `clap` refuses them.
pub fn taken<'a>(
    alloc: Global,
    command: Command<'a>,
    words: &'a [&'a str],
) -> Result<Result<ArgMatches<'a>, Bytes>, Memory>
    ensures { IfOk result (λ r. is_simple_and_free (app_of command.entry) ≡ true → MatchResult r
        (λ m. IsTaken (app_of command.entry) (map (λ s. s.now) words.entry.now) m)
        (λ text. faults (app_of command.entry) (map (λ s. s.now) words.entry.now) ≢ [])) }
{
    match command.try_get_matches_from(words) {
        Ok(matches) => Ok(Ok(matches)),
        Err(e) => match e.kind() {
            ErrorKind::OutOfMemory => Err(Memory),
            _ => {
                let text = e.to_string(alloc)?;
                let text = Bytes::from_slice(alloc, text.as_bytes())?;
                Ok(Err(text))
            }
        },
    }
}
