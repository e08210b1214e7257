//! The values that matches have for the words of a command.
ghost use Rattle.std.specs.Prelude.{◌≡◌, option_map};
ghost use Rattle.clap.specs.Words.{found_of, rows_of, first_of};
ghost use Rattle.command_words.specs.Requests.{option_or};

use clap::ArgMatches;

/// The value of an argument.
pub fn value_of<'a>(matches: &ArgMatches<'a>, id: &str) -> Option<&'a str>
    ensures { option_map (λ s. s.now) result ≡ first_of id.now (rows_of (found_of matches.now)) }
{
    matches.get_str(id)
}

/// The value of an option, or what stands for it where it is not given.
pub fn value_or<'a>(matches: &ArgMatches<'a>, id: &str, default: &'a str) -> &'a str
    ensures { result.now ≡ option_or id.now default.now (rows_of (found_of matches.now)) }
{
    value_of(matches, id).unwrap_or(default)
}
