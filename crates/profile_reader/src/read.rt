//! Reads a profile.
ghost use Rattle.std.specs.Prelude.{◌≡◌, ◌<◌, ◌^◌, ◌⊎◌, length, IfOk};
ghost use Rattle.std.specs.List.{All};
ghost use Rattle.profile_reader.specs.declared.read.ProfileEnd.TheVariants.{Memory};
ghost use Rattle.profile_reader.specs.Reads.{Reads, PeriodFits};
ghost use Rattle.profile_reader.specs.Reading.{said_of};

use crate::lines::first_line;
use crate::reader::Reader;
use profile_lines::profile::{Profile, ProfileCause};
use pv_base::want::Memory;
use std::alloc::Global;
use thiserror::Error;

/// The first line of a text that is wrong, counted from 1, and what is wrong with it.
#[derive(Clone, Copy, Debug, PartialEq, Eq, Drop, Error)]
#[error("line {line}: {cause:?}")]
pub struct ProfileError {
    pub line: u32,
    pub cause: ProfileCause,
}

/// Why a text gives no profile.
#[derive(Debug, Drop)]
pub enum ProfileEnd {
    Bad(ProfileError),
    Memory,
}

impl From<Memory> for ProfileEnd {
    ghost from_gives = { λ _ e. e ≡ Memory };

    fn from(_want: Memory) -> ProfileEnd {
        ProfileEnd::Memory
    }
}

/// Reads the text of a profile, which has fewer than 2^32 loops, and periods within their bounds.
pub fn read_profile(alloc: Global, text: &[u8]) -> Result<Profile, ProfileEnd>
    requires { length text.now < 2 ^ 32 }
    ensures reads { Reads (said_of text.now) result }
    ensures loops { IfOk result (λ profile. length profile.loops < 2 ^ 32) }
    ensures version { IfOk result (λ profile. (profile.version ≡ 1) ⊎ (profile.version ≡ 2)) }
    ensures periods { IfOk result (λ profile. All (λ l. PeriodFits profile.version l.period) profile.loops) }
{
    read_lines(alloc, text)
}

/// Reads a text line by line.
fn read_lines(alloc: Global, text: &[u8]) -> Result<Profile, ProfileEnd>
    requires { length text.now < 2 ^ 32 }
    ensures { Reads (said_of text.now) result }
{
    let mut reader = Reader::new(alloc);
    let mut rest = text;
    let mut line = 0u32;
    while !rest.is_empty() {
        let (first, tail) = first_line(rest);
        let last = tail.is_empty();
        line += 1;
        rest = tail;
        let taken = reader.take(first, last)?;
        if let Err(cause) = taken {
            return Err(ProfileEnd::Bad(ProfileError { line, cause }));
        }
    }
    if let Some(version) = reader.version {
        return Ok(Profile {
            version,
            loops: reader.loops,
        });
    }
    let cause = ProfileCause::Head;
    Err(ProfileEnd::Bad(ProfileError { line: 1, cause }))
}
