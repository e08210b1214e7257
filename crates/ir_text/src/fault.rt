//! Why tokens are not read.

ghost use Rattle.std.specs.Prelude.{◌≡◌};
ghost use Rattle.ir_text.specs.declared.fault.ReadEnd.TheVariants as ends;

use ir_lex::token::Cause;
use pv_base::want::Memory;
use std::alloc::{AllocError, AllocFailed};

/// The first fault.
#[derive(Debug, Drop)]
pub enum Fault {
    /// On this line.
    At(u32, Cause),
    /// The tokens end inside what is read.
    Ended,
}

/// Why a call reads nothing.
#[derive(Debug, Drop)]
pub enum ReadEnd {
    /// Memory was refused, which says nothing of the text.
    Memory,
    Bad(Fault),
}

impl From<Memory> for ReadEnd {
    ghost from_gives = { λ _ e. e ≡ ends.Memory };

    fn from(_error: Memory) -> ReadEnd {
        ReadEnd::Memory
    }
}

impl From<AllocError> for ReadEnd {
    ghost from_gives = { λ _ e. e ≡ ends.Memory };

    fn from(_error: AllocError) -> ReadEnd {
        ReadEnd::Memory
    }
}

impl<T: Drop> From<AllocFailed<T>> for ReadEnd {
    ghost from_gives = { λ _ e. e ≡ ends.Memory };

    fn from(_error: AllocFailed<T>) -> ReadEnd {
        ReadEnd::Memory
    }
}
