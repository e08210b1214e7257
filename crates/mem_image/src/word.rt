//! The bytes that one read gives, or one write takes.
ghost use Rattle.std.specs.Prelude.{◌≡◌, ◌<◌, ◌≤◌, length};
ghost use Rattle.std.specs.List.{All};
ghost use Rattle.mem_image.specs.Picture.{PartFits, IsWord};

use crate::object::Byte;
use std::marker::Model;

/// One to eight bytes, in which each part of a pointer is 0 to 7.
#[derive(Drop)]
pub struct Word {
    len: usize,
    bytes: [Byte; 8],
}

impl Model for Word {
    ghost use Rattle.std.specs.Prelude.{List, take, ◌≤◌};
    ghost use Rattle.mem_image.specs.Picture.{IsWord};
    ghost use Rattle.mem_image.specs.declared.object.Byte.{Byte as AByte};

    ghost Value = { List AByte };

    ghost view = { λ w. take w.len w.bytes };

    ghost invariant = { λ w. (w.len ≤ 8) × IsWord (take w.len w.bytes) };
}

impl Word {
    /// The word of these bytes.
    pub fn of(from: &[Byte]) -> Word
        requires { IsWord from.now }
        ensures { result ≡ from.now }
    {
        let mut bytes = [Byte::Unset; 8];
        bytes[..from.len()].copy_from_slice(from);
        Word {
            len: from.len(),
            bytes,
        }
    }

    pub fn as_slice(&self) -> &[Byte]
        ensures bytes { result.now ≡ self.now }
        ensures word { IsWord self.now }
    {
        &self.bytes[..self.len]
    }
}
