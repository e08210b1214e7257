//! Names of functions, values, labels and types, as a module's text gives them.
ghost use Rattle.std.specs.Prelude.{◌≡◌, IfOk};

use crate::bytes::Bytes;
use crate::want::Memory;
use std::alloc::AllocError;

/// A name: its bytes, without sign and quotes, or the number of an unnamed value. `%5` is `Numbered(5)`, and `%"5"` is
/// `Named` with the byte `5`: two names.
#[derive(Debug, Drop, PartialEq, Eq, Hash)]
pub enum Name {
    Named(Bytes),
    Numbered(u64),
}

impl Name {
    pub fn copy(&self) -> Result<Name, Memory>
        ensures { IfOk result (λ name. name ≡ self.now) }
    {
        match self {
            Name::Named(bytes) => {
                let copied = bytes.copy()?;
                Ok(Name::Named(copied))
            }
            Name::Numbered(number) => Ok(Name::Numbered(*number)),
        }
    }
}

impl Clone for Name {
    ghost is_clone = { λ name other. other ≡ name };

    fn clone(&self) -> Result<Name, AllocError> {
        match self.copy() {
            Ok(name) => Ok(name),
            Err(_) => Err(AllocError),
        }
    }
}
