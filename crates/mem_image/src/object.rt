//! Pointers, bytes and objects. A byte is symbolic, so a pointer that is stored keeps what it points to.
ghost use Rattle.std.specs.Prelude.{◌≡◌, IfOk};
ghost use Rattle.mem_image.specs.Pointers.{with_name};

use pv_base::list::List;
use pv_base::place::AllocSite;
use pv_base::want::Memory;
use std::alloc::AllocError;

/// A pointer: null, a place counted in bytes from the start of a named object, or a function by its number. The offset
/// of a pointer may lie outside the object; only an access tests it.
#[derive(Clone, Copy, Debug, PartialEq, Eq)]
pub enum Pointer {
    Null,
    Obj { name: u32, offset: i64 },
    Fun { index: u32 },
}

impl Pointer {
    /// The pointer to the same offset of the object of another name. Null and functions stay.
    pub fn with_name(self, name: u32) -> Pointer
        ensures { result ≡ with_name name self }
    {
        match self {
            Pointer::Obj { name: _, offset } => Pointer::Obj { name, offset },
            _ => self,
        }
    }
}

/// A byte of memory: not set, a number, or one of the eight bytes of a pointer, counted from 0.
#[derive(Clone, Copy, Debug, PartialEq, Eq)]
pub enum Byte {
    Unset,
    Num(u8),
    Ptr { part: u8, pointer: Pointer },
}

// What a byte of live memory takes. The part stands first in the variant so that it lies beside the tag.
const _: () = prove!(size_of::<Byte>() == 24);

/// What made an object: a global variable, a stack slot of a frame, or a request at run time.
#[derive(Clone, Copy, Debug, PartialEq, Eq)]
pub enum Kind {
    Global,
    Stack,
    Heap,
}

/// A live object. Its size is the number of its bytes; `fixed` marks a constant, which may not be written.
#[derive(Drop)]
pub struct Object {
    pub name: u32,
    pub site: AllocSite,
    pub kind: Kind,
    pub fixed: bool,
    pub bytes: List<Byte>,
}

impl Object {
    /// An equal object.
    pub fn copy(&self) -> Result<Object, Memory>
        ensures { IfOk result (λ o. o ≡ self.now) }
    {
        let bytes = List::from_slice(self.bytes.alloc(), self.bytes.as_slice())?;
        Ok(Object {
            name: self.name,
            site: self.site,
            kind: self.kind,
            fixed: self.fixed,
            bytes,
        })
    }
}

impl Clone for Object {
    ghost is_clone = { λ object other. other ≡ object };

    fn clone(&self) -> Result<Object, AllocError> {
        match self.copy() {
            Ok(object) => Ok(object),
            Err(_) => Err(AllocError),
        }
    }
}
