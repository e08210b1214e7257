//! A memory with a check of its own, which shows that the trait fits one: an object may not be read, and the last one
//! that was is marked.
ghost use Rattle.std.specs.Prelude.{◌≡◌, true, IfOk};
ghost use Rattle.machine_rows.specs.Guarded.{GuardAnswers};
ghost use Rattle.mem_image.specs.Calls.{Fits, does};

use crate::memories::{AT, obj, sample};
use mem_image::fault::{CheckFault, CheckKind, Fault, Kept};
use mem_image::image::Image;
use mem_image::memory::Mem;
use mem_image::object::{Byte, Kind, Pointer};
use mem_image::word::Word;
use pv_base::list::List;
use pv_base::place::{Heap, Site};
use std::alloc::Global;
use std::test::Fail;

#[derive(Drop)]
struct Guarded {
    image: Image,
    closed: u32,
    last: Option<u32>,
    open: bool,
}

impl Mem for Guarded {
    ghost image = { λ m. m.image };

    ghost ready = { λ m. m.open ≡ true };

    ghost relation = { λ before call answer after. GuardAnswers before.closed before.last call answer after.last × (after.closed ≡ before.closed) × Fits (does before.image call) before.image answer after.image };

    ghost sound = { λ m n call answer h. h.2 };

    fn read_word(&mut self, _at: Site, _slot: u32, from: Pointer, len: u32) -> Result<Word, Fault> {
        let word = match self.image.read(from, len) {
            Ok(word) => word,
            Err(trap) => return Err(Fault::Trap(trap)),
        };
        if let Pointer::Obj { name, offset: _ } = from {
            if name == self.closed {
                return Err(Fault::Check(CheckFault {
                    kind: CheckKind::Separation,
                    kept: Kept::Of(Heap::ReadOnly),
                }));
            }
            self.last = Some(name);
        }
        Ok(word)
    }

    fn write_word(&mut self, at: Site, slot: u32, to: Pointer, word: &Word) -> Result<(), Fault> {
        self.image.write_word(at, slot, to, word)
    }

    fn copy_range(
        &mut self,
        at: Site,
        to: Pointer,
        from: Pointer,
        len: u64,
        overlap: bool,
    ) -> Result<(), Fault> {
        self.image.copy_range(at, to, from, len, overlap)
    }

    fn fill(&mut self, at: Site, to: Pointer, value: u8, len: u64) -> Result<(), Fault> {
        self.image.fill(at, to, value, len)
    }

    fn make(&mut self, at: Site, kind: Kind, size: u64, zeroed: bool) -> Result<Pointer, Fault> {
        self.image.make(at, kind, size, zeroed)
    }

    fn release(&mut self, at: Site, pointer: Pointer) -> Result<(), Fault> {
        self.image.release(at, pointer)
    }

    fn end_frame(&mut self, names: &List<u32>) {
        self.image.end_frame(names);
    }

    fn size_of(&self, pointer: Pointer) -> Option<u64> {
        self.image.size_of(pointer)
    }
}

/// A sample in which the request 2 may not be read.
fn closed_sample(alloc: Global) -> Result<Guarded, Fault>
    ensures { IfOk result (λ m. m.open ≡ true) }
{
    let image = sample(alloc)?;
    Ok(Guarded {
        image,
        closed: 2,
        last: None,
        open: true,
    })
}

/// Calls that change objects, and the pointer to one that was made and released.
fn changed(memory: &mut Guarded) -> Result<Pointer, Fault>
    requires { memory.old.open ≡ true }
    ensures { memory.new.open ≡ true }
{
    memory.write_word(AT, 0, obj(2, 0), &Word::of(&[Byte::Num(1)]))?;
    memory.copy_range(AT, obj(3, 0), obj(2, 0), 8, false)?;
    memory.fill(AT, obj(3, 0), 0, 8)?;
    let made = memory.make(AT, Kind::Heap, 1, true)?;
    memory.release(AT, made)?;
    Ok(made)
}

#[test]
fn a_memory_may_have_a_check(rt: HostRuntime) -> Result<(), Fail> {
    let mut memory = closed_sample(rt.alloc())?;
    assert!(rt; memory.read_word(AT, 0, obj(2, 0), 4).is_err());
    memory.read_word(AT, 0, obj(3, 0), 4)?;
    assert!(rt; memory.last == Some(3));
    let made = changed(&mut memory)?;
    assert!(rt; memory.size_of(made).is_none());
    memory.end_frame(&List::from_slice(rt.alloc(), &[3])?);
    assert!(rt; memory.size_of(obj(3, 0)).is_none());
    Ok(())
}
