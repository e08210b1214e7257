//! The plain memory.
ghost use Rattle.std.specs.Prelude.{◌≡◌, ◌+◌, ◌<◌, ◌≤◌, ℕ, length, IfOk, IfErr, IfSome, OnOk, OnErr, Result, [], ◌∷◌, Some, Ok, Err, replicate, ◌^◌};
ghost use Rattle.std.specs.List.{All};
ghost use Rattle.std.specs.Option.{option_copied};
ghost use Rattle.pv_base.specs.Limits.{live_limit};
ghost use Rattle.mem_image.specs.Picture.{PartFits, IsPicture, find, first_from, count_from, bytes_at, access, write_access, bytes_from, lay, read, write, fill, apart, over, added, add, remove, release, end_frame, passed_over, live, name_limit, size_of};
ghost use Rattle.mem_image.specs.Calls.{Fits, ImageAnswers, NoCheck, does, done_reply, done, replied, Done};
ghost use Rattle.mem_image.specs.declared.object.Byte.TheVariants.{Num};

use crate::fault::{Fault, Trap};
use crate::memory::Mem;
use crate::object::{Byte, Kind, Object, Pointer};
use crate::word::Word;
use pv_base::limits::LIVE_LIMIT;
use pv_base::list::List;
use pv_base::place::{AllocSite, Place, Site};
use pv_base::want::Memory;
use std::alloc::Global;
use std::collections::BTreeMap;
use std::marker::Model;

/// Each name is below this.
pub const NAME_LIMIT: u32 = 2_147_483_648;

/// The live objects by name, the next name, and how many bytes are live.
pub struct Image {
    alloc: Global,
    objects: BTreeMap<u32, Object>,
    next: u32,
    live: u64,
}

impl Drop for Image {
    fn drop(self) {
        let Image {
            alloc: _,
            objects: _,
            next: _,
            live: _,
        } = self;
    }
}

impl Model for Image {
    ghost use Rattle.std.specs.BTreeMap.{values};
    ghost use Rattle.mem_image.specs.Picture.{Picture, IsPicture};
    ghost use Rattle.mem_image.specs.Entries.{IsKept};

    ghost Value = { Picture };

    ghost view = { λ a. record { objects = values a.objects; next = a.next } };

    ghost invariant = { λ a. IsKept a.objects.entries a.next a.live };
}

impl Image {
    /// The memory without objects.
    pub fn new(alloc: Global) -> Image
        ensures objects { result.objects ≡ [] }
        ensures next { result.next ≡ 0 }
    {
        Image {
            alloc,
            objects: BTreeMap::new(alloc),
            next: 0,
            live: 0,
        }
    }

    /// The memory without objects in which that name is the next.
    pub fn from_name(alloc: Global, next: u32) -> Image
        requires { next ≤ name_limit }
        ensures objects { result.objects ≡ [] }
        ensures next { result.next ≡ next }
    {
        Image {
            alloc,
            objects: BTreeMap::new(alloc),
            next,
            live: 0,
        }
    }

    /// The name that the next object gets.
    pub fn next(&self) -> u32
        ensures next { result ≡ self.now.next }
        ensures picture { IsPicture self.now }
    {
        self.next
    }

    /// How many bytes are live.
    pub fn live(&self) -> u64
        ensures bytes { result ≡ live self.now.objects }
        ensures limit { result ≤ live_limit }
    {
        self.live
    }

    /// The live object of that name.
    pub fn find(&self, name: u32) -> Option<&Object>
        ensures object { option_copied result ≡ find name self.now.objects }
        ensures parts { IfSome result (λ o. All PartFits o.now.bytes) }
    {
        self.objects.get(&name)
    }

    /// The live object of the least name from that one on. It takes time logarithmic in the number of objects.
    pub fn first_from(&self, name: u32) -> Option<&Object>
        ensures object { option_copied result ≡ first_from name self.now.objects }
        ensures parts { IfSome result (λ o. All PartFits o.now.bytes) }
    {
        match self.objects.range(name..).next() {
            Some((_, object)) => Some(object),
            None => None,
        }
    }

    /// How many live objects have a name from that one on. It takes time linear in that number.
    pub fn count_from(&self, name: u32) -> usize
        ensures { result ≡ count_from name self.now.objects }
    {
        self.objects.range(name..).count()
    }

    /// Where an access of so many bytes falls, or the trap that it meets: null, range on a function, dead, range.
    pub fn access(&self, pointer: Pointer, len: u64) -> Result<Place, Trap>
        ensures place { result ≡ access self.now pointer len }
        ensures inside { IfOk result (λ p. p.offset + len ≤ length (bytes_at p.name self.now.objects)) }
    {
        match pointer {
            Pointer::Null => Err(Trap::Null),
            Pointer::Fun { index: _ } => Err(Trap::Range),
            Pointer::Obj { name, offset } => match self.find(name) {
                None => Err(Trap::Dead),
                Some(object) => {
                    let size = object.bytes.len() as u64;
                    if offset < 0 {
                        return Err(Trap::Range);
                    }
                    let offset = offset as u64;
                    if offset > size || len > size - offset {
                        return Err(Trap::Range);
                    }
                    Ok(Place { name, offset })
                }
            },
        }
    }

    /// Where a write of so many bytes falls. After the traps of every access it tests whether the object is a constant.
    pub fn write_access(&self, to: Pointer, len: u64) -> Result<Place, Trap>
        ensures place { result ≡ write_access self.now to len }
        ensures inside { IfOk result (λ p. p.offset + len ≤ length (bytes_at p.name self.now.objects)) }
    {
        let place = self.access(to, len)?;
        match self.find(place.name) {
            Some(Object { fixed: true, .. }) => Err(Trap::ConstWrite),
            _ => Ok(place),
        }
    }

    /// So many bytes from a place on.
    fn bytes_from(&self, place: Place, len: u64) -> &[Byte]
        requires { place.offset + len ≤ length (bytes_at place.name self.now.objects) }
        ensures bytes { result.now ≡ bytes_from self.now place len }
        ensures parts { All PartFits result.now }
    {
        match self.find(place.name) {
            Some(object) => {
                let from = place.offset as usize;
                &object.bytes.as_slice()[from..from + len as usize]
            }
            None => &[],
        }
    }

    /// Puts the bytes in place of those from a place on.
    fn lay(&mut self, place: Place, bytes: &[Byte])
        requires inside { place.offset + length bytes.now ≤ length (bytes_at place.name self.old.objects) }
        requires parts { All PartFits bytes.now }
        ensures { self.new ≡ lay self.old place bytes.now }
    {
        if let Some(object) = self.objects.get_mut(&place.name) {
            object.bytes.write(place.offset as usize, bytes);
        }
    }

    /// Puts one byte at a place of a live object. It does not ask whether the object is a constant: this is how bytes that
    /// were written elsewhere are committed.
    pub fn lay_byte(&mut self, place: Place, byte: Byte)
        requires inside { place.offset < length (bytes_at place.name self.old.objects) }
        requires part { PartFits byte }
        ensures { self.new ≡ lay self.old place (byte ∷ []) }
    {
        self.lay(place, &[byte]);
    }

    /// Passes over the names below that one: the next object gets it, or a later one where the memory is beyond it.
    pub fn pass_over(&mut self, next: u32)
        requires { next ≤ name_limit }
        ensures { self.new ≡ passed_over self.old next }
    {
        self.next = self.next.max(next);
    }

    /// Puts a number in place of so many bytes from a place on.
    fn lay_number(&mut self, place: Place, len: u64, value: u8)
        requires { place.offset + len ≤ length (bytes_at place.name self.old.objects) }
        ensures { self.new ≡ lay self.old place (replicate len (Num value)) }
    {
        if let Some(object) = self.objects.get_mut(&place.name) {
            object
                .bytes
                .fill(place.offset as usize, len as usize, Byte::Num(value));
        }
    }

    /// Takes the object of that name out, if it is live.
    fn remove(&mut self, name: u32)
        ensures { self.new ≡ remove self.old name }
    {
        if let Some(object) = self.objects.remove(&name) {
            self.live -= object.bytes.len() as u64;
        }
    }

    /// Whether an object of that size makes the live bytes too many.
    fn over(&self, size: u64) -> bool
        ensures { result ≡ over self.now size }
    {
        size > LIVE_LIMIT - self.live
    }

    /// Adds an object with these bytes, for which there is room, and gives its name.
    pub fn push(
        &mut self,
        site: AllocSite,
        kind: Kind,
        fixed: bool,
        bytes: List<Byte>,
    ) -> Result<u32, Memory>
        requires room { live self.old.objects + length bytes ≤ live_limit }
        requires names { self.old.next < name_limit }
        requires parts { All PartFits bytes }
        ensures name { IfOk result (λ name. name ≡ self.old.next) }
        ensures ok { OnOk result (self.new ≡ added self.old site kind fixed bytes) }
        ensures err { OnErr result (self.new ≡ self.old) }
    {
        let name = self.next;
        let size = bytes.len() as u64;
        let object = Object {
            name,
            site,
            kind,
            fixed,
            bytes,
        };
        match self.objects.insert(name, object) {
            Ok(_) => {}
            Err(_) => return Err(Memory),
        }
        self.next += 1;
        self.live += size;
        Ok(name)
    }
}

impl Image {
    /// Reads 1 to 8 bytes as they are.
    pub fn read(&self, from: Pointer, len: u32) -> Result<Word, Trap>
        requires some { 1 ≤ len }
        requires most { len ≤ 8 }
        ensures { result ≡ read self.now from len }
    {
        let len = u64::from(len);
        let place = self.access(from, len)?;
        Ok(Word::of(self.bytes_from(place, len)))
    }

    /// Writes the word's bytes as they are.
    pub fn write(&mut self, to: Pointer, word: &Word) -> Result<(), Trap>
        ensures ok { OnOk result (write self.old to word.now ≡ Ok self.new) }
        ensures err { IfErr result (λ t. (write self.old to word.now ≡ Err t) × (self.new ≡ self.old)) }
    {
        let bytes = word.as_slice();
        let place = self.write_access(to, bytes.len() as u64)?;
        self.lay(place, bytes);
        Ok(())
    }

    /// Writes one number into each byte of a range.
    pub fn fill_range(&mut self, to: Pointer, value: u8, len: u64) -> Result<(), Trap>
        ensures ok { OnOk result (fill self.old to value len ≡ Ok self.new) }
        ensures err { IfErr result (λ t. (fill self.old to value len ≡ Err t) × (self.new ≡ self.old)) }
    {
        if len == 0 {
            return Ok(());
        }
        let place = self.write_access(to, len)?;
        self.lay_number(place, len, value);
        Ok(())
    }

    /// Removes the object that a pointer to its start names, if it was requested at run time.
    pub fn free(&mut self, pointer: Pointer) -> Result<(), Trap>
        ensures ok { OnOk result (release self.old pointer ≡ Ok self.new) }
        ensures err { IfErr result (λ t. (release self.old pointer ≡ Err t) × (self.new ≡ self.old)) }
    {
        match pointer {
            Pointer::Obj { name, offset: 0 } => match self.find(name) {
                Some(
                    Object {
                        kind: Kind::Heap,
                        ..
                    },
                ) => {
                    self.remove(name);
                    Ok(())
                }
                _ => Err(Trap::Free),
            },
            _ => Err(Trap::Free),
        }
    }

    /// Removes the objects of these names that are live.
    pub fn remove_all(&mut self, names: &List<u32>)
        ensures { self.new ≡ end_frame self.old names.now }
    {
        for name in names.as_slice() {
            self.remove(*name);
        }
    }

    /// Adds an object with these bytes, and gives its name. The live bytes are tested before the names. This is how the
    /// globals of a program come in.
    pub fn add(
        &mut self,
        site: AllocSite,
        kind: Kind,
        fixed: bool,
        bytes: List<Byte>,
    ) -> Result<u32, Fault>
        requires { All PartFits bytes }
        ensures name { IfOk result (λ name. name ≡ self.old.next) }
        ensures image { Fits (done_reply (add self.old site kind fixed bytes)) self.old (replied (λ _. Done) result) self.new }
        ensures check { NoCheck result }
    {
        if self.over(bytes.len() as u64) {
            return Err(Fault::Trap(Trap::LiveMemory));
        }
        if self.next >= NAME_LIMIT {
            return Err(Fault::Trap(Trap::Names));
        }
        Ok(self.push(site, kind, fixed, bytes)?)
    }

    /// An equal memory.
    pub fn copy(&self) -> Result<Image, Memory>
        ensures { IfOk result (λ i. i ≡ self.now) }
    {
        Ok(Image {
            alloc: self.alloc,
            objects: self.objects.clone()?,
            next: self.next,
            live: self.live,
        })
    }
}

/// Whether two ranges of one length are one range, or have no byte in common.
fn apart(p: Place, q: Place, len: u64) -> bool
    ensures { result ≡ apart p q len }
{
    let gap = p.offset.abs_diff(q.offset);
    p.name != q.name || gap == 0 || gap >= len
}

/// An image does what the pure model of the calls says, and is always ready.
impl Mem for Image {
    ghost image = { λ m. m };

    ghost ready = { λ m. Unit {0} };

    ghost relation = { λ before call answer after. ImageAnswers call answer × Fits (does before call) before answer after };

    ghost sound = { λ m n call answer h. h.1 };

    fn read_word(&mut self, _at: Site, _slot: u32, from: Pointer, len: u32) -> Result<Word, Fault> {
        match self.read(from, len) {
            Ok(word) => Ok(word),
            Err(trap) => Err(Fault::Trap(trap)),
        }
    }

    fn write_word(&mut self, _at: Site, _slot: u32, to: Pointer, word: &Word) -> Result<(), Fault> {
        match self.write(to, word) {
            Ok(()) => Ok(()),
            Err(trap) => Err(Fault::Trap(trap)),
        }
    }

    fn copy_range(
        &mut self,
        _at: Site,
        to: Pointer,
        from: Pointer,
        len: u64,
        overlap: bool,
    ) -> Result<(), Fault> {
        if len == 0 {
            return Ok(());
        }
        let source = self.access(from, len)?;
        let target = self.write_access(to, len)?;
        if !overlap && !apart(source, target, len) {
            return Err(Fault::Trap(Trap::Overlap));
        }
        let bytes = List::from_slice(self.alloc, self.bytes_from(source, len))?;
        self.lay(target, bytes.as_slice());
        Ok(())
    }

    fn fill(&mut self, _at: Site, to: Pointer, value: u8, len: u64) -> Result<(), Fault> {
        match self.fill_range(to, value, len) {
            Ok(()) => Ok(()),
            Err(trap) => Err(Fault::Trap(trap)),
        }
    }

    fn make(&mut self, at: Site, kind: Kind, size: u64, zeroed: bool) -> Result<Pointer, Fault> {
        if self.over(size) {
            return match kind {
                Kind::Heap => Ok(Pointer::Null),
                _ => Err(Fault::Trap(Trap::LiveMemory)),
            };
        }
        if self.next >= NAME_LIMIT {
            return Err(Fault::Trap(Trap::Names));
        }
        let byte = if zeroed { Byte::Num(0) } else { Byte::Unset };
        let bytes = List::repeat(self.alloc, byte, size as usize)?;
        let name = self.push(AllocSite::At(at), kind, false, bytes)?;
        Ok(Pointer::Obj { name, offset: 0 })
    }

    fn release(&mut self, _at: Site, pointer: Pointer) -> Result<(), Fault> {
        match self.free(pointer) {
            Ok(()) => Ok(()),
            Err(trap) => Err(Fault::Trap(trap)),
        }
    }

    fn end_frame(&mut self, names: &List<u32>) {
        self.remove_all(names);
    }

    fn size_of(&self, pointer: Pointer) -> Option<u64> {
        match pointer {
            Pointer::Obj { name, offset: _ } => match self.find(name) {
                Some(object) => Some(object.bytes.len() as u64),
                None => None,
            },
            _ => None,
        }
    }
}
