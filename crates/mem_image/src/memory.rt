//! The trait of memories.
use crate::fault::Fault;
use crate::object::{Kind, Pointer};
use crate::word::Word;
use pv_base::list::List;
use pv_base::place::Site;

/// A memory. It stands for an image. At each call the memory's own relation holds, and the law says what the relation
/// means for the image: an answer that is no fault is that of an image, a trap is an image's trap, and every fault leaves
/// the image as it was. `at` is the site of the instruction that calls, and `slot` the number of the access among those
/// of the instruction.
pub trait Mem: Drop {
    ghost use Rattle.std.specs.Prelude.{ℕ, ◌≡◌, ◌≤◌, Result, Ok};
    ghost use Rattle.mem_image.specs.declared.fault.Fault.{Fault as AFault};
    ghost use Rattle.mem_image.specs.Picture.{Picture, size_of};
    ghost use Rattle.mem_image.specs.Calls.{Call, Reply, Fits, ReadWord, WriteWord, CopyRange, Fill, Make, Release, EndFrame, does, replied, done, Bytes, Made, Done};

    /// The image that it stands for.
    ghost image: { Self → Picture };

    /// Whether it may be called.
    ghost ready: { Self → Type 0 };

    /// What may hold between the memory before a call, the call, its answer, and the memory after.
    ghost relation: { Self → Call → Result Reply AFault → Self → Type 0 };

    /// Reads 1 to 8 bytes as they are.
    fn read_word(&mut self, at: Site, slot: u32, from: Pointer, len: u32) -> Result<Word, Fault>
        requires ready { ready self.old }
        requires some { 1 ≤ len }
        requires most { len ≤ 8 }
        ensures ready { ready self.new }
        ensures relation { relation self.old (ReadWord at slot from len) (replied Bytes result) self.new };

    /// Writes the word's bytes as they are.
    fn write_word(&mut self, at: Site, slot: u32, to: Pointer, word: &Word) -> Result<(), Fault>
        requires ready { ready self.old }
        ensures ready { ready self.new }
        ensures relation { relation self.old (WriteWord at slot to word.now) (replied done result) self.new };

    /// Copies bytes as they are. Where `overlap` is false, ranges that overlap and are not equal are a trap.
    fn copy_range(
        &mut self,
        at: Site,
        to: Pointer,
        from: Pointer,
        len: u64,
        overlap: bool,
    ) -> Result<(), Fault>
        requires ready { ready self.old }
        ensures ready { ready self.new }
        ensures relation { relation self.old (CopyRange at to from len overlap) (replied done result) self.new };

    /// Writes one number into each byte of a range.
    fn fill(&mut self, at: Site, to: Pointer, value: u8, len: u64) -> Result<(), Fault>
        requires ready { ready self.old }
        ensures ready { ready self.new }
        ensures relation { relation self.old (Fill at to value len) (replied done result) self.new };

    /// Makes an object, whose bytes are the number 0 or not set. Null where it is a request at run time and the live
    /// bytes would be too many.
    fn make(&mut self, at: Site, kind: Kind, size: u64, zeroed: bool) -> Result<Pointer, Fault>
        requires ready { ready self.old }
        ensures ready { ready self.new }
        ensures relation { relation self.old (Make at kind size zeroed) (replied Made result) self.new };

    /// Removes the object that a pointer to its start names, if it was requested at run time.
    fn release(&mut self, at: Site, pointer: Pointer) -> Result<(), Fault>
        requires ready { ready self.old }
        ensures ready { ready self.new }
        ensures relation { relation self.old (Release at pointer) (replied done result) self.new };

    /// Removes the objects of these names, which a frame that ends made for itself.
    fn end_frame(&mut self, names: &List<u32>)
        requires ready { ready self.old }
        ensures ready { ready self.new }
        ensures relation { relation self.old (EndFrame names.now) (Ok Done) self.new };

    /// The size of the object that a pointer names, or None exactly where it is not live.
    fn size_of(&self, pointer: Pointer) -> Option<u64>
        requires ready { ready self.now }
        ensures { result ≡ size_of (image self.now) pointer };

    /// The relation says what an image does.
    ghost sound: { (m n : Self) (call : Call) (answer : Result Reply AFault) → relation m call answer n → Fits (does (image m) call) (image m) answer (image n) };
}
