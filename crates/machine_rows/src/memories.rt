//! What a memory answers to its calls, as tables, and each public call once.
ghost use Rattle.std.specs.Prelude.{◌<◌, IfOk};
ghost use Rattle.std.specs.List.{All};
ghost use Rattle.mem_image.specs.Picture.{PartFits};

use mem_image::fault::{CheckFault, CheckKind, Fault, Kept, Trap};
use mem_image::image::{Image, NAME_LIMIT};
use mem_image::laws;
use mem_image::memory::Mem;
use mem_image::object::{Byte, Kind, Object, Pointer};
use mem_image::word::Word;
use pv_base::limits::LIVE_LIMIT;
use pv_base::list::List;
use pv_base::place::{AllocSite, Place, Site};
use pv_base::want::Memory;
use seq_calls::show::{Arg, FormatEnd};
use std::alloc::Global;
use std::test::Fail;

pub(crate) const AT: Site = Site {
    function: 0,
    place: 0,
};

fn crosses_threads<T: Send + Sync>() {}

#[test]
fn memories_and_calls_cross_threads() {
    crosses_threads::<Image>();
    crosses_threads::<List<Object>>();
    crosses_threads::<Word>();
    crosses_threads::<Fault>();
    crosses_threads::<Arg>();
    crosses_threads::<FormatEnd>();
}

/// A pointer of a row.
#[derive(Clone, Copy)]
enum To {
    Null,
    Fun,
    Obj(u32, i64),
}

/// A call of a row. Words are of four bytes.
#[derive(Clone, Copy)]
enum Ask {
    Read(To),
    Write(To),
    Copy(To, To, u64, bool),
    Fill(To, u64),
    Make(Kind, u64),
    Release(To),
}

/// The answer that a row wants: no pointer, the start of an object, null, or a trap.
#[derive(Clone, Copy)]
enum Want {
    Done,
    Made(u32),
    Null,
    Trap(Trap),
}

pub(crate) fn obj(name: u32, offset: i64) -> Pointer {
    Pointer::Obj { name, offset }
}

fn pointer(to: To) -> Pointer {
    match to {
        To::Null => Pointer::Null,
        To::Fun => Pointer::Fun { index: 0 },
        To::Obj(name, offset) => obj(name, offset),
    }
}

fn wanted(want: Want) -> Result<Option<Pointer>, Fault> {
    match want {
        Want::Done => Ok(None),
        Want::Made(name) => Ok(Some(obj(name, 0))),
        Want::Null => Ok(Some(Pointer::Null)),
        Want::Trap(trap) => Err(Fault::Trap(trap)),
    }
}

/// The pointer that the call gives, where it gives one.
fn answer(memory: &mut Image, call: Ask) -> Result<Option<Pointer>, Fault> {
    match call {
        Ask::Read(from) => {
            memory.read_word(AT, 0, pointer(from), 4)?;
        }
        Ask::Write(to) => {
            memory.write_word(AT, 0, pointer(to), &Word::of(&[Byte::Num(9); 4]))?;
        }
        Ask::Copy(to, from, len, overlap) => {
            memory.copy_range(AT, pointer(to), pointer(from), len, overlap)?;
        }
        Ask::Fill(to, len) => memory.fill(AT, pointer(to), 9, len)?,
        Ask::Make(kind, size) => return Ok(Some(memory.make(AT, kind, size, false)?)),
        Ask::Release(from) => memory.release(AT, pointer(from))?,
    }
    Ok(None)
}

/// Whether the memory answers so.
fn answers(memory: &mut Image, call: Ask, want: Want) -> bool {
    answer(memory, call) == wanted(want)
}

/// Four bytes.
fn sevens(alloc: Global) -> Result<List<Byte>, Memory>
    ensures { IfOk result (λ bytes. All PartFits bytes) }
{
    List::from_slice(
        alloc,
        &[Byte::Num(7), Byte::Num(7), Byte::Num(7), Byte::Num(7)],
    )
}

fn add_global(memory: &mut Image, alloc: Global, number: u32) -> Result<(), Fault> {
    let bytes = sevens(alloc)?;
    memory.add(AllocSite::Global(number), Kind::Global, number == 0, bytes)?;
    Ok(())
}

/// A constant 0 and a global 1 of four bytes, a request 2 and a stack slot 3 of eight, and 4, which is dead.
pub(crate) fn sample(alloc: Global) -> Result<Image, Fault> {
    let mut memory = Image::new(alloc);
    for number in 0..2 {
        add_global(&mut memory, alloc, number)?;
    }
    for kind in [Kind::Heap, Kind::Stack, Kind::Heap] {
        memory.make(AT, kind, 8, true)?;
    }
    memory.release(AT, obj(4, 0))?;
    Ok(memory)
}

/// Calls of the sample.
const CALLS: &[(Ask, Want)] = &[
    (Ask::Read(To::Null), Want::Trap(Trap::Null)),
    (Ask::Read(To::Fun), Want::Trap(Trap::Range)),
    (Ask::Read(To::Obj(4, 0)), Want::Trap(Trap::Dead)),
    (Ask::Read(To::Obj(5, 0)), Want::Trap(Trap::Dead)),
    (Ask::Read(To::Obj(2, 4)), Want::Done),
    (Ask::Read(To::Obj(2, 5)), Want::Trap(Trap::Range)),
    (Ask::Read(To::Obj(2, -1)), Want::Trap(Trap::Range)),
    (Ask::Write(To::Obj(1, 0)), Want::Done),
    (Ask::Write(To::Obj(1, 2)), Want::Trap(Trap::Range)),
    (Ask::Write(To::Obj(0, 0)), Want::Trap(Trap::ConstWrite)),
    (Ask::Write(To::Null), Want::Trap(Trap::Null)),
    (Ask::Fill(To::Obj(2, 0), 8), Want::Done),
    (Ask::Fill(To::Obj(2, 1), 8), Want::Trap(Trap::Range)),
    (Ask::Fill(To::Obj(0, 0), 1), Want::Trap(Trap::ConstWrite)),
    (
        Ask::Copy(To::Obj(1, 0), To::Obj(0, 0), 4, false),
        Want::Done,
    ),
    (
        Ask::Copy(To::Obj(2, 4), To::Obj(2, 0), 4, false),
        Want::Done,
    ),
    (
        Ask::Copy(To::Obj(2, 3), To::Obj(2, 3), 4, false),
        Want::Done,
    ),
    (
        Ask::Copy(To::Obj(2, 3), To::Obj(2, 0), 4, false),
        Want::Trap(Trap::Overlap),
    ),
    (
        Ask::Copy(To::Obj(2, 0), To::Obj(2, 3), 4, false),
        Want::Trap(Trap::Overlap),
    ),
    (Ask::Copy(To::Obj(2, 3), To::Obj(2, 0), 4, true), Want::Done),
    (Ask::Release(To::Obj(2, 0)), Want::Done),
    (Ask::Release(To::Obj(2, 1)), Want::Trap(Trap::Free)),
    (Ask::Release(To::Obj(1, 0)), Want::Trap(Trap::Free)),
    (Ask::Release(To::Obj(3, 0)), Want::Trap(Trap::Free)),
    (Ask::Release(To::Fun), Want::Trap(Trap::Free)),
    (Ask::Make(Kind::Heap, 0), Want::Made(5)),
    (Ask::Make(Kind::Stack, 4_194_280), Want::Made(5)),
    (
        Ask::Make(Kind::Stack, 4_194_281),
        Want::Trap(Trap::LiveMemory),
    ),
    (Ask::Make(Kind::Heap, 4_194_281), Want::Null),
    (Ask::Make(Kind::Heap, u64::MAX), Want::Null),
    // Of two that apply.
    (Ask::Read(To::Obj(4, -1)), Want::Trap(Trap::Dead)),
    (Ask::Write(To::Obj(0, 2)), Want::Trap(Trap::Range)),
    (
        Ask::Copy(To::Null, To::Obj(4, 0), 1, false),
        Want::Trap(Trap::Dead),
    ),
    (
        Ask::Copy(To::Obj(0, 0), To::Null, 1, false),
        Want::Trap(Trap::Null),
    ),
    (
        Ask::Copy(To::Obj(4, 0), To::Obj(2, 0), 9, false),
        Want::Trap(Trap::Range),
    ),
    (
        Ask::Copy(To::Obj(0, 1), To::Obj(0, 0), 2, false),
        Want::Trap(Trap::ConstWrite),
    ),
    (
        Ask::Copy(To::Obj(2, 6), To::Obj(2, 5), 3, false),
        Want::Trap(Trap::Range),
    ),
    (Ask::Release(To::Null), Want::Trap(Trap::Free)),
    (Ask::Release(To::Obj(4, 9)), Want::Trap(Trap::Free)),
    // A length of 0 touches nothing.
    (Ask::Fill(To::Null, 0), Want::Done),
    (Ask::Fill(To::Obj(0, 0), 0), Want::Done),
    (Ask::Copy(To::Fun, To::Obj(4, 0), 0, false), Want::Done),
];

/// Calls of one memory, which is empty at first.
const STEPS: &[(Ask, Want)] = &[
    (Ask::Make(Kind::Heap, 4_194_304), Want::Made(0)),
    (Ask::Make(Kind::Heap, 1), Want::Null),
    (Ask::Make(Kind::Stack, 0), Want::Made(1)),
    (Ask::Release(To::Obj(0, 0)), Want::Done),
    (Ask::Make(Kind::Heap, 4_194_304), Want::Made(2)),
    (Ask::Read(To::Obj(1, 0)), Want::Trap(Trap::Range)),
];

/// Calls of a memory in which that name is the next.
const LIMITS: &[(u32, Ask, Want)] = &[
    (
        2_147_483_648,
        Ask::Make(Kind::Heap, 1),
        Want::Trap(Trap::Names),
    ),
    (
        2_147_483_648,
        Ask::Make(Kind::Stack, 1),
        Want::Trap(Trap::Names),
    ),
    (2_147_483_648, Ask::Make(Kind::Heap, 4_194_305), Want::Null),
    (
        2_147_483_648,
        Ask::Make(Kind::Stack, 4_194_305),
        Want::Trap(Trap::LiveMemory),
    ),
    (
        2_147_483_647,
        Ask::Make(Kind::Heap, 1),
        Want::Made(2_147_483_647),
    ),
];

/// The sizes after them.
const LEFT: &[(Pointer, Option<u64>)] = &[
    (
        Pointer::Obj {
            name: 1,
            offset: 77,
        },
        Some(0),
    ),
    (Pointer::Obj { name: 0, offset: 0 }, None),
];

#[test]
fn traps_come_in_order(rt: HostRuntime) -> Result<(), Fail> {
    for (row, (call, want)) in CALLS.iter().enumerate() {
        let mut memory = sample(rt.alloc())?;
        assert!(rt; answers(&mut memory, *call, *want), "row {row}");
    }
    Ok(())
}

#[test]
fn live_bytes_are_limited(rt: HostRuntime) -> Result<(), Fail> {
    let mut memory = Image::new(rt.alloc());
    for (row, (call, want)) in STEPS.iter().enumerate() {
        assert!(rt; answers(&mut memory, *call, *want), "row {row}");
    }
    assert!(rt; sizes_are(&memory, LEFT));
    assert!(rt; memory.next() == 3);
    Ok(())
}

#[test]
fn names_are_limited(rt: HostRuntime) {
    for (row, (next, call, want)) in LIMITS.iter().enumerate() {
        assert!(rt; *next <= 2_147_483_648);
        let mut memory = Image::from_name(rt.alloc(), *next);
        assert!(rt; answers(&mut memory, *call, *want), "row {row}");
    }
}

fn pointer_byte(part: u8) -> Byte
    ensures { part < 8 → PartFits result }
{
    Byte::Ptr {
        part,
        pointer: obj(1, 3),
    }
}

/// Whether these one to eight bytes stand there.
fn holds(memory: &mut Image, at: Pointer, bytes: &[Byte]) -> Result<bool, Fault> {
    let len = bytes.len();
    if len == 0 || len > 8 {
        return Ok(false);
    }
    let word = memory.read_word(AT, 0, at, len as u32)?;
    Ok(word.as_slice() == bytes)
}

/// The bytes of an object of eight that holds 1 to 8, after a copy within it.
fn moved(memory: &mut Image, to: i64, from: i64) -> Result<(), Fault> {
    let numbers = [1, 2, 3, 4, 5, 6, 7, 8].map(Byte::Num);
    memory.write_word(AT, 0, obj(2, 0), &Word::of(&numbers))?;
    memory.copy_range(AT, obj(2, to), obj(2, from), 4, true)
}

/// Writes the eight parts of a pointer, and copies them by halves.
fn copied_parts(memory: &mut Image) -> Result<(), Fault> {
    for part in 0..8 {
        let byte = pointer_byte(part);
        memory.write_word(AT, 0, obj(2, i64::from(part)), &Word::of(&[byte]))?;
    }
    for half in [0, 4] {
        memory.copy_range(AT, obj(3, half), obj(2, half), 4, false)?;
    }
    Ok(())
}

#[test]
fn copies_keep_bytes(rt: HostRuntime) -> Result<(), Fail> {
    let mut memory = sample(rt.alloc())?;
    copied_parts(&mut memory)?;
    let parts = [0, 1, 2, 3, 4, 5, 6, 7].map(pointer_byte);
    assert!(rt; holds(&mut memory, obj(3, 0), parts.as_slice())?);
    for (to, from, want) in [
        (2, 0, [1, 2, 1, 2, 3, 4, 7, 8]),
        (0, 2, [3, 4, 5, 6, 5, 6, 7, 8]),
    ] {
        moved(&mut memory, to, from)?;
        assert!(rt; holds(&mut memory, obj(2, 0), want.map(Byte::Num).as_slice())?);
    }
    Ok(())
}

/// Whether the objects of these names have these sizes.
fn sizes_are(memory: &Image, rows: &[(Pointer, Option<u64>)]) -> bool {
    for (at, size) in rows {
        if memory.size_of(*at) != *size {
            return false;
        }
    }
    true
}

#[test]
fn new_bytes_are_not_set(rt: HostRuntime) -> Result<(), Fail> {
    let mut memory = sample(rt.alloc())?;
    let slot = memory.make(AT, Kind::Stack, 3, false)?;
    assert!(rt; slot == obj(5, 0));
    assert!(rt; slot != Pointer::Null);
    assert!(rt; holds(&mut memory, slot, UNSET)?);
    memory.fill(AT, obj(5, 1), 6, 1)?;
    assert!(rt; holds(&mut memory, slot, SET)?);
    Ok(())
}

const UNSET: &[Byte] = &[Byte::Unset, Byte::Unset, Byte::Unset];

const SET: &[Byte] = &[Byte::Unset, Byte::Num(6), Byte::Unset];

/// A sample with a stack slot 5 of three bytes.
fn slotted(alloc: Global) -> Result<Image, Fault> {
    let mut memory = sample(alloc)?;
    memory.make(AT, Kind::Stack, 3, false)?;
    Ok(memory)
}

fn is_fixed(memory: &Image, name: u32) -> Option<bool> {
    match memory.find(name) {
        Some(object) => Some(object.fixed),
        None => None,
    }
}

#[test]
fn a_copy_keeps_what_a_frame_ends(rt: HostRuntime) -> Result<(), Fail> {
    let mut memory = slotted(rt.alloc())?;
    let other = memory.copy()?;
    memory.end_frame(&List::from_slice(rt.alloc(), &[3, 4, 5])?);
    assert!(rt; sizes_are(&memory, ENDED));
    assert!(rt; memory.next() == 6);
    assert!(rt; sizes_are(&other, COPIED));
    assert!(rt; is_fixed(&other, 0) == Some(true));
    assert!(rt; is_fixed(&other, 4) == None);
    Ok(())
}

const ENDED: &[(Pointer, Option<u64>)] = &[
    (Pointer::Obj { name: 0, offset: 0 }, Some(4)),
    (Pointer::Obj { name: 2, offset: 0 }, Some(8)),
    (Pointer::Obj { name: 3, offset: 0 }, None),
    (Pointer::Obj { name: 4, offset: 0 }, None),
    (Pointer::Obj { name: 5, offset: 0 }, None),
];

const COPIED: &[(Pointer, Option<u64>)] = &[(Pointer::Obj { name: 5, offset: 0 }, Some(3))];

/// The least name of a live object from that one on.
fn name_from(memory: &Image, name: u32) -> Option<u32> {
    match memory.first_from(name) {
        Some(object) => Some(object.name),
        None => None,
    }
}

/// From each name on: the least name of a live object, and how many there are.
const FROM: &[(u32, Option<u32>, usize)] = &[
    (0, Some(0), 4),
    (2, Some(2), 2),
    (3, Some(3), 1),
    (4, None, 0),
];

#[test]
fn live_objects_are_counted(rt: HostRuntime) -> Result<(), Fail> {
    let mut memory = sample(rt.alloc())?;
    for (name, first, count) in FROM {
        assert!(rt; name_from(&memory, *name) == *first, "from {name}");
        assert!(rt; memory.count_from(*name) == *count, "from {name}");
    }
    assert!(rt; memory.live() == 24);
    memory.release(AT, obj(2, 0))?;
    assert!(rt; memory.live() == 16);
    assert!(rt; name_from(&memory, 2) == Some(3));
    Ok(())
}

/// Puts a byte where an access of one byte falls.
fn lay_at(memory: &mut Image, at: Pointer, byte: u8) -> Result<(), Fault> {
    let place = memory.access(at, 1)?;
    memory.lay_byte(place, Byte::Num(byte));
    Ok(())
}

#[test]
fn bytes_are_laid_over_constants(rt: HostRuntime) -> Result<(), Fail> {
    let mut memory = sample(rt.alloc())?;
    assert!(rt; memory.access(obj(0, 3), 1) == Ok(Place { name: 0, offset: 3 }));
    assert!(rt; memory.write_access(obj(1, 3), 1) == Ok(Place { name: 1, offset: 3 }));
    assert!(rt; memory.write_access(obj(0, 3), 1) == Err(Trap::ConstWrite));
    lay_at(&mut memory, obj(0, 1), 9)?;
    assert!(rt;
        holds(
            &mut memory,
            obj(0, 0),
            [7, 9, 7, 7].map(Byte::Num).as_slice()
        )?
    );
    Ok(())
}

#[test]
fn names_are_passed_over(rt: HostRuntime) {
    let mut memory = Image::new(rt.alloc());
    for (name, next) in [(0, 0), (9, 9), (4, 9), (NAME_LIMIT, NAME_LIMIT)] {
        assert!(rt; name <= NAME_LIMIT);
        memory.pass_over(name);
        assert!(rt; memory.next() == next, "{name}");
    }
    assert!(rt; LIVE_LIMIT == 4_194_304);
}

#[test]
fn pointers_are_renamed(rt: HostRuntime) {
    let function = Pointer::Fun { index: 2 };
    for (old, new) in [
        (obj(2, -3), obj(7, -3)),
        (Pointer::Null, Pointer::Null),
        (function, function),
    ] {
        assert!(rt; old.with_name(7) == new);
    }
}

const CHECK: CheckFault = CheckFault {
    kind: CheckKind::Trap,
    kept: Kept::Word(Trap::Null),
};

fn faults_are_of_checks() -> bool {
    Fault::from(Memory) == Fault::Memory && Fault::from(CHECK) == Fault::Check(CHECK)
}

#[test]
fn traps_have_words_and_checks_are_faults(rt: HostRuntime) {
    for (trap, word) in [
        (Trap::LiveMemory, "live-memory"),
        (Trap::ConstWrite, "const-write"),
    ] {
        assert!(rt; trap.word() == word, "{word}");
    }
    assert!(rt; faults_are_of_checks());
}

#[test]
fn the_laws_are_called() {
    laws::calls_keep_pictures();
    laws::reads_give_all();
    laws::writes_read_back();
    laws::writes_leave_others();
    laws::copies_are_writes();
    laws::fills_are_writes();
    laws::made_takes_next();
    laws::null_is_past_limit();
    laws::released_is_dead();
    laws::laid_is_there();
    laws::added_is_there();
    laws::removed_is_gone();
    laws::ended_is_gone();
    laws::lookups_tell_all();
    laws::shapes_tell_accesses();
    laws::bytes_tell_reads();
}
