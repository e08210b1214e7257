//! Layouts of types that are built step by step.
ghost use Rattle.std.specs.Prelude.{◌<◌, length, All, IsTrue};
ghost use Rattle.ir_tree.specs.Filling.{NamedWithin};

use ir_tree::items::NamedType;
use ir_tree::layout::Layout;
use ir_tree::nodes::{NameId, TypeId};
use ir_tree::table::Names;
use ir_tree::whole::{Module, field_place, layout_at};
use pv_base::list::List;
use pv_base::name::Name;
use pv_base::want::Memory;
use std::alloc::Global as Allocator;
use std::test::Fail;

/// A step that makes a type of those that were made before it and stand in none yet.
#[derive(Clone, Copy)]
enum Step {
    Int(u32),
    Pointer,
    Void,
    /// An array of the last type.
    Array(u128),
    /// A struct of the last types, so many.
    Struct(usize),
    Packed(usize),
    /// The name `%0`, whose type is the last one of all.
    Name,
}

use Step::*;

fn is_type(names: &Names, of: TypeId) -> bool
    ensures { IsTrue result → of < length names.now.types }
{
    (of as usize) < names.type_count()
}

fn array(names: &mut Names, count: u128, of: TypeId) -> Result<TypeId, Memory> {
    if is_type(names, of) {
        names.array(count, of)
    } else {
        Err(Memory)
    }
}

fn are_types(names: &Names, fields: &[TypeId]) -> bool
    ensures { IsTrue result → All (λ k. k < length names.now.types) fields.now }
{
    fields.iter().all(|k| is_type(names, *k))
}

fn structure(names: &mut Names, packed: bool, fields: List<TypeId>) -> Result<TypeId, Memory> {
    if are_types(names, fields.as_slice()) {
        names.structure(packed, fields)
    } else {
        Err(Memory)
    }
}

fn named(names: &mut Names, name: NameId) -> Result<TypeId, Memory> {
    if (name as usize) < names.name_count() {
        names.named(name)
    } else {
        Err(Memory)
    }
}

/// The last types of a stack, so many.
fn taken(alloc: Allocator, stack: &mut List<TypeId>, count: usize) -> Result<List<TypeId>, Memory> {
    let mut fields = List::new(alloc);
    let from = stack.len().saturating_sub(count);
    for at in from..stack.len() {
        fields.push(*stack.at(at))?;
    }
    for _ in 0..count {
        let _ = stack.pop();
    }
    Ok(fields)
}

fn make(
    alloc: Allocator,
    names: &mut Names,
    stack: &mut List<TypeId>,
    one: Step,
) -> Result<TypeId, Fail> {
    let of = match one {
        Step::Int(width) => names.int(width)?,
        Step::Pointer => names.pointer()?,
        Step::Void => names.void()?,
        Step::Array(count) => match stack.pop() {
            Some(of) => array(names, count, of)?,
            None => return Err(Memory.into()),
        },
        Step::Struct(count) => structure(names, false, taken(alloc, stack, count)?)?,
        Step::Packed(count) => structure(names, true, taken(alloc, stack, count)?)?,
        Step::Name => {
            let name = names.number(Name::Numbered(0))?;
            named(names, name)?
        }
    };
    Ok(of)
}

/// The type that steps make.
fn made(alloc: Allocator, names: &mut Names, steps: &[Step]) -> Result<TypeId, Fail> {
    let mut stack = List::new(alloc);
    let mut last = names.pointer()?;
    for one in steps {
        last = make(alloc, names, &mut stack, *one)?;
        stack.push(last)?;
    }
    Ok(last)
}

fn is_named(names: &Names, one: NamedType) -> bool
    ensures { IsTrue result → NamedWithin names.now one }
{
    (one.name as usize) < names.name_count() && (one.of as usize) < names.type_count()
}

/// The module with one named type, `%0`.
fn module(alloc: Allocator, mut names: Names, of: TypeId) -> Result<Module, Fail> {
    let name = names.number(Name::Numbered(0))?;
    let one = NamedType { name, of };
    let mut types = List::new(alloc);
    if !is_named(&names, one) {
        return Err(Memory.into());
    }
    types.push(one)?;
    let tree = Module::new(alloc, names, types, List::new(alloc), List::new(alloc))?;
    Ok(tree)
}

/// The size and alignment of the type that steps make.
fn laid(alloc: Allocator, steps: &[Step]) -> Result<Option<Layout>, Fail> {
    let mut names = Names::new(alloc);
    let of = made(alloc, &mut names, steps)?;
    let tree = module(alloc, names, of)?;
    Ok(layout_at(&tree, of))
}

const MOST: u128 = 340282366920938463463374607431768211455;

const LAYOUTS: &[(&[Step], u64, u64)] = &[
    (&[Int(1)], 1, 1),
    (&[Int(64)], 8, 8),
    (&[Pointer], 8, 8),
    (&[Int(8), Int(32), Struct(2)], 8, 4),
    (&[Int(8), Int(32), Packed(2)], 5, 1),
    (&[Int(8), Int(16), Struct(2), Array(3)], 12, 2),
    (&[Int(64), Array(0)], 0, 8),
    (&[Struct(0)], 0, 1),
    (&[Struct(0), Array(MOST)], 0, 1),
    (
        &[Int(32), Array(2305843009213693951)],
        9223372036854775804,
        4,
    ),
    (
        &[Int(8), Int(8), Int(64), Struct(2), Int(8), Struct(3)],
        32,
        8,
    ),
    (&[Pointer, Int(8), Struct(2)], 16, 8),
];

#[test]
fn lays_types_out(rt: HostRuntime) -> Result<(), Fail> {
    for (steps, size, align) in LAYOUTS {
        let (size, align) = (*size, *align);
        assert!(rt; laid(rt.alloc(), steps)? == Some(Layout { size, align }));
    }
    Ok(())
}

const NO_LAYOUT: &[&[Step]] = &[
    &[Int(24)],
    &[Void],
    &[Int(8), Int(24), Struct(2)],
    &[Int(32), Array(2305843009213693952)],
    &[Int(32), Array(4611686018427387904)],
    &[Name, Array(2), Struct(1)],
    &[Name, Array(0), Struct(1)],
];

#[test]
fn lays_no_such_type_out(rt: HostRuntime) -> Result<(), Fail> {
    for steps in NO_LAYOUT {
        assert!(rt; laid(rt.alloc(), steps)?.is_none());
    }
    Ok(())
}

/// A struct of two of the last type, so many times.
fn doubled(alloc: Allocator, times: usize) -> Result<Option<Layout>, Fail> {
    let mut names = Names::new(alloc);
    let mut of = names.int(8)?;
    for _ in 0..times {
        let fields = List::from_slice(alloc, &[of, of])?;
        of = structure(&mut names, false, fields)?;
    }
    let tree = module(alloc, names, of)?;
    Ok(layout_at(&tree, of))
}

/// An array of one of the last type, so many times.
fn nested(alloc: Allocator, times: usize) -> Result<Option<Layout>, Fail> {
    let mut names = Names::new(alloc);
    let mut of = names.int(8)?;
    for _ in 0..times {
        of = array(&mut names, 1, of)?;
    }
    let tree = module(alloc, names, of)?;
    Ok(layout_at(&tree, of))
}

#[test]
fn lays_deep_types_out(rt: HostRuntime) -> Result<(), Fail> {
    let alloc = rt.alloc();
    let whole = Layout {
        size: 1099511627776,
        align: 1,
    };
    assert!(rt; doubled(alloc, 40)? == Some(whole) && doubled(alloc, 63)?.is_none());
    assert!(rt; nested(alloc, 1_000_000)? == Some(Layout { size: 1, align: 1 }));
    Ok(())
}

const FIELDS: &[(&[Step], u32, Option<u64>)] = &[
    (&[Int(8), Int(32), Struct(2)], 1, Some(4)),
    (&[Int(8), Int(32), Packed(2)], 1, Some(1)),
    (&[Int(8), Int(32), Int(8), Struct(3)], 2, Some(8)),
    (&[Int(8), Int(32), Struct(2)], 2, None),
    (&[Int(8), Array(2)], 0, None),
];

#[test]
fn finds_fields(rt: HostRuntime) -> Result<(), Fail> {
    for (steps, index, want) in FIELDS {
        let mut names = Names::new(rt.alloc());
        let of = made(rt.alloc(), &mut names, steps)?;
        let tree = module(rt.alloc(), names, of)?;
        assert!(rt; field_place(&tree, of, *index) == *want);
    }
    Ok(())
}
