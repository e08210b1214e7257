//! Small tests of names and of types, by their numbers in a table.
ghost use Rattle.std.specs.Prelude.{◌≡◌};
ghost use Rattle.std.specs.List.{list_all};
ghost use Rattle.ir_tree.specs.Table.{same_name};
ghost use Rattle.ir_tree.specs.Naming.{name_at, type_at};
ghost use Rattle.ir_rules.specs.Constants.{is_pointer, is_integer, has_width};
ghost use Rattle.ir_rules.specs.Reading.{is_width, is_register, is_answer, is_void, is_struct};
ghost use Rattle.ir_rules.specs.Heads.{head_type, name_or};

use ir_tree::nodes::{NameId, TypeId, TypeNode};
use ir_tree::table::Names;
use pv_base::name::Name;

/// A type by its outermost level. A number that the table does not have stands for `ptr`.
#[derive(Clone, Copy)]
pub enum Head<'a> {
    Int(u32),
    Pointer,
    Void,
    Array { count: u128, of: TypeId },
    Struct { packed: bool, fields: &'a [TypeId] },
    Named(NameId),
}

/// The outermost level of the type of a number.
pub fn head_of<'a>(names: &'a Names, of: TypeId) -> Head<'a>
    ensures { type_at names.now of ≡ head_type names.now result }
{
    names.is_table();
    match names.type_node(of) {
        Some(TypeNode::Int(width)) => Head::Int(*width),
        Some(TypeNode::Ptr) => Head::Pointer,
        Some(TypeNode::Void) => Head::Void,
        Some(TypeNode::Array { count, of }) => Head::Array {
            count: *count,
            of: *of,
        },
        Some(TypeNode::Struct { packed, fields }) => Head::Struct {
            packed: *packed,
            fields: fields.as_slice(),
        },
        Some(TypeNode::Named(name)) => Head::Named(*name),
        None => Head::Pointer,
    }
}

/// Whether two names are spelled alike.
pub fn spelled_alike(a: &Name, b: &Name) -> bool
    ensures { result ≡ same_name a.now b.now }
{
    a == b
}

fn is_name_zero(name: &Name) -> bool
    ensures { result ≡ same_name (Name.Numbered 0) name.now }
{
    match name {
        Name::Named(_) => false,
        Name::Numbered(number) => *number == 0,
    }
}

/// The same for names that a table may lack: one that it lacks is the name 0.
fn alike(a: Option<&Name>, b: Option<&Name>) -> bool
    ensures { result ≡ same_name (name_or a.entry) (name_or b.entry) }
{
    match a {
        Some(a) => match b {
            Some(b) => spelled_alike(a, b),
            None => is_name_zero(a),
        },
        None => match b {
            Some(b) => is_name_zero(b),
            None => true,
        },
    }
}

fn name<'a>(names: &'a Names, number: NameId) -> Option<&'a Name>
    ensures { name_at names.now number ≡ name_or result }
{
    names.name(number)
}

/// Whether two numbers are of one name.
pub fn same_name(names: &Names, a: NameId, b: NameId) -> bool
    ensures { result ≡ same_name (name_at names.now a) (name_at names.now b) }
{
    alike(name(names, a), name(names, b))
}

/// Whether the type is `ptr`.
pub fn is_pointer(names: &Names, of: TypeId) -> bool
    ensures { result ≡ is_pointer (type_at names.now of) }
{
    match head_of(names, of) {
        Head::Pointer => true,
        _ => false,
    }
}

/// Whether the type is one of integers.
pub fn is_integer(names: &Names, of: TypeId) -> bool
    ensures { result ≡ is_integer (type_at names.now of) }
{
    match head_of(names, of) {
        Head::Int(_) => true,
        _ => false,
    }
}

/// Whether the type is the one of integers of a width.
pub fn has_width(names: &Names, width: u32, of: TypeId) -> bool
    ensures { result ≡ has_width width (type_at names.now of) }
{
    match head_of(names, of) {
        Head::Int(own) => own == width,
        _ => false,
    }
}

/// Whether the type is `void`.
pub fn is_void(names: &Names, of: TypeId) -> bool
    ensures { result ≡ is_void (type_at names.now of) }
{
    match head_of(names, of) {
        Head::Void => true,
        _ => false,
    }
}

/// Whether the type is a struct that is written out, and not a named one.
pub fn is_struct(names: &Names, of: TypeId) -> bool
    ensures { result ≡ is_struct (type_at names.now of) }
{
    match head_of(names, of) {
        Head::Struct {
            packed: _,
            fields: _,
        } => true,
        _ => false,
    }
}

/// Whether integers have this width.
fn is_width(width: u32) -> bool
    ensures { result ≡ is_width width }
{
    0 < width && width <= 64
}

/// Whether the type is one of registers: `iN` or `ptr`.
pub fn is_register(names: &Names, of: TypeId) -> bool
    ensures { result ≡ is_register (type_at names.now of) }
{
    match head_of(names, of) {
        Head::Int(width) => is_width(width),
        Head::Pointer => true,
        _ => false,
    }
}

/// Whether the type is one of registers, or `void`.
pub fn is_answer(names: &Names, of: TypeId) -> bool
    ensures { result ≡ is_answer (type_at names.now of) }
{
    match head_of(names, of) {
        Head::Int(width) => is_width(width),
        Head::Pointer => true,
        Head::Void => true,
        _ => false,
    }
}

/// Whether each type is one of integers.
pub fn are_integers(names: &Names, types: &[TypeId]) -> bool
    ensures { result ≡ list_all (λ k. is_integer (type_at names.now k)) types.now }
{
    types.iter().all(|k| is_integer(names, *k))
}
