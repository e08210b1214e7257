//! Pieces of bytes: numbers, pointers, texts and padding.
ghost use Rattle.std.specs.Prelude.{◌≡◌, ◌<◌, ◌≤◌, ◌++◌, ◌/◌, map, max, length, replicate, OnOk};
ghost use Rattle.ir_tree.specs.Naming.{type_at};
ghost use Rattle.mem_image.specs.declared.object.Byte.TheVariants.{Num};
ghost use Rattle.ir_bytes.specs.Initial.{zeros, low_bytes, byte_count, pointer_bytes, fixed_bytes, scalar_bytes, size_in, align_in, aligned_in, gap};

use int_num::bytes::low_bytes;
use int_num::int::Int;
use ir_code::op::Fixed;
use ir_tree::nodes::TypeId;
use ir_tree::whole::{Module, layout_at, layout_is_bounded};
use mem_image::object::{Byte, Pointer};
use pv_base::list::List;
use pv_base::want::Memory;

/// How many bytes are missing up to a multiple of an alignment.
pub(crate) fn gap(len: usize, align: u64) -> u64
    requires { 0 < align }
    ensures { result ≡ gap len align }
{
    (align - len as u64 % align) % align
}

/// Appends so many zeros.
pub(crate) fn push_zeros(bytes: &mut List<Byte>, count: u64) -> Result<(), Memory>
    ensures { OnOk result (bytes.new ≡ bytes.old ++ zeros count) }
{
    for _ in 0..count {
        bytes.push(Byte::Num(0))?;
    }
    Ok(())
}

/// Appends a text.
pub(crate) fn push_text(bytes: &mut List<Byte>, text: &[u8]) -> Result<(), Memory>
    ensures { OnOk result (bytes.new ≡ bytes.old ++ map Num text.now) }
{
    for byte in text {
        bytes.push(Byte::Num(*byte))?;
    }
    Ok(())
}

/// Appends so many bytes of a number, the low ones first.
pub(crate) fn push_low_bytes(
    bytes: &mut List<Byte>,
    count: usize,
    number: Int,
) -> Result<(), Memory>
    requires { count ≤ 8 }
    ensures { OnOk result (bytes.new ≡ bytes.old ++ low_bytes count number.bits) }
{
    push_text(bytes, &low_bytes(number)[..count])
}

/// Appends the eight bytes of a pointer.
pub(crate) fn push_pointer(bytes: &mut List<Byte>, pointer: Pointer) -> Result<(), Memory>
    ensures { OnOk result (bytes.new ≡ bytes.old ++ pointer_bytes pointer) }
{
    for part in &[0u8, 1, 2, 3, 4, 5, 6, 7] {
        bytes.push(Byte::Ptr {
            part: *part,
            pointer,
        })?;
    }
    Ok(())
}

/// How many bytes an integer takes: those of a width that has a layout.
pub(crate) fn byte_count(number: Int) -> usize
    ensures value { result ≡ byte_count number.width }
    ensures most { result ≤ 8 }
{
    match number.width() {
        1 | 8 => 1,
        16 => 2,
        32 => 4,
        64 => 8,
        _ => 0,
    }
}

/// Appends the bytes of what a register may hold.
pub(crate) fn push_fixed(bytes: &mut List<Byte>, value: Fixed) -> Result<(), Memory>
    ensures { OnOk result (bytes.new ≡ bytes.old ++ fixed_bytes value) }
{
    match value {
        Fixed::Int(number) => push_low_bytes(bytes, byte_count(number), number),
        Fixed::Null | Fixed::Nowhere => push_zeros(bytes, 8),
        Fixed::Global { index, offset } => push_pointer(
            bytes,
            Pointer::Obj {
                name: index,
                offset,
            },
        ),
        Fixed::Function(index) => push_pointer(bytes, Pointer::Fun { index }),
    }
}

/// The same of a constant that may be none.
pub(crate) fn push_scalar(bytes: &mut List<Byte>, value: Option<Fixed>) -> Result<(), Memory>
    ensures { OnOk result (bytes.new ≡ bytes.old ++ scalar_bytes value) }
{
    match value {
        Some(value) => push_fixed(bytes, value),
        None => Ok(()),
    }
}

/// The size of a type, and 0 where it has none.
pub(crate) fn size(tree: &Module, of: TypeId) -> u64
    ensures { result ≡ size_in tree.now (type_at tree.now.names of) }
{
    match layout_at(tree, of) {
        Some(layout) => layout.size,
        None => 0,
    }
}

/// The alignment of a field of a type, and 1 where it has none.
pub(crate) fn alignment(tree: &Module, packed: bool, of: TypeId) -> u64
    ensures value { result ≡ aligned_in tree.now packed (type_at tree.now.names of) }
    ensures some { 0 < result }
{
    layout_is_bounded(tree, of);
    if packed {
        return 1;
    }
    match layout_at(tree, of) {
        Some(layout) => layout.align,
        None => 1,
    }
}
