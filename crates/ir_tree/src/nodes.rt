//! Types and constants by number: one level each, with what is in it by number.
//!
//! The text of a module may nest types and constants to any depth. They are kept in flat lists, so that no depth of the
//! text reaches the stack: what stands in a node has a smaller number than the node.
use int_num::int::Int;
use pv_base::bytes::Bytes;
use pv_base::list::List;

/// The number of a name in a table.
pub type NameId = u32;

/// The number of a type in a table.
pub type TypeId = u32;

/// The number of a constant in a table.
pub type ConstantId = u32;

/// A type, after the LLVM Language Reference.
#[derive(Drop)]
pub enum TypeNode {
    /// `iN`, by its width
    Int(u32),
    /// `ptr`
    Ptr,
    /// `void`, which only a result has
    Void,
    /// `[count x of]`
    Array { count: u128, of: TypeId },
    /// `{ T, .. }`, or the packed `<{ T, .. }>`
    Struct { packed: bool, fields: List<TypeId> },
    /// `%name`
    Named(NameId),
}

/// A constant within another, with its type.
#[derive(Clone, Copy)]
pub struct Element {
    pub of: TypeId,
    pub value: ConstantId,
}

/// A constant, after the LLVM Language Reference. `true` and `false` are integers of width 1.
#[derive(Drop)]
pub enum ConstantNode {
    Integer(Int),
    /// `null`
    Null,
    /// `zeroinitializer`
    Zero,
    /// `c".."`, by its bytes
    Text(Bytes),
    /// `[ T c, .. ]`
    Array(List<Element>),
    /// `{ T c, .. }`, or the packed `<{ T c, .. }>`
    Struct {
        packed: bool,
        fields: List<Element>,
    },
    /// `@name`, of a global or a function
    Name(NameId),
    /// `getelementptr (of, ptr base, iN index, ..)`
    Address {
        of: TypeId,
        base: ConstantId,
        indices: List<Element>,
    },
}
