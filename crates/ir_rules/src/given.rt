//! What an instruction defines and reads, with the types that its form gives.
use ir_tree::instruction::Operand;
use ir_tree::nodes::{ConstantId, NameId, TypeId};

/// A type as an instruction gives it: written, or fixed by its form.
#[derive(Clone, Copy)]
pub enum Given<T = TypeId> {
    /// `ptr`
    Pointer,
    /// `i1`
    Bit,
    Written(T),
}

/// A name that a function defines: an argument or a result, with its type, or a label, without one.
#[derive(Clone, Copy)]
pub struct Defined<N = NameId, T = TypeId> {
    pub name: N,
    pub of: Option<Given<T>>,
}

/// An operand of an instruction, with the type that it needs.
#[derive(Clone, Copy)]
pub struct Use<N = NameId, T = TypeId, C = ConstantId> {
    pub value: Operand<N, C>,
    pub of: Given<T>,
}

/// Where indices into a type lead: to a type, nowhere since a type has no such parts or takes no such index, or past the
/// last field of a struct.
#[derive(Clone, Copy)]
pub enum Walk<T = TypeId> {
    Through(T),
    Differs,
    Outside,
}
