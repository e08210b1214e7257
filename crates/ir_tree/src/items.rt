//! The items of a module: named types, globals and functions with their blocks, over how names, types and constants are
//! written. Lists are in text order.
use crate::instruction::Instruction;
use crate::nodes::{ConstantId, NameId, TypeId};
use pv_base::list::List;

/// `%name = type T`
#[derive(Clone, Copy)]
pub struct NamedType<N = NameId, T = TypeId> {
    pub name: N,
    pub of: T,
}

/// `@name = global T INIT`, or `constant` in place of `global`
#[derive(Clone, Copy)]
pub struct Global<N = NameId, T = TypeId, C = ConstantId> {
    pub name: N,
    pub of: T,
    pub constant: bool,
    pub init: C,
}

/// A parameter. Only one of a declaration may lack its name.
#[derive(Clone, Copy)]
pub struct Param<N = NameId, T = TypeId> {
    pub name: Option<N>,
    pub of: T,
}

/// A block: its label, and its instructions, of which the last is the terminator.
#[derive(Drop)]
pub struct Block<N = NameId, T = TypeId, C = ConstantId> {
    pub label: N,
    pub instructions: List<Instruction<N, T, C>>,
}

/// A function. One that is `declared` has no blocks; the first block of another is its entry block. `variadic` is `...`
/// after the parameters.
#[derive(Drop)]
pub struct Function<N = NameId, T = TypeId, C = ConstantId> {
    pub name: N,
    pub result: T,
    pub params: List<Param<N, T>>,
    pub variadic: bool,
    pub blocks: List<Block<N, T, C>>,
    pub declared: bool,
}
