//! Instructions with their names resolved: registers, edges and functions by number, and of types what the machine needs of
//! them. There is one for each instruction of a block, in the same order.
use crate::cases::Cases;
use int_num::int::Int;
use int_num::ops::{BinOp, CastOp, Flags, Pred};
use pv_base::external::External;
use pv_base::list::List;

/// The type of a register.
#[derive(Clone, Copy, PartialEq, Eq, Debug)]
pub enum Scalar {
    /// `iN`, by its width
    Int(u32),
    /// `ptr`
    Pointer,
}

/// A constant, as a register would hold it.
#[derive(Clone, Copy, Debug)]
pub enum Fixed {
    Int(Int),
    Null,
    /// A place in a global, by the global's number, counted in bytes from its start.
    Global { index: u32, offset: i64 },
    /// A function, by its number.
    Function(u32),
    /// An address that leaves null or a function: to read it is a trap.
    Nowhere,
}

/// What an instruction reads: a register of its frame by number, or a constant.
#[derive(Clone, Copy, Debug)]
pub enum Operand {
    Register(u32),
    Constant(Fixed),
}

/// One index of an address.
#[derive(Clone, Copy, Debug)]
pub enum Index {
    /// So many elements, each of so many bytes.
    Scaled { value: Operand, stride: u64 },
    /// A field of a struct, by its offset in bytes.
    Field(u64),
}

/// An instruction. An edge is named by its number in the function.
#[derive(Drop)]
pub enum Op {
    Binary {
        to: u32,
        op: BinOp,
        flags: Flags,
        left: Operand,
        right: Operand,
    },
    Cast {
        to: u32,
        op: CastOp,
        flags: Flags,
        value: Operand,
        width: u32,
    },
    Freeze {
        to: u32,
        value: Operand,
    },
    Compare {
        to: u32,
        pred: Pred,
        left: Operand,
        right: Operand,
    },
    Select {
        to: u32,
        condition: Operand,
        on_true: Operand,
        on_false: Operand,
    },
    /// It belongs to the edges that lead to its block.
    Phi,
    /// The size is in bytes, and 2^64 - 1 where it is greater.
    Alloca {
        to: u32,
        size: u64,
    },
    Load {
        to: u32,
        of: Scalar,
        pointer: Operand,
    },
    Store {
        of: Scalar,
        value: Operand,
        pointer: Operand,
    },
    Address {
        to: u32,
        inbounds: bool,
        base: Operand,
        indices: List<Index>,
    },
    /// A call of a function that the module defines.
    Call {
        to: Option<u32>,
        function: u32,
        arguments: List<Operand>,
    },
    /// A call through a pointer, with the type that it is called at; `None` is `void`.
    CallPointer {
        to: Option<u32>,
        pointer: Operand,
        result: Option<Scalar>,
        parameters: List<Scalar>,
        arguments: List<Operand>,
    },
    CallExternal {
        to: Option<u32>,
        external: External,
        arguments: List<Operand>,
    },
    Return {
        value: Option<Operand>,
    },
    Jump {
        edge: u32,
    },
    Branch {
        condition: Operand,
        on_true: u32,
        on_false: u32,
    },
    /// The edge of each value, by the value's bits.
    Switch {
        value: Operand,
        default: u32,
        cases: Cases,
    },
    Unreachable,
    /// An instruction that breaks a rule of modules, in no checked one.
    Stuck,
}
