//! Instructions, after the LLVM Language Reference, over how names, types and constants are written: by number in a
//! table, or, where contracts speak of them, as what the numbers stand for.
use crate::nodes::{ConstantId, NameId, TypeId};
use int_num::ops::{BinOp, CastOp, Flags, Pred};
use pv_base::list::List;

/// What an instruction reads: a register, or a constant.
#[derive(Clone, Copy)]
pub enum Operand<N = NameId, C = ConstantId> {
    Register(N),
    Constant(C),
}

/// An operand that is written with its type: `T A`.
#[derive(Clone, Copy)]
pub struct Argument<N = NameId, T = TypeId, C = ConstantId> {
    pub of: T,
    pub value: Operand<N, C>,
}

/// What a phi takes where its block is entered from a block: `[ A, %from ]`.
#[derive(Clone, Copy)]
pub struct Arm<N = NameId, C = ConstantId> {
    pub value: Operand<N, C>,
    pub from: N,
}

/// Where a switch goes at a value: `iN value, label %to`.
#[derive(Clone, Copy)]
pub struct Case<N = NameId, C = ConstantId> {
    pub value: C,
    pub to: N,
}

/// What is called: the function of a name, or the one to which a register points.
#[derive(Clone, Copy)]
pub enum Callee<N = NameId> {
    /// `@f`
    Function(N),
    /// `%p`
    Pointer(N),
}

/// An instruction, with one field for each part that its form leaves open.
#[derive(Drop)]
pub enum Instruction<N = NameId, T = TypeId, C = ConstantId> {
    /// `%r = add nuw nsw T A, B`, and every other operation on two integers of one width
    Binary {
        to: N,
        op: BinOp,
        flags: Flags,
        of: T,
        left: Operand<N, C>,
        right: Operand<N, C>,
    },
    /// `%r = trunc nuw nsw T A to U`, `zext nneg`, `sext`
    Cast {
        to: N,
        op: CastOp,
        flags: Flags,
        of: T,
        value: Operand<N, C>,
        target: T,
    },
    /// `%r = freeze T A`
    Freeze {
        to: N,
        of: T,
        value: Operand<N, C>,
    },
    /// `%r = icmp P T A, B`
    Compare {
        to: N,
        pred: Pred,
        of: T,
        left: Operand<N, C>,
        right: Operand<N, C>,
    },
    /// `%r = select i1 C, T A, T B`
    Select {
        to: N,
        condition: Operand<N, C>,
        of: T,
        on_true: Operand<N, C>,
        on_false: Operand<N, C>,
    },
    /// `%r = phi T [ A, %b ], ..`
    Phi {
        to: N,
        of: T,
        arms: List<Arm<N, C>>,
    },
    /// `%r = alloca T`, `%r = alloca T, iN c`
    Alloca {
        to: N,
        of: T,
        count: Option<Argument<N, T, C>>,
    },
    /// `%r = load T, ptr P`
    Load {
        to: N,
        of: T,
        pointer: Operand<N, C>,
    },
    /// `store T A, ptr P`
    Store {
        of: T,
        value: Operand<N, C>,
        pointer: Operand<N, C>,
    },
    /// `%r = getelementptr inbounds T, ptr P, iN I, ..`
    Address {
        to: N,
        inbounds: bool,
        of: T,
        base: Operand<N, C>,
        indices: List<Argument<N, T, C>>,
    },
    /// `%r = call T @f(..)`, `call T %p(..)`, and `call T (ptr, ..) @f(..)`, which is `variadic`
    Call {
        to: Option<N>,
        of: T,
        variadic: bool,
        callee: Callee<N>,
        arguments: List<Argument<N, T, C>>,
    },
    /// `ret T A`, `ret void`
    Return {
        value: Option<Argument<N, T, C>>,
    },
    /// `br label %b`
    Jump {
        target: N,
    },
    /// `br i1 C, label %a, label %b`
    Branch {
        condition: Operand<N, C>,
        on_true: N,
        on_false: N,
    },
    /// `switch T A, label %d [ T c, label %b .. ]`
    Switch {
        of: T,
        value: Operand<N, C>,
        default: N,
        cases: List<Case<N, C>>,
    },
    /// `unreachable`
    Unreachable,
}
