//! The operations and their flags, the predicates, and the causes of a result that is no number, in the words of the LLVM
//! Language Reference.

/// An operation on two integers of one width.
#[derive(Clone, Copy, PartialEq, Eq, Debug)]
pub enum BinOp {
    Add,
    Sub,
    Mul,
    /// The unsigned quotient.
    Udiv,
    /// The signed quotient, rounded toward zero.
    Sdiv,
    /// The unsigned rest.
    Urem,
    /// The signed rest, with the dividend's sign.
    Srem,
    /// A shift to the left.
    Shl,
    /// A shift to the right that fills with zeros.
    Lshr,
    /// A shift to the right that fills with the sign.
    Ashr,
    And,
    Or,
    Xor,
}

/// A change of width.
#[derive(Clone, Copy, PartialEq, Eq, Debug)]
pub enum CastOp {
    /// To a smaller width: the low bits.
    Trunc,
    /// To a larger width, filled with zeros.
    Zext,
    /// To a larger width, filled with the sign.
    Sext,
}

/// A comparison of two integers of one width: `U` compares them as unsigned numbers, `S` as signed ones.
#[derive(Clone, Copy, PartialEq, Eq, Debug)]
pub enum Pred {
    Eq,
    Ne,
    Ugt,
    Uge,
    Ult,
    Ule,
    Sgt,
    Sge,
    Slt,
    Sle,
}

/// What an instruction promises of its operands or its result. An operation looks only at the flags that it may have.
#[derive(Clone, Copy, PartialEq, Eq, Debug)]
pub struct Flags {
    /// The signed result does not leave the width's signed range.
    pub nsw: bool,
    /// The unsigned result does not leave the width's unsigned range.
    pub nuw: bool,
    /// A division leaves no rest, and a shift to the right loses no one.
    pub exact: bool,
    /// The operands of `or` share no one.
    pub disjoint: bool,
    /// The operand of `zext` is not negative.
    pub nneg: bool,
}

/// Why a result is no number.
#[derive(Clone, Copy, PartialEq, Eq, Debug)]
pub enum Poison {
    /// `nuw` or `nsw` was promised of a sum, a difference, a product or a shift to the left, and its range is left.
    Overflow,
    /// A shift by the width or more.
    Shift,
    /// A division by zero, or of the least signed number by -1.
    Divide,
    /// Another promise was broken.
    Flag,
}

/// An operation that joins many integers into one, in any order.
#[derive(Clone, Copy, PartialEq, Eq, Debug)]
pub enum RedOp {
    Add,
    Mul,
    And,
    Or,
    Xor,
    /// The greater signed number.
    Smax,
    /// The smaller signed number.
    Smin,
    /// The greater unsigned number.
    Umax,
    /// The smaller unsigned number.
    Umin,
}

/// A reduction: its operation with the flags of the instruction, on integers of this width.
#[derive(Clone, Copy, PartialEq, Eq, Debug)]
pub struct RedKind {
    pub op: RedOp,
    pub flags: Flags,
    pub width: u32,
}
