//! Each operation against the table.
ghost use Rattle.std.specs.Prelude.{◌≡◌};
ghost use Rattle.int_num.specs.Integer.{IsWidth};

use crate::{integer_table, other_integers};
use int_num::binary::binary;
use int_num::cast::cast;
use int_num::compare::compare;
use int_num::int::Int;
use int_num::ops::{BinOp, CastOp, Flags, Poison, Pred, RedOp};
use int_num::reduce::{identity, reduce};
use int_num::sign::signed;
use std::process::Abort;

fn flags_of(code: u64) -> Flags {
    Flags {
        nsw: code & 1 != 0,
        nuw: code & 2 != 0,
        exact: code & 4 != 0,
        disjoint: code & 8 != 0,
        nneg: code & 16 != 0,
    }
}

/// The cause, 0 for none, and the value.
fn answer_of(outcome: Result<Int, Poison>) -> (u64, u64) {
    match outcome {
        Ok(value) => (0, value.bits()),
        Err(Poison::Overflow) => (1, 0),
        Err(Poison::Shift) => (2, 0),
        Err(Poison::Divide) => (3, 0),
        Err(Poison::Flag) => (4, 0),
    }
}

fn width_of(number: u64, rt: &impl Abort) -> u32
    ensures range { IsWidth result }
    ensures value { result ≡ number }
{
    assert!(rt; 0 < number && number <= 64);
    number as u32
}

/// The integer of a width and bits that fit it.
fn int_of(number: u64, bits: u64, rt: &impl Abort) -> Int
    ensures { result.width ≡ number }
{
    let width = width_of(number, rt);
    assert!(rt; u128::from(bits) < 1u128 << width);
    Int::new(width, bits)
}

const OPERATIONS: &[(BinOp, &[[u64; 6]])] = &[
    (BinOp::Add, &integer_table::ADD),
    (BinOp::Sub, &integer_table::SUB),
    (BinOp::Mul, &integer_table::MUL),
    (BinOp::Udiv, &integer_table::UDIV),
    (BinOp::Sdiv, &integer_table::SDIV),
    (BinOp::Urem, &integer_table::UREM),
    (BinOp::Srem, &integer_table::SREM),
    (BinOp::Shl, &integer_table::SHL),
    (BinOp::Lshr, &integer_table::LSHR),
    (BinOp::Ashr, &integer_table::ASHR),
    (BinOp::And, &integer_table::AND),
    (BinOp::Or, &integer_table::OR),
    (BinOp::Xor, &integer_table::XOR),
];

#[test]
fn binary_operations(rt: HostRuntime) {
    for (op, rows) in OPERATIONS {
        for [width, flags, a, b, cause, value] in *rows {
            let (one, other) = (int_of(*width, *a, &rt), int_of(*width, *b, &rt));
            let answer = answer_of(binary(*op, flags_of(*flags), one, other));
            assert!(rt;
                answer == (*cause, *value),
                "{op:?} {width} {flags} {a} {b}"
            );
        }
    }
}

const CASTS: &[(CastOp, &[[u64; 6]])] = &[
    (CastOp::Trunc, &other_integers::TRUNC),
    (CastOp::Zext, &other_integers::ZEXT),
    (CastOp::Sext, &other_integers::SEXT),
];

/// The answer to a change of width that there is.
fn cast_of(op: CastOp, flags: Flags, a: Int, new: u64, rt: &impl Abort) -> (u64, u64) {
    let new = width_of(new, rt);
    assert!(rt;
        if op == CastOp::Trunc {
            new < a.width()
        } else {
            a.width() < new
        }
    );
    answer_of(cast(op, flags, a, new))
}

#[test]
fn changes_of_width(rt: HostRuntime) {
    for (op, rows) in CASTS {
        for [old, flags, a, new, cause, value] in *rows {
            let answer = cast_of(*op, flags_of(*flags), int_of(*old, *a, &rt), *new, &rt);
            assert!(rt;
                answer == (*cause, *value),
                "{op:?} {old} {flags} {a} {new}"
            );
        }
    }
}

const PREDS: &[Pred] = &[
    Pred::Eq,
    Pred::Ne,
    Pred::Ugt,
    Pred::Uge,
    Pred::Ult,
    Pred::Ule,
    Pred::Sgt,
    Pred::Sge,
    Pred::Slt,
    Pred::Sle,
];

#[test]
fn comparisons(rt: HostRuntime) {
    for [width, a, b, tests] in other_integers::COMPARE {
        let (one, other) = (int_of(width, a, &rt), int_of(width, b, &rt));
        let mut rest = tests;
        for pred in PREDS {
            let holds = compare(*pred, one, other);
            assert!(rt; holds == (rest % 2 == 1), "{pred:?} {width} {a} {b}");
            rest /= 2;
        }
    }
}

const REDUCTIONS: &[RedOp] = &[
    RedOp::Add,
    RedOp::Mul,
    RedOp::And,
    RedOp::Or,
    RedOp::Xor,
    RedOp::Smax,
    RedOp::Smin,
    RedOp::Umax,
    RedOp::Umin,
];

/// What is joined of two integers, and of the first and the identity.
fn joined(op: RedOp, one: Int, other: Int) -> (u64, u64)
    requires { one.width ≡ other.width }
{
    let both = reduce(op, one, other);
    let same = reduce(op, one, identity(op, one.width()));
    (both.bits(), same.bits())
}

#[test]
fn reductions(rt: HostRuntime) {
    for [width, a, b, add, mul, and, or, xor, smax, smin, umax, umin] in other_integers::REDUCE {
        let (one, other) = (int_of(width, a, &rt), int_of(width, b, &rt));
        let wanted = [add, mul, and, or, xor, smax, smin, umax, umin];
        for (op, want) in REDUCTIONS.iter().zip(wanted) {
            assert!(rt;
                joined(*op, one, other) == (want, a),
                "{op:?} {width} {a} {b}"
            );
        }
    }
}

const SIGNED: &[(u64, u64, i64)] = &[
    (1, 1, -1),
    (8, 127, 127),
    (8, 128, -128),
    (64, 18446744073709551615, -1),
];

#[test]
fn signed_numbers(rt: HostRuntime) {
    for (width, bits, want) in SIGNED {
        assert!(rt;
            signed(int_of(*width, *bits, &rt)) == *want,
            "{width} {bits}"
        );
    }
}
