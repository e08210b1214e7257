//! Turn counts of counted tests at widths 1, 8, 32 and 64.
ghost use Rattle.std.specs.Prelude.{◌≡◌};

use int_num::int::Int;
use int_num::ops::Pred;
use std::process::Abort;
use turn_count::test::Test;
use turn_count::turns::turns;

/// The predicate, whether the tested value is its left operand, the answer that leads in, and whether the counter of the
/// next turn is tested.
type Form = (Pred, bool, bool, bool);

const LEFT: bool = true;

const RIGHT: bool = false;

const ON_TRUE: bool = true;

const ON_FALSE: bool = false;

const THIS: bool = false;

const NEXT: bool = true;

/// A test; the width, the counter's first value, its step and the bound; the cap; and the count, by another tool.
type Row = (Form, (u32, u64, u64, u64), u32, u32);

const ROWS: &[Row] = &[
    // counts 0, 1 and 2, below, at and above the cap
    ((Pred::Slt, LEFT, ON_TRUE, THIS), (32, 10, 1, 10), 100, 0),
    ((Pred::Slt, LEFT, ON_TRUE, THIS), (32, 9, 1, 10), 100, 1),
    ((Pred::Slt, LEFT, ON_TRUE, THIS), (32, 8, 1, 10), 100, 2),
    ((Pred::Slt, LEFT, ON_TRUE, THIS), (32, 0, 1, 10), 100, 10),
    ((Pred::Slt, LEFT, ON_TRUE, THIS), (32, 0, 1, 10), 10, 10),
    ((Pred::Slt, LEFT, ON_TRUE, THIS), (32, 0, 1, 10), 9, 9),
    ((Pred::Slt, LEFT, ON_TRUE, THIS), (32, 0, 1, 10), 0, 0),
    // the next turn's counter
    ((Pred::Slt, LEFT, ON_TRUE, NEXT), (32, 0, 1, 10), 100, 9),
    ((Pred::Slt, LEFT, ON_TRUE, NEXT), (32, 9, 1, 10), 100, 0),
    ((Pred::Ne, LEFT, ON_TRUE, NEXT), (32, 0, 5, 100), 100, 19),
    ((Pred::Ne, LEFT, ON_TRUE, NEXT), (32, 100, 5, 100), 100, 100),
    (
        (Pred::Ult, RIGHT, ON_FALSE, NEXT),
        (32, 0xffffffff, 1, 3),
        100,
        4,
    ),
    // each predicate on both sides and with both answers, signed and unsigned, up and down to the bound
    ((Pred::Ult, LEFT, ON_TRUE, THIS), (8, 119, 3, 140), 40, 7),
    ((Pred::Ult, LEFT, ON_FALSE, THIS), (8, 161, 253, 140), 40, 8),
    ((Pred::Ult, RIGHT, ON_TRUE, THIS), (8, 161, 253, 140), 40, 7),
    ((Pred::Ult, RIGHT, ON_FALSE, THIS), (8, 119, 3, 140), 40, 8),
    ((Pred::Ule, LEFT, ON_TRUE, THIS), (8, 119, 3, 140), 40, 8),
    ((Pred::Ule, LEFT, ON_FALSE, THIS), (8, 161, 253, 140), 40, 7),
    ((Pred::Ule, RIGHT, ON_TRUE, THIS), (8, 161, 253, 140), 40, 8),
    ((Pred::Ule, RIGHT, ON_FALSE, THIS), (8, 119, 3, 140), 40, 7),
    ((Pred::Ugt, LEFT, ON_TRUE, THIS), (8, 161, 253, 140), 40, 7),
    ((Pred::Ugt, LEFT, ON_FALSE, THIS), (8, 119, 3, 140), 40, 8),
    ((Pred::Ugt, RIGHT, ON_TRUE, THIS), (8, 119, 3, 140), 40, 7),
    (
        (Pred::Ugt, RIGHT, ON_FALSE, THIS),
        (8, 161, 253, 140),
        40,
        8,
    ),
    ((Pred::Uge, LEFT, ON_TRUE, THIS), (8, 161, 253, 140), 40, 8),
    ((Pred::Uge, LEFT, ON_FALSE, THIS), (8, 119, 3, 140), 40, 7),
    ((Pred::Uge, RIGHT, ON_TRUE, THIS), (8, 119, 3, 140), 40, 8),
    (
        (Pred::Uge, RIGHT, ON_FALSE, THIS),
        (8, 161, 253, 140),
        40,
        7,
    ),
    ((Pred::Slt, LEFT, ON_TRUE, THIS), (8, 239, 3, 254), 40, 5),
    ((Pred::Slt, LEFT, ON_FALSE, THIS), (8, 16, 253, 254), 40, 7),
    ((Pred::Slt, RIGHT, ON_TRUE, THIS), (8, 16, 253, 254), 40, 6),
    ((Pred::Slt, RIGHT, ON_FALSE, THIS), (8, 239, 3, 254), 40, 6),
    ((Pred::Sle, LEFT, ON_TRUE, THIS), (8, 239, 3, 254), 40, 6),
    ((Pred::Sle, LEFT, ON_FALSE, THIS), (8, 16, 253, 254), 40, 6),
    ((Pred::Sle, RIGHT, ON_TRUE, THIS), (8, 16, 253, 254), 40, 7),
    ((Pred::Sle, RIGHT, ON_FALSE, THIS), (8, 239, 3, 254), 40, 5),
    ((Pred::Sgt, LEFT, ON_TRUE, THIS), (8, 16, 253, 254), 40, 6),
    ((Pred::Sgt, LEFT, ON_FALSE, THIS), (8, 239, 3, 254), 40, 6),
    ((Pred::Sgt, RIGHT, ON_TRUE, THIS), (8, 239, 3, 254), 40, 5),
    ((Pred::Sgt, RIGHT, ON_FALSE, THIS), (8, 16, 253, 254), 40, 7),
    ((Pred::Sge, LEFT, ON_TRUE, THIS), (8, 16, 253, 254), 40, 7),
    ((Pred::Sge, LEFT, ON_FALSE, THIS), (8, 239, 3, 254), 40, 5),
    ((Pred::Sge, RIGHT, ON_TRUE, THIS), (8, 239, 3, 254), 40, 6),
    ((Pred::Sge, RIGHT, ON_FALSE, THIS), (8, 16, 253, 254), 40, 6),
    // one value, at a multiple of the step and elsewhere
    ((Pred::Ne, LEFT, ON_TRUE, THIS), (8, 0, 5, 100), 1000, 20),
    ((Pred::Ne, RIGHT, ON_TRUE, THIS), (8, 100, 251, 0), 1000, 20),
    ((Pred::Eq, LEFT, ON_FALSE, THIS), (8, 0, 5, 100), 1000, 20),
    ((Pred::Ne, LEFT, ON_FALSE, THIS), (8, 7, 1, 7), 1000, 1),
    ((Pred::Eq, LEFT, ON_TRUE, THIS), (8, 7, 1, 7), 1000, 1),
    ((Pred::Eq, LEFT, ON_TRUE, THIS), (8, 6, 1, 7), 1000, 0),
    ((Pred::Ne, LEFT, ON_TRUE, THIS), (8, 0, 3, 10), 1000, 174),
    ((Pred::Ne, LEFT, ON_TRUE, THIS), (8, 0, 3, 10), 100, 100),
    ((Pred::Ne, LEFT, ON_TRUE, THIS), (8, 0, 4, 6), 1000, 1000),
    ((Pred::Ne, LEFT, ON_TRUE, THIS), (8, 10, 3, 1), 1000, 253),
    // round the wrap
    (
        (Pred::Ugt, LEFT, ON_TRUE, THIS),
        (32, 0xfffffffe, 1, 3),
        100,
        2,
    ),
    (
        (Pred::Ult, LEFT, ON_TRUE, THIS),
        (32, 5, 0xffffffff, 6),
        100,
        6,
    ),
    (
        (Pred::Sgt, LEFT, ON_TRUE, THIS),
        (32, 0x7ffffffe, 1, 0),
        100,
        2,
    ),
    (
        (Pred::Slt, LEFT, ON_TRUE, THIS),
        (32, 0x80000001, 0xffffffff, 0),
        100,
        2,
    ),
    (
        (Pred::Ule, LEFT, ON_TRUE, THIS),
        (32, 0, 1, 0xffffffff),
        1000,
        1000,
    ),
    (
        (Pred::Sle, LEFT, ON_TRUE, THIS),
        (32, 0, 1, 0x7fffffff),
        1000,
        1000,
    ),
    (
        (Pred::Sle, LEFT, ON_TRUE, THIS),
        (32, 0x7ffffff0, 2, 0x7ffffffe),
        50,
        50,
    ),
    (
        (Pred::Sle, LEFT, ON_TRUE, THIS),
        (32, 0x7ffffff1, 2, 0x7ffffffe),
        50,
        7,
    ),
    ((Pred::Ule, LEFT, ON_TRUE, THIS), (8, 0, 3, 253), 1000, 85),
    ((Pred::Ule, LEFT, ON_TRUE, THIS), (8, 0, 3, 254), 1000, 85),
    ((Pred::Uge, LEFT, ON_TRUE, THIS), (8, 9, 254, 2), 1000, 4),
    // a step of 0
    ((Pred::Slt, LEFT, ON_TRUE, THIS), (32, 9, 0, 10), 77, 77),
    ((Pred::Slt, LEFT, ON_TRUE, THIS), (32, 10, 0, 10), 77, 0),
    ((Pred::Ne, LEFT, ON_TRUE, NEXT), (32, 9, 0, 10), 77, 77),
    ((Pred::Eq, LEFT, ON_TRUE, THIS), (64, 9, 0, 9), 77, 77),
    ((Pred::Ult, LEFT, ON_TRUE, THIS), (32, 0, 0, 0), 77, 0),
    // the greatest and the least step of width 1, 8, 32, 64
    ((Pred::Ult, LEFT, ON_TRUE, THIS), (1, 0, 1, 1), 9, 1),
    ((Pred::Ne, LEFT, ON_TRUE, THIS), (1, 0, 1, 1), 9, 1),
    ((Pred::Ne, LEFT, ON_TRUE, NEXT), (1, 0, 1, 1), 9, 0),
    ((Pred::Slt, LEFT, ON_TRUE, THIS), (1, 1, 1, 0), 9, 1),
    ((Pred::Sle, LEFT, ON_TRUE, THIS), (1, 0, 1, 0), 9, 9),
    ((Pred::Sgt, LEFT, ON_TRUE, THIS), (1, 0, 1, 1), 9, 1),
    ((Pred::Ule, LEFT, ON_TRUE, THIS), (1, 0, 0, 0), 9, 9),
    ((Pred::Slt, LEFT, ON_TRUE, THIS), (8, 0, 127, 127), 9, 1),
    ((Pred::Sgt, LEFT, ON_TRUE, THIS), (8, 1, 129, 129), 9, 9),
    ((Pred::Slt, LEFT, ON_TRUE, THIS), (8, 0, 128, 5), 9, 9),
    ((Pred::Ult, LEFT, ON_TRUE, THIS), (8, 3, 128, 10), 9, 1),
    ((Pred::Ne, LEFT, ON_TRUE, THIS), (8, 1, 128, 129), 9, 1),
    ((Pred::Uge, LEFT, ON_TRUE, THIS), (8, 255, 255, 250), 9, 6),
    (
        (Pred::Slt, LEFT, ON_TRUE, THIS),
        (32, 0x80000000, 0x7fffffff, 0),
        9,
        2,
    ),
    (
        (Pred::Sgt, LEFT, ON_TRUE, THIS),
        (32, 5, 0x80000000, 4),
        9,
        1,
    ),
    (
        (Pred::Ult, LEFT, ON_TRUE, THIS),
        (32, 3, 0x80000000, 10),
        9,
        1,
    ),
    (
        (Pred::Ugt, LEFT, ON_TRUE, THIS),
        (32, 0xffffffff, 0xffffffff, 0xfffffffc),
        9,
        3,
    ),
    (
        (Pred::Slt, LEFT, ON_TRUE, THIS),
        (64, 0x8000000000000000, 0x7fffffffffffffff, 0),
        9,
        2,
    ),
    (
        (Pred::Sgt, LEFT, ON_TRUE, THIS),
        (64, 5, 0x8000000000000000, 4),
        9,
        1,
    ),
    (
        (Pred::Ult, LEFT, ON_TRUE, THIS),
        (64, 5, 0x8000000000000000, 6),
        9,
        1,
    ),
    (
        (Pred::Uge, LEFT, ON_TRUE, THIS),
        (
            64,
            0xffffffffffffffff,
            0xffffffffffffffff,
            0xfffffffffffffffd,
        ),
        9,
        3,
    ),
    (
        (Pred::Sge, RIGHT, ON_FALSE, THIS),
        (
            64,
            0x7fffffffffffffff,
            0x8000000000000000,
            0x7fffffffffffffff,
        ),
        9,
        0,
    ),
    // caps that only a few operations reach
    (
        (Pred::Ult, LEFT, ON_TRUE, THIS),
        (64, 0, 1, 0xffffffffffffffff),
        u32::MAX,
        u32::MAX,
    ),
    (
        (Pred::Sgt, LEFT, ON_TRUE, THIS),
        (64, 0x7fffffffffffffff, 0xffffffffffffffff, 0),
        u32::MAX,
        u32::MAX,
    ),
    (
        (Pred::Ult, LEFT, ON_TRUE, THIS),
        (64, 0, 1, 0xee6b2800),
        u32::MAX,
        4_000_000_000,
    ),
    (
        (Pred::Sge, RIGHT, ON_FALSE, THIS),
        (64, 0xee6b2800, 0xffffffffffffffff, 0),
        u32::MAX,
        4_000_000_000,
    ),
    (
        (Pred::Ne, LEFT, ON_TRUE, NEXT),
        (64, 0, 0x100000000, 0xffffffff00000000),
        u32::MAX,
        4_294_967_294,
    ),
    (
        (Pred::Ule, LEFT, ON_TRUE, THIS),
        (32, 0, 1, 0xffffffff),
        u32::MAX,
        u32::MAX,
    ),
    (
        (Pred::Slt, LEFT, ON_TRUE, THIS),
        (8, 0, 0, 1),
        u32::MAX,
        u32::MAX,
    ),
];

/// The integer of these bits, which have to fit.
fn integer(rt: &impl Abort, width: u32, bits: u64) -> Int
    ensures { result.width ≡ width }
{
    assert!(rt; 0 < width && width <= 64);
    assert!(rt; u128::from(bits) < 1u128 << width);
    Int::new(width, bits)
}

/// The turn count of a row.
fn count_of(rt: &impl Abort, row: &Row) -> u32 {
    let (form, numbers, cap, _) = *row;
    let (pred, tested_left, into_on, latch_value) = form;
    let (width, first, step, bound) = numbers;
    let test = Test {
        pred,
        tested_left,
        into_on,
        latch_value,
        step: integer(rt, width, step),
    };
    turns(
        &test,
        integer(rt, width, first),
        integer(rt, width, bound),
        cap,
    )
}

/// The first row that has another count.
fn first_other_count(rt: &impl Abort, rows: &[Row]) -> Option<usize> {
    for number in 0..rows.len() {
        if count_of(rt, &rows[number]) != rows[number].3 {
            return Some(number);
        }
    }
    None
}

#[test]
fn turns_are_counted_up_to_the_first_that_leads_out(rt: HostRuntime) {
    assert_eq!(rt; first_other_count(&rt, ROWS), None);
}
