//! Each form of an instruction as clang writes it without and with optimisation, and its canonical text.
use crate::instructions::first_misread;
use std::test::Fail;

const PLAIN_ARITHMETIC: &[(&str, &str)] = &[
    ("%3 = add nsw i32 %1, 7", "%3 = add nsw i32 %1, 7"),
    ("%3 = sub nsw i32 %1, %2", "%3 = sub nsw i32 %1, %2"),
    ("%3 = mul nsw i32 %1, %2", "%3 = mul nsw i32 %1, %2"),
    ("%3 = udiv i32 %1, 3", "%3 = udiv i32 %1, 3"),
    ("%3 = sdiv i32 7, %2", "%3 = sdiv i32 7, %2"),
    ("%3 = urem i32 %1, 10", "%3 = urem i32 %1, 10"),
    ("%3 = srem i32 %1, %2", "%3 = srem i32 %1, %2"),
    ("%3 = shl i32 %1, 2", "%3 = shl i32 %1, 2"),
    ("%3 = lshr i32 %1, 16", "%3 = lshr i32 %1, 16"),
    ("%3 = ashr i32 %1, 31", "%3 = ashr i32 %1, 31"),
    ("%3 = and i32 %1, 255", "%3 = and i32 %1, 255"),
    ("%3 = or i32 %1, %2", "%3 = or i32 %1, %2"),
    ("%3 = xor i32 %1, -1", "%3 = xor i32 %1, -1"),
];

const OPTIMISED_ARITHMETIC: &[(&str, &str)] = &[
    (
        "%indvars.iv.next = add nuw nsw i64 %indvars.iv, 1, !dbg !12",
        "%indvars.iv.next = add nuw nsw i64 %indvars.iv, 1",
    ),
    ("%sub = sub nuw i8 %a, -1", "%sub = sub nuw i8 %a, -1"),
    (
        "%mul = mul nsw nuw i32 %a, %a, !dbg !3",
        "%mul = mul nuw nsw i32 %a, %a",
    ),
    (
        "%div1 = udiv exact i64 %x, 8",
        "%div1 = udiv exact i64 %x, 8",
    ),
    (
        "%sub.ptr.div = sdiv exact i64 %x, 4, !dbg !3, !range !4",
        "%sub.ptr.div = sdiv exact i64 %x, 4",
    ),
    ("%rem = urem i16 %x, 10, !dbg !7", "%rem = urem i16 %x, 10"),
    ("%rem = srem i8 %x, -3", "%rem = srem i8 %x, -3"),
    (
        "%shl = shl nuw nsw i64 %x, 3",
        "%shl = shl nuw nsw i64 %x, 3",
    ),
    ("%shr = lshr exact i32 %x, 1", "%shr = lshr exact i32 %x, 1"),
    ("%shr = ashr exact i64 %x, 2", "%shr = ashr exact i64 %x, 2"),
    ("%and = and i1 %a, %b", "%and = and i1 %a, %b"),
    ("%or = or disjoint i32 %x, 1", "%or = or disjoint i32 %x, 1"),
    ("%not. = xor i1 %c, true", "%not. = xor i1 %c, true"),
];

#[test]
fn arithmetic(rt: HostRuntime) -> Result<(), Fail> {
    let alloc = rt.alloc();
    assert_eq!(rt; first_misread(&rt, alloc, PLAIN_ARITHMETIC)?.as_str(), "");
    assert_eq!(rt;
        first_misread(&rt, alloc, OPTIMISED_ARITHMETIC)?.as_str(),
        ""
    );
    Ok(())
}

const CASTS: &[(&str, &str)] = &[
    ("%3 = trunc i32 %2 to i8", "%3 = trunc i32 %2 to i8"),
    ("%3 = zext i8 %2 to i32", "%3 = zext i8 %2 to i32"),
    ("%3 = sext i32 %2 to i64", "%3 = sext i32 %2 to i64"),
    (
        "%conv = trunc nuw i64 %x to i32",
        "%conv = trunc nuw i64 %x to i32",
    ),
    (
        "%conv = trunc nsw nuw i64 %x to i1, !dbg !3",
        "%conv = trunc nuw nsw i64 %x to i1",
    ),
    (
        "%idxprom = zext nneg i32 %x to i64, !dbg !3",
        "%idxprom = zext nneg i32 %x to i64",
    ),
    ("%conv = sext i1 true to i8", "%conv = sext i1 true to i8"),
    ("%3 = freeze i1 %2", "%3 = freeze i1 %2"),
    ("%.fr = freeze ptr %p, !dbg !4", "%.fr = freeze ptr %p"),
];

const CHOICES: &[(&str, &str)] = &[
    ("%3 = icmp eq i32 %1, 0", "%3 = icmp eq i32 %1, 0"),
    ("%3 = icmp ne i8 %1, %2", "%3 = icmp ne i8 %1, %2"),
    ("%3 = icmp ugt i64 %1, 5", "%3 = icmp ugt i64 %1, 5"),
    ("%3 = icmp uge i32 %1, %2", "%3 = icmp uge i32 %1, %2"),
    ("%3 = icmp ult i16 %1, %2", "%3 = icmp ult i16 %1, %2"),
    ("%3 = icmp ule i32 %1, %2", "%3 = icmp ule i32 %1, %2"),
    ("%3 = icmp sgt i32 %1, -1", "%3 = icmp sgt i32 %1, -1"),
    ("%3 = icmp sge i32 %1, %2", "%3 = icmp sge i32 %1, %2"),
    ("%3 = icmp slt i32 %1, %2", "%3 = icmp slt i32 %1, %2"),
    ("%3 = icmp sle i32 %1, %2", "%3 = icmp sle i32 %1, %2"),
    (
        "%cmp = icmp samesign ult i32 %a, %b, !dbg !1",
        "%cmp = icmp ult i32 %a, %b",
    ),
    (
        "%tobool.not = icmp eq ptr %p, null",
        "%tobool.not = icmp eq ptr %p, null",
    ),
    (
        "%3 = select i1 %2, i32 %0, i32 0",
        "%3 = select i1 %2, i32 %0, i32 0",
    ),
    (
        "%cond = select i1 %cmp, ptr %p, ptr null, !prof !5",
        "%cond = select i1 %cmp, ptr %p, ptr null",
    ),
    (
        "%spec.select = select i1 true, i8 1, i8 -1",
        "%spec.select = select i1 true, i8 1, i8 -1",
    ),
];

#[test]
fn casts_and_choices(rt: HostRuntime) -> Result<(), Fail> {
    let alloc = rt.alloc();
    assert_eq!(rt; first_misread(&rt, alloc, CASTS)?.as_str(), "");
    assert_eq!(rt; first_misread(&rt, alloc, CHOICES)?.as_str(), "");
    Ok(())
}
