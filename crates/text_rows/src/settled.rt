//! Instructions that may be read in more than one way, each by its name, and how they are read.
use crate::instructions::{first_let_through, first_misread};
use std::alloc::Global;
use std::process::Abort;
use std::test::Fail;

const READ: &[(&str, &str, &str)] = &[
    (
        "a number behind a word is the value before a comma or a parenthesis",
        "call void @f(i32 noundef 5, i32 signext 7)",
        "call void @f(i32 5, i32 7)",
    ),
    (
        "another number belongs to its word",
        "call void @f(ptr align 8 %p)",
        "call void @f(ptr %p)",
    ),
    (
        "words behind a call are passed over up to an instruction",
        "call void @f() nounwind memory(none) #2",
        "call void @f()",
    ),
    (
        "widths of a cast that do not fit are left to the check",
        "%x = trunc i8 %a to i32",
        "%x = trunc i8 %a to i32",
    ),
    (
        "inbounds of a constant address has no meaning",
        "ret ptr getelementptr inbounds (i8, ptr null, i64 1)",
        "ret ptr getelementptr (i8, ptr null, i64 1)",
    ),
    (
        "the one function type that may be written",
        "call i32 (ptr, ...) @printf(ptr @s)",
        "call i32 (ptr, ...) @printf(ptr @s)",
    ),
    (
        "the greatest count, of elements without a size",
        "%x = alloca [340282366920938463463374607431768211455 x {}]",
        "%x = alloca [340282366920938463463374607431768211455 x {}]",
    ),
    ("one is true", "ret i1 1", "ret i1 true"),
    ("minus one is true", "ret i1 -1", "ret i1 true"),
    ("nought is false", "ret i1 0", "ret i1 false"),
    ("true at another type", "ret i8 true", "ret i8 true"),
    (
        "zeroinitializer is kept apart",
        "ret i8 zeroinitializer",
        "ret i8 zeroinitializer",
    ),
    (
        "flags in any order and twice",
        "%x = sub nsw nuw nsw i8 1, 2",
        "%x = sub nuw nsw i8 1, 2",
    ),
    (
        "a switch without a case",
        "switch i8 %v, label %d [\n]",
        "switch i8 %v, label %d [ ]",
    ),
    (
        "what is passed over behind an instruction, in any order and twice",
        "unreachable, align 4, !dbg !1, comdat, section \"x\", align 8",
        "unreachable",
    ),
    (
        "no count, but what is passed over",
        "%x = alloca i8, !dbg !3, align 4",
        "%x = alloca i8",
    ),
];

const REFUSED: &[(&str, &str, &str)] = &[
    (
        "markers without a call",
        "fast\ntail add i8 1, 2",
        "1 instruction",
    ),
    (
        "a field by a register",
        "%x = getelementptr { i8 }, ptr %p, i64 0, i32\n%i",
        "2 operand",
    ),
    (
        "a field that the struct lacks",
        "%x = getelementptr <{ i8 }>, ptr %p, i64 0, i32\n-1",
        "2 number",
    ),
    (
        "an index into no aggregate",
        "%x = getelementptr [2 x i8], ptr %p, i64 0, i64 0,\ni64 1",
        "2 operand",
    ),
    (
        "a width goes before a type that must stand",
        "br i0 %c, label %a, label %b",
        "1 width",
    ),
    (
        "another function type",
        "call i32 (ptr,\nptr, ...) @f()",
        "2 operand",
    ),
    (
        "a bracket for a register's type",
        "%x = add [2 x",
        "1 bad-type",
    ),
    (
        "a fault inside a type goes before its layout",
        "%x = alloca { i24,\ni0 }",
        "2 width",
    ),
    ("a negative count", "%x = alloca [\n-1 x i8]", "2 number"),
    ("a global for a label", "br label @a", "1 name"),
    (
        "an operation without a result",
        "xor i8 1, 2",
        "1 instruction",
    ),
    (
        "a store with a result",
        "%r =\nstore i8 1, ptr %p",
        "2 instruction",
    ),
    ("a result of void", "%r = call\nvoid @f()", "2 bad-type"),
    (
        "two spellings of one case",
        "switch i8 %v, label %d [ i8 -1, label %a\ni8 255, label %b ]",
        "2 duplicate",
    ),
    (
        "zeroinitializer for a case of nought",
        "switch i8 %v, label %d [ i8 0, label %a\ni8 zeroinitializer, label %b ]",
        "2 duplicate",
    ),
    (
        "an address without an index",
        "%x = getelementptr i8, ptr %p\nret void",
        "2 operand",
    ),
    ("a phi without an arm", "%x = phi i8\nret void", "2 operand"),
];

fn settled(
    rt: &impl Abort,
    alloc: Global,
    rows: &[(&str, &str, &str)],
    refused: bool,
) -> Result<String, Fail> {
    for (name, text, wanted) in rows {
        let row: [(&str, &str); 1] = [(*text, *wanted)];
        let told = if refused {
            first_let_through(rt, alloc, &row)?
        } else {
            first_misread(rt, alloc, &row)?
        };
        if !told.is_empty() {
            return Ok(format!(in alloc; "{name}: {told}")?);
        }
    }
    Ok(String::new(alloc))
}

#[test]
fn settled_instructions(rt: HostRuntime) -> Result<(), Fail> {
    let alloc = rt.alloc();
    assert_eq!(rt; settled(&rt, alloc, READ, false)?.as_str(), "");
    assert_eq!(rt; settled(&rt, alloc, REFUSED, true)?.as_str(), "");
    Ok(())
}
