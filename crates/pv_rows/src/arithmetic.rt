//! Integers at the edges of their widths.
use crate::calls::run;
use pv_base::want::Memory;
use std::alloc::Global;
use std::test::Fail;

/// The answer to a module that returns 1 where `%r` is the number, which this line sets at this type.
fn compared(alloc: Global, line: &str, of: &str, number: &str) -> Result<String, Memory> {
    let text = format!(in alloc;
        "define i32 @main() {{\n  %r = {line}\n  %c = icmp eq {of} %r, {number}\n  br i1 %c, label %yes, label %no\nyes:\n  ret i32 1\nno:\n  ret i32 0\n}}\n"
    )?;
    run(alloc, text.as_bytes(), "", "9")
}

#[test]
fn operations_at_their_edges(rt: HostRuntime) -> Result<(), Fail> {
    let alloc = rt.alloc();
    // line, type, result
    let cases = [
        ("add i1 1, 1", "i1", "0"),
        ("add i8 255, 1", "i8", "0"),
        ("add i8 127, 1", "i8", "-128"),
        ("add i32 2147483647, 1", "i32", "-2147483648"),
        (
            "add i64 9223372036854775807, 1",
            "i64",
            "-9223372036854775808",
        ),
        ("sub i1 0, 1", "i1", "1"),
        ("sub i8 3, 5", "i8", "-2"),
        ("sub i32 -2147483648, 1", "i32", "2147483647"),
        ("sub i64 0, 1", "i64", "18446744073709551615"),
        ("mul i1 1, 1", "i1", "1"),
        ("mul i8 16, 16", "i8", "0"),
        ("mul i32 65537, 65536", "i32", "65536"),
        (
            "mul i64 -1, 9223372036854775807",
            "i64",
            "-9223372036854775807",
        ),
    ];
    for (line, of, number) in &cases {
        let told = compared(alloc, *line, *of, *number)?;
        assert_eq!(rt; told.as_str(), "0 |ended 1 steps 4\n");
    }
    Ok(())
}

#[test]
fn predicates_at_their_edges(rt: HostRuntime) -> Result<(), Fail> {
    let alloc = rt.alloc();
    // predicate; of the least and the greatest number with a sign; of two equal numbers
    let predicates = [
        ("eq", "0", "1"),
        ("ne", "1", "0"),
        ("ugt", "1", "0"),
        ("uge", "1", "1"),
        ("ult", "0", "0"),
        ("ule", "0", "1"),
        ("sgt", "0", "0"),
        ("sge", "0", "1"),
        ("slt", "1", "0"),
        ("sle", "1", "1"),
    ];
    let edges = [
        ("i1", "-1", "0"),
        ("i8", "-128", "127"),
        ("i32", "-2147483648", "2147483647"),
        ("i64", "-9223372036854775808", "9223372036854775807"),
    ];
    for (of, least, greatest) in &edges {
        for (pred, apart, equal) in &predicates {
            let line = format!(in alloc; "icmp {pred} {of} {least}, {greatest}")?;
            let told = compared(alloc, line.as_str(), "i1", *apart)?;
            assert_eq!(rt; told.as_str(), "0 |ended 1 steps 4\n");
            let line = format!(in alloc; "icmp {pred} {of} {least}, {least}")?;
            let told = compared(alloc, line.as_str(), "i1", *equal)?;
            assert_eq!(rt; told.as_str(), "0 |ended 1 steps 4\n");
        }
    }
    Ok(())
}

#[test]
fn operations_that_trap(rt: HostRuntime) -> Result<(), Fail> {
    let alloc = rt.alloc();
    // line; the trap
    let cases = [
        ("sdiv i32 1, 0", "divide"),
        ("srem i8 -128, -1", "divide"),
        ("udiv exact i8 3, 0", "divide"),
        ("udiv exact i8 3, 2", "flag"),
        ("shl i8 1, 8", "shift"),
        ("shl nuw i8 200, 9", "shift"),
        ("shl nuw i8 200, 1", "overflow"),
        ("lshr exact i8 1, 1", "flag"),
        ("add nsw i8 127, 1", "overflow"),
        ("sub nuw i8 0, 1", "overflow"),
        ("mul nsw i8 64, 2", "overflow"),
        ("or disjoint i8 1, 1", "flag"),
        ("trunc nuw i32 256 to i8", "flag"),
        ("zext nneg i8 -1 to i32", "flag"),
        ("sdiv i32 %r, 0", "unset-register"),
    ];
    for (line, trap) in &cases {
        let module = format!(in alloc; "define i32 @main() {{\n  %r = {line}\n  ret i32 0\n}}\n")?;
        let wanted = format!(in alloc; "1 |trapped {trap} @main:0 steps 1\n")?;
        let told = run(alloc, module.as_bytes(), "", "9")?;
        assert_eq!(rt; told.as_str(), wanted.as_str());
    }
    Ok(())
}
