//! Modules that are refused.
use crate::calls::{check, joined, run, turning};
use crate::modules::{COUNT_ITEMS, TABLE, TABLE_ITEMS};
use ir_reader::whole::read_module;
use pv_base::bytes::Bytes;
use pv_base::limits::FILE_LIMIT;
use pv_base::want::Memory;
use rule_tests::meets::meets_rules;
use std::alloc::Global;
use std::test::Fail;

/// A function `main` of this body.
fn main_of(alloc: Global, body: &str) -> Result<Bytes, Memory> {
    joined(alloc, &["define i32 @main() {\n", body, "}\n"])
}

const RETURN: &str = "define i32 @main() {\n  ret i32 0\n}\n";

#[test]
fn texts_are_refused(rt: HostRuntime) -> Result<(), Fail> {
    let alloc = rt.alloc();
    let cut = "@scratch = global [16 x i32] zeroinitializer\n@fmt = constant [4 x i8] c\"%d";
    // text; line and cause
    let rows: [(&str, &str); 25] = [
        (cut, "2 end"),
        ("?", "1 token"),
        ("@x = global i32 0\n@x = global i32 0\n", "2 duplicate"),
        ("@x = global i65 0\n", "1 width"),
        ("@x = global %t zeroinitializer\n", "1 bad-type"),
        ("@x = global i24 0\n", "1 layout"),
        ("@x = global i8 256\n", "1 number"),
        ("@x = global i8 %y\n", "1 operand"),
        ("@x = global [4194305 x i8] zeroinitializer\n", "1 layout"),
        ("frob\n", "1 instruction"),
        (
            "define i32 @main() {\n  %1 = frob i32 0\n}\n",
            "2 instruction",
        ),
        ("define i32 @main() {\n  %2 = add i32 0, 0\n", "2 name"),
        (
            "define i32 @main() {\n  %1 = ptrtoint ptr null to i64\n",
            "2 out-of-profile ptrtoint",
        ),
        (
            "define i32 @main() {\n  %a = add i32 0, 0\n  %a = add i32 0, 0\n",
            "3 duplicate",
        ),
        ("define i32 @main() {\n  ret i32 0\n", "2 end"),
        ("\n\ndefine i32 @main(i32 %a, i32 %a) {\n", "3 duplicate"),
        (
            "%t = type { i32, %t }\n@x = global %t zeroinitializer\n",
            "2 layout",
        ),
        ("target triple = \"a\n", "1 token"),
        (
            "define i32 @main() {\n1a:\n  ret i32 0\n}\n",
            "2 instruction",
        ),
        (
            "define i32 @main() {\na:\n  %a = add i32 1, 2\n",
            "3 duplicate",
        ),
        (
            "define i32 @main() {\na:\n  br label %b\nb:\n  ret i32 0\nb:\n",
            "6 duplicate",
        ),
        ("define i32 @main() {\n  %x = add i8 256, 0\n", "2 number"),
        ("define i32 @main() {\n  %x = add i65 1, 0\n", "2 width"),
        ("define i32 @main() {\n  %x = add i0 1, 0\n", "2 width"),
        (
            "define i32 @main() {\n  %x = icmp gt i32 1, 2\n",
            "2 operand",
        ),
    ];
    for (text, why) in &rows {
        let wanted = joined(alloc, &["3 |refused module line ", why, "\n"])?;
        let told = run(alloc, text.as_bytes(), "", "9")?;
        assert_eq!(rt;
            told.as_str(),
            String::from_utf8_lossy(alloc, wanted.as_slice())?.as_str()
        );
    }
    Ok(())
}

/// Bodies of main, each with its cause and place.
const REFUSED_BODIES: &[(&str, &str)] = &[
    ("  ret i32 %x\n", "unknown-name @main:0"),
    ("  br label %x\n", "unknown-name @main:0"),
    (
        "  %x = icmp eq i32 0, 0\n  ret i32 %x\n",
        "type-differs @main:1",
    ),
    ("  %x = add i32 0, 0\n", "terminator @main:0"),
    ("a:\n  br label %a\n", "entry-has-preds @main:0"),
    (
        "a:\n  br label %b\nb:\n  %x = phi i32 [ 0, %b ]\n  ret i32 %x\n",
        "phi-edges @main:1",
    ),
    (
        "  br label %b\nb:\n  %x = alloca i32\n  ret i32 0\n",
        "alloca-place @main:1",
    ),
    (
        "  %x = call i32 @frob()\n  ret i32 %x\n}\ndeclare i32 @frob()\ndefine void @f() {\n  ret void\n",
        "external @main:0",
    ),
    ("  call void @main()\n  ret i32 0\n", "type-differs @main:0"),
    ("entry:\n  ret i32 %entry\n", "unknown-name @main:0"),
    (
        "  %x = add i32 1, 2\n  br label %x\n",
        "unknown-name @main:1",
    ),
    (
        "  call i32 @putchar(i32 65)\n  ret i32 0\n",
        "unknown-name @main:0",
    ),
    ("  %x = add i8 1, 2\n  ret i32 %x\n", "type-differs @main:1"),
    (
        "  %x = add i8 1, 2\n  %y = add i32 %x, 1\n  ret i32 0\n",
        "type-differs @main:1",
    ),
    (
        "  %x = add i32 1, 2\n  br i1 %x, label %a, label %a\na:\n  ret i32 0\n",
        "type-differs @main:1",
    ),
    ("  ret i8 0\n", "type-differs @main:0"),
    ("  ret i32 0\n  ret i32 0\n", "terminator @main:0"),
    ("a:\nb:\n  ret i32 0\n", "terminator @main:0"),
    (
        "a:\n  br label %b\nb:\n  br i1 0, label %a, label %b\n",
        "entry-has-preds @main:1",
    ),
    (
        "a:\n  br label %b\nb:\n  %x = add i32 1, 2\n  %p = phi i32 [ 0, %a ]\n  ret i32 0\n",
        "phi-edges @main:2",
    ),
    (
        "a:\n  %p = phi i32 [ 0, %a ]\n  ret i32 0\n",
        "phi-edges @main:0",
    ),
    (
        "a:\n  br label %b\nb:\n  %p = phi i32 [ 0, %c ]\n  ret i32 0\nc:\n  ret i32 0\n",
        "phi-edges @main:1",
    ),
    (
        "a:\n  br i1 1, label %b, label %c\nb:\n  br label %c\nc:\n  %p = phi i32 [ 0, %a ]\n  ret i32 0\n",
        "phi-edges @main:2",
    ),
    (
        "a:\n  br i1 1, label %b, label %b\nb:\n  %p = phi i32 [ 0, %a ], [ 1, %a ]\n  ret i32 0\n",
        "phi-edges @main:1",
    ),
    (
        "a:\n  br label %b\nb:\n  %p = phi i8 [ 0, %a ]\n  ret i32 %p\n",
        "type-differs @main:2",
    ),
    (
        "  %x = icmp eq i8 0, 0\n  %y = add i32 %z, %x\n  ret i32 0\n",
        "unknown-name @main:1",
    ),
    (
        "  %x = add i8 1, 2\n  %y = add i32 %x, 1\n  ret i32 %z\n",
        "type-differs @main:1",
    ),
    (
        "  switch i32 0, label %a [ i32 1, label %b ]\na:\n  ret i32 0\n",
        "unknown-name @main:0",
    ),
    (
        "  %n = add i32 1, 0\n  %p = alloca i8, i32 %n\n  ret i32 0\n",
        "alloca-place @main:1",
    ),
    (
        "  call void @llvm.memset.p0.i64(ptr null, i8 0, i64 0, i1 true)\n  ret i32 0\n}\ndeclare void @llvm.memset.p0.i64(ptr, i8, i64, i1)\ndefine void @f() {\n  ret void\n",
        "external @main:0",
    ),
];

#[test]
fn modules_are_refused(rt: HostRuntime) -> Result<(), Fail> {
    let alloc = rt.alloc();
    for (body, why) in REFUSED_BODIES {
        let module = main_of(alloc, body)?;
        let wanted = joined(alloc, &["3 |refused check ", why, "\n"])?;
        let told = check(alloc, module.as_slice())?;
        assert_eq!(rt;
            told.as_str(),
            String::from_utf8_lossy(alloc, wanted.as_slice())?.as_str()
        );
    }
    Ok(())
}

#[test]
fn whole_modules_are_refused(rt: HostRuntime) -> Result<(), Fail> {
    let alloc = rt.alloc();
    // text; cause and place
    let rows: [(&str, &str); 7] = [
        ("", "no-main"),
        (COUNT_ITEMS, "no-main"),
        (TABLE_ITEMS, "no-main"),
        ("declare i32 @main()\n", "no-main"),
        ("define i64 @main() {\n  ret i64 0\n}\n", "main-type"),
        (
            "@g = global ptr @h\ndefine i32 @main() {\n  ret i32 0\n}\n",
            "unknown-name @g",
        ),
        (
            "define i32 @main() {\n  ret i32 %x\n}\n@g = global ptr @h\n",
            "unknown-name @g",
        ),
    ];
    for (text, why) in &rows {
        let wanted = joined(alloc, &["3 |refused check ", why, "\n"])?;
        let told = check(alloc, text.as_bytes())?;
        assert_eq!(rt;
            told.as_str(),
            String::from_utf8_lossy(alloc, wanted.as_slice())?.as_str()
        );
    }
    Ok(())
}

/// Whether the module of a text meets the rules, by the plain test of them.
fn meets(alloc: Global, text: &[u8]) -> Result<bool, Fail> {
    if text.len() > FILE_LIMIT {
        return Err("the text is too long")?;
    }
    match read_module(alloc, text) {
        Ok(module) => Ok(meets_rules(alloc, &module)?),
        Err(_) => Err("the text is no module")?,
    }
}

#[test]
fn the_plain_test_of_the_rules(rt: HostRuntime) -> Result<(), Fail> {
    let alloc = rt.alloc();
    // one body of main for each cause, and one that has none; whether it meets the rules
    let rows: [(&str, bool); 10] = [
        ("  ret i32 0\n", true),
        ("  ret i32 %x\n", false),
        ("  ret i8 0\n", false),
        ("  %x = add i32 0, 0\n", false),
        ("a:\n  br label %a\n", false),
        ("a:\n  %p = phi i32 [ 0, %a ]\n  ret i32 0\n", false),
        ("  br label %b\nb:\n  %x = alloca i32\n  ret i32 0\n", false),
        (
            "  %x = call i32 @f()\n  ret i32 %x\n}\ndeclare i32 @f()\ndefine void @g() {\n  ret void\n",
            false,
        ),
        ("  %x = call i32 %y(i32 0)\n  ret i32 %x\n", false),
        ("  %x = call i32 @main(i32 0)\n  ret i32 %x\n", false),
    ];
    for (body, wanted) in &rows {
        let module = main_of(alloc, body)?;
        assert_eq!(rt; meets(alloc, module.as_slice())?, *wanted);
    }
    assert!(rt; !meets(alloc, b"@n = global i32 1\n")?);
    assert!(rt; !meets(alloc, b"define i64 @main() {\n  ret i64 0\n}\n")?);
    Ok(())
}

/// Each cut of a module is refused by one line: by the rules where it ends between items, since `main` is not there yet.
#[test]
fn cut_texts(rt: HostRuntime) -> Result<(), Fail> {
    let alloc = rt.alloc();
    let table = turning(alloc, TABLE_ITEMS, "3", TABLE)?;
    for text in [RETURN.as_bytes(), table.as_slice()] {
        for end in 0..text.len().saturating_sub(1) {
            let told = check(alloc, &text[..end])?;
            let lines = told.as_bytes().iter().filter(|b| **b == b'\n').count();
            assert!(rt; told.as_bytes().starts_with(b"3 |refused ") && lines == 1);
        }
    }
    Ok(())
}

#[test]
fn names_have_at_most_4096_bytes(rt: HostRuntime) -> Result<(), Fail> {
    let alloc = rt.alloc();
    let longest = vec![in alloc; b'a'; 4096]?;
    let name = str::from_utf8(longest.as_slice()).ok().ok_or("text")?;
    let module = main_of(
        alloc,
        format!(in alloc; "{name}:\n  %{name}b = add i32 1, 2\n  ret i32 0\n")?.as_str(),
    )?;
    let told = check(alloc, module.as_slice())?;
    assert_eq!(rt; told.as_str(), "3 |refused module line 3 too-long\n");
    let module = main_of(alloc, format!(in alloc; "{name}:\n  ret i32 0\n")?.as_str())?;
    let told = check(alloc, module.as_slice())?;
    assert_eq!(rt;
        told.as_str(),
        "0 accepted functions 1 globals 0 instructions 1\n|"
    );
    Ok(())
}
