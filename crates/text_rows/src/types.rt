//! Types in the body of a named type and of a global, and what is passed over around items.
use crate::modules::{first_misread, first_misread_between};
use std::test::Fail;

const ANY_TYPES: &[(&str, &str)] = &[
    ("i032", "%t = type { i32 }\n"),
    ("i64", "%t = type { i64 }\n"),
    ("i65", "1 width"),
    ("i0", "1 width"),
    ("i", "1 bad-type"),
    ("ptr", "%t = type { ptr }\n"),
    ("void", "1 bad-type"),
    ("[4 x i8]", "%t = type { [4 x i8] }\n"),
    ("[-1 x i8]", "1 number"),
    (
        "[4 x\n[2 x {i8, <{ i7 }>}]]",
        "%t = type { [4 x [2 x { i8, <{ i7 }> }]] }\n",
    ),
    ("{", "1 end"),
    ("{}", "%t = type { {} }\n"),
    ("<{}>", "%t = type { <{}> }\n"),
    ("<4 x i32>", "1 operand"),
    ("{ i8 i8 }", "1 operand"),
    ("i8,\n", "2 bad-type"),
    ("%u", "1 bad-type"),
    ("%t", "%t = type { %t }\n"),
    ("[4 x i8", "1 operand"),
    ("[4 x", "1 bad-type"),
    ("poison", "1 out-of-profile poison"),
];

const TYPES_OF_MEMORY: &[(&str, &str)] = &[
    ("i32", "@x = global i32 zeroinitializer\n"),
    ("i24", "1 layout"),
    ("i65", "1 width"),
    ("[4 x\ni7]", "1 layout"),
    ("[4 x\ni0]", "2 width"),
    ("{ i8, i64 }", "@x = global { i8, i64 } zeroinitializer\n"),
    (
        "<{ i8, i64 }>",
        "@x = global <{ i8, i64 }> zeroinitializer\n",
    ),
    ("[9223372036854775808 x i8]", "1 layout"),
    (
        "[9223372036854775808 x {}]",
        "@x = global [9223372036854775808 x {}] zeroinitializer\n",
    ),
    ("void", "1 bad-type"),
    ("", "1 bad-type"),
];

#[test]
fn types(rt: HostRuntime) -> Result<(), Fail> {
    let alloc = rt.alloc();
    assert_eq!(rt;
        first_misread_between(&rt, alloc, "%t = type { ", ANY_TYPES, " }")?.as_str(),
        ""
    );
    assert_eq!(rt;
        first_misread_between(
            &rt,
            alloc,
            "@x = global ",
            TYPES_OF_MEMORY,
            " zeroinitializer"
        )?
        .as_str(),
        ""
    );
    Ok(())
}

const PASSED: &[(&str, &str)] = &[
    ("declare dso_local noundef i32 @f()", "declare i32 @f()\n"),
    (
        "declare align 8 dereferenceable(8) #3 \"a\"=\"b\" \"c\" void @f()",
        "declare void @f()\n",
    ),
    ("@x = internal global i8 0", "@x = global i8 0\n"),
    (
        "declare memory(none, [()]) void @f()",
        "declare void @f()\n",
    ),
    (
        "declare signext byval(i8) void @f()",
        "1 out-of-profile byval",
    ),
    ("declare range(i32 0", "1 end"),
    ("declare range((i32 0)", "1 end"),
    ("declare #x void @f()", "1 operand"),
    ("declare \"a\"= void @f()", "1 operand"),
    ("@x = global i8 0, align 4, !dbg !7", "@x = global i8 0\n"),
    (
        "@x = global i8 0, section \"x\", comdat",
        "@x = global i8 0\n",
    ),
    ("@x = global i8 0, align x", "1 operand"),
    ("@x = global i8 0, section x", "1 operand"),
    ("@x = global i8 0, !dbg 7", "1 operand"),
    ("@x = global i8 0,\nfrob", "2 operand"),
];

#[test]
fn passed_over(rt: HostRuntime) -> Result<(), Fail> {
    assert_eq!(rt; first_misread(&rt, rt.alloc(), PASSED)?.as_str(), "");
    Ok(())
}
