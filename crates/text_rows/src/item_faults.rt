//! Whole texts that are refused: each cause at each item.
use crate::modules::first_misread;
use std::test::Fail;

const NAMED_TYPES: &[(&str, &str)] = &[
    ("%t = type { ^ }", "1 token"),
    ("%t = type\nfrob", "2 bad-type"),
    ("%t = type { %u }", "1 bad-type"),
    ("%t = type { i0 }", "1 width"),
    ("%t { i8 }", "1 operand"),
    ("%t = typo { i8 }", "1 operand"),
    ("%t = type <{ i8 }", "1 end"),
    ("%t = type <{ i8 }\n]", "2 operand"),
    ("%t = type { i8 }\ni8", "2 instruction"),
    ("%t = type { i8 }\n%t = type { i8 }\n", "2 duplicate"),
    ("%5 = type {} %5 = type {}", "1 duplicate"),
    ("%t = undef", "1 out-of-profile undef"),
    ("%t = type { poison }", "1 out-of-profile poison"),
    ("%t", "1 end"),
    ("%t = type {\n", "1 end"),
    ("%t = type { [-1 x i8] }", "1 number"),
    ("%9223372036854775808 = type {}", "1 number"),
];

const GLOBALS: &[(&str, &str)] = &[
    ("@x = global i8 ^", "1 token"),
    ("@x = constant [2 x i8] c\"a\n\"", "1 token"),
    ("@x = global void 0", "1 bad-type"),
    ("@x = global\n, i8 0", "2 bad-type"),
    ("@x = global i99 0", "1 width"),
    ("@x global i8 0", "1 operand"),
    ("@x = 7", "1 operand"),
    ("@x = private i8 0", "1 end"),
    ("%x = global i8 0\n", "1 operand"),
    ("@x = global i8 0 }", "1 instruction"),
    (
        "@x = global i8 0\n@y = global i8 0\n@x = global i8 0\n",
        "3 duplicate",
    ),
    ("@7 = global i8 0\n@07 = global i8 0\n", "2 duplicate"),
    (
        "@x = thread_local global i8 0\n",
        "1 out-of-profile thread_local",
    ),
    (
        "@x = addrspace(1) global i8 0\n",
        "1 out-of-profile addrspace",
    ),
    ("@x = alias i8, ptr @y\n", "1 out-of-profile alias"),
    (
        "@x = dso_local ifunc i8 (), ptr @y\n",
        "1 out-of-profile ifunc",
    ),
    ("@x = global i8\nundef", "2 out-of-profile undef"),
    ("@x = global { i8, i24 } zeroinitializer", "1 layout"),
    ("@x", "1 end"),
    ("@x =", "1 end"),
    ("@x = global i8\n", "1 end"),
    ("@x = global [1 x i8] c\"%d", "1 end"),
    ("@x = global i8 0,", "1 end"),
    ("@x = global [2 x i8] [ i8 1, i8 256 ]", "1 number"),
    ("@9223372036854775808 = global i8 0", "1 number"),
];

const DECLARATIONS: &[(&str, &str)] = &[
    ("declare void @f(^", "1 token"),
    ("declare void %x()\n", "1 name"),
    ("declare void\n5()", "2 name"),
    ("declare void @f(i8 %1)", "1 name"),
    ("declare { i8 } @f()", "1 bad-type"),
    ("declare @f()", "1 bad-type"),
    ("declare void @f(i8,\nvoid)", "2 bad-type"),
    ("declare i0 @f()", "1 width"),
    ("declare void @f(i65)", "1 width"),
    ("declare void @f i8)", "1 operand"),
    ("declare void @f(i8\n= 7)", "2 operand"),
    ("declare void @f(i8 %a i8)", "1 operand"),
    ("declare void @f(...,\ni8)", "1 operand"),
    ("declare void @f()\n{", "2 instruction"),
    ("declare void @f()\ndeclare void @f()", "2 duplicate"),
    ("@x = global i8 0\ndeclare void @x()\n", "2 duplicate"),
    ("declare void @f(i8 %a,\ni8 %a)", "2 duplicate"),
    ("declare void @f(ptr byval(i8))", "1 out-of-profile byval"),
    ("declare void @f(metadata)", "1 out-of-profile metadata"),
    ("declare void @f() gc \"x\"", "1 out-of-profile gc"),
    ("declare", "1 end"),
    ("declare void\n@f(i8", "2 end"),
    ("declare void @f(i8 %9223372036854775808)", "1 number"),
];

#[test]
fn types_globals_and_declarations(rt: HostRuntime) -> Result<(), Fail> {
    let alloc = rt.alloc();
    assert_eq!(rt; first_misread(&rt, alloc, NAMED_TYPES)?.as_str(), "");
    assert_eq!(rt; first_misread(&rt, alloc, GLOBALS)?.as_str(), "");
    assert_eq!(rt; first_misread(&rt, alloc, DECLARATIONS)?.as_str(), "");
    Ok(())
}

const DEFINITIONS: &[(&str, &str)] = &[
    ("define void @f() {\n  ret void ^\n}", "2 token"),
    ("define void %f() {", "1 name"),
    ("define void @f(i8, i8 %2) {", "1 name"),
    ("define void @f() {\n  ret void\n5: ret void }\n", "3 name"),
    ("define [1 x i8] @f() {", "1 bad-type"),
    ("define void @f(\n{ i8 } %a) {", "2 bad-type"),
    ("define void @f(i65 %a) {", "1 width"),
    (
        "define void @f() {\n  store i0 0, ptr null\n  ret void\n",
        "2 width",
    ),
    ("define void @f() nounwind\n}", "2 operand"),
    ("define void @f(i8 %a\n%b) {", "2 operand"),
    ("define void @f() {\n  7\n}", "2 instruction"),
    ("define void @f() {\n  ret void\n  frob {", "3 instruction"),
    ("define void @f() {\n  ret void\n}\n}", "4 instruction"),
    (
        "define void @f(i32 %a, i32 %a) { ret void }\n",
        "1 duplicate",
    ),
    (
        "define void @f() { ret void }\ndeclare void @f()\n",
        "2 duplicate",
    ),
    (
        "define void @f() {\na: ret void\na: ret void }\n",
        "3 duplicate",
    ),
    ("define void @f(i8 %a) {\n  %a = add i8 1, 2", "2 duplicate"),
    (
        "define void @f() personality ptr @g {",
        "1 out-of-profile personality",
    ),
    ("define void @f() prefix i8 1 {", "1 out-of-profile prefix"),
    (
        "define void @f() prologue i8 1 {",
        "1 out-of-profile prologue",
    ),
    (
        "define void @f(ptr inalloca(i8) %a) {",
        "1 out-of-profile inalloca",
    ),
    (
        "define void @f() {\n  %p = alloca i8\n  %q = ptrtoint ptr %p to i64\n",
        "3 out-of-profile ptrtoint",
    ),
    ("define void @f() {\n  %x = alloca i24", "2 layout"),
    ("define", "1 end"),
    ("define void @f()", "1 end"),
    ("define void @f() {\n  ret void\n\n", "3 end"),
    ("define void @f() {\n  ret i8 -129", "2 number"),
    ("define void @f() {\n9223372036854775808:", "2 number"),
];

const PASSED_ITEMS: &[(&str, &str)] = &[
    ("source_filename = ^", "1 token"),
    ("target triple = \"a\n\"", "1 token"),
    ("source_filename = frob\n", "1 end"),
    ("target", "1 end"),
    ("attributes 0 = { }", "1 operand"),
    ("attributes #x = { }", "1 operand"),
    ("attributes #0 { }", "1 operand"),
    ("attributes #0 = { }\n}", "2 instruction"),
    ("attributes #0 = { ( }\n", "1 end"),
    ("!0 !{}", "1 operand"),
    ("!{} = !{}", "1 operand"),
    ("!0 = !{\n", "1 end"),
    (
        "!0 = !{\n%x = type frob }\n@y = global i8 0\n",
        "2 bad-type",
    ),
    (
        "!0 = !{\n%x = type frob }\n@y = global i65 0\n",
        "2 bad-type",
    ),
    ("!0 = !{ %x = type frob } @y = global i65 0", "1 bad-type"),
    ("@y = global i65 0\n!0 = !{ %x = type frob }", "1 width"),
    ("@y = global i65 0 !0 = !{ %x = type frob }", "1 width"),
    ("!0 = !{\n%x = type frob\n", "2 bad-type"),
    ("!0 = !{\n%x = type frob }\n@y = global", "2 bad-type"),
    ("!0 = !{ %x = type {\n", "1 end"),
    ("@y = global i65 0\n!0 = !{ %x = type {\n", "1 width"),
    ("!0 = !{\n%x = type frob }\n^", "2 bad-type"),
    ("%t = type {}\n%t =\ntype\nfrob", "2 duplicate"),
    (
        "!0 = !{ 340282366920938463463374607431768211456 }",
        "1 number",
    ),
    ("$x = any", "1 operand"),
    ("$x = comdat\n\"any\"", "2 operand"),
    ("$() = comdat any", "1 operand"),
    ("$x = comdat", "1 end"),
];

const NO_ITEMS: &[(&str, &str)] = &[
    ("@", "1 end"),
    ("\n\n@x", "3 end"),
    ("%\n", "1 token"),
    ("\"x\"", "1 instruction"),
    ("{", "1 instruction"),
    ("7", "1 instruction"),
    ("#0", "1 instruction"),
    ("\nfrob:", "2 instruction"),
    ("global", "1 instruction"),
    ("undef", "1 out-of-profile undef"),
    ("module asm \"x\"", "1 out-of-profile module"),
    ("@x = global i8 0\n@y = global i8 ^", "2 token"),
    ("@x = global i99 0\n^", "1 width"),
    ("@x = global i8 0\n^\n@x = global i8 0", "2 token"),
];

#[test]
fn definitions_and_other_items(rt: HostRuntime) -> Result<(), Fail> {
    let alloc = rt.alloc();
    assert_eq!(rt; first_misread(&rt, alloc, DEFINITIONS)?.as_str(), "");
    assert_eq!(rt; first_misread(&rt, alloc, PASSED_ITEMS)?.as_str(), "");
    assert_eq!(rt; first_misread(&rt, alloc, NO_ITEMS)?.as_str(), "");
    Ok(())
}
