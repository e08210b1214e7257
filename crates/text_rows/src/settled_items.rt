//! Modules that may be read in more than one way, each by its name, and how they are read.
use crate::modules::read;
use std::alloc::Global;
use std::process::Abort;
use std::test::Fail;

const SCOPES: &[(&str, &str, &str)] = &[
    (
        "a call without a result takes no number",
        "define void @f() {\n  call void @f()\n  %1 = add i8 1, 2\n  ret void\n}\n",
        "define void @f() {\n0:\n  call void @f()\n  %1 = add i8 1, 2\n  ret void\n}\n",
    ),
    (
        "a value and a label of one name",
        "define void @f() {\na:\n  %a = add i8 1, 2\n",
        "3 duplicate",
    ),
    (
        "a label and a parameter of one name",
        "define void @f(i8 %a) {\na:\n",
        "2 duplicate",
    ),
    (
        "a type, a global and a value of one name",
        "%a = type {}\n@a = global {} {}\ndefine void @f(i8 %a) {\nb:\n  ret void\n}\n",
        "%a = type {}\n@a = global {} {}\ndefine void @f(i8 %a) {\nb:\n  ret void\n}\n",
    ),
    (
        "a body without instructions has an empty block",
        "define void @f(i8) { }",
        "define void @f(i8 %0) {\n1:\n}\n",
    ),
    (
        "an instruction behind a terminator stays in its block",
        "define void @f() {\na:\n  ret void\n  unreachable\n}\n",
        "define void @f() {\na:\n  ret void\n  unreachable\n}\n",
    ),
    (
        "a declaration keeps the names of its parameters",
        "declare void @f(i8 noundef %a, i16)",
        "declare void @f(i8 %a, i16)\n",
    ),
    (
        "parameters of a declaration without a name take numbers",
        "declare void @f(i8, i16 %1, i32)",
        "declare void @f(i8, i16 %1, i32)\n",
    ),
    (
        "a declaration of points alone",
        "declare i8 @f(...)",
        "declare i8 @f(...)\n",
    ),
    (
        "a definition with points",
        "define void @f(i8 %a, ...) {",
        "1 out-of-profile ...",
    ),
];

const ITEMS: &[(&str, &str, &str)] = &[
    (
        "a type behind a lexical fault is not known",
        "@x = global %t zeroinitializer\n^\n%t = type { i8 }\n",
        "1 bad-type",
    ),
    (
        "a type behind another fault is known",
        "@x = global %t zeroinitializer\nfrob\n%t = type { i8 }\n",
        "2 instruction",
    ),
    (
        "a fault in a named type is met in its body",
        "@x = global %T zeroinitializer\n%T = type { i0 }\n",
        "2 width",
    ),
    (
        "a fault in a named type before its use",
        "%T = type { i0 }\n@x = global %T zeroinitializer\n",
        "1 width",
    ),
    (
        "a type that is not named",
        "@x = global %U zeroinitializer\n%T = type { i8 }\n",
        "1 bad-type",
    ),
    (
        "a type that holds itself has no layout",
        "@x = global %T zeroinitializer\n%T = type { %T }\n",
        "1 layout",
    ),
    (
        "globals at the limit",
        "@x = global [4194304 x i8] zeroinitializer\n@y = global {} {}\n",
        "@x = global [4194304 x i8] zeroinitializer\n@y = global {} {}\n",
    ),
    (
        "the first global above the limit",
        "@x = global [4194304 x i8] zeroinitializer\n@y = global i8 0\n@z = global i8 0\n",
        "2 layout",
    ),
    (
        "a target runs to its string",
        "target frob [ undef\n= \"x\"",
        "",
    ),
    ("angles are no brackets", "!0 = !{ < undef [ ( !1 ) ] }", ""),
    ("a comdat of a refused word", "$undef = comdat poison", ""),
    (
        "a refused word among words",
        "declare noundef poison void @f()",
        "1 out-of-profile poison",
    ),
    (
        "a refused word in a group",
        "declare range(undef) void @f()",
        "declare void @f()\n",
    ),
    ("a named type of an integer", "%T = type i8\n", "1 operand"),
    (
        "a named type of an array",
        "%T = type [1 x i8]\n",
        "1 operand",
    ),
    (
        "a named type of another",
        "%T = type %U\n%U = type {}\n",
        "1 operand",
    ),
    (
        "a named type of an unknown one",
        "%T = type %U\n",
        "1 bad-type",
    ),
    ("a named type of void", "%T = type void\n", "1 bad-type"),
    ("a named type without a width", "%T = type i0\n", "1 width"),
    (
        "a comdat with its name behind a global",
        "@x = global i8 0, comdat($x)",
        "1 instruction",
    ),
    (
        "attributes behind a first value",
        "@x = global i8 0 #0",
        "1 instruction",
    ),
    ("newlines at the end", "@x\n\n", "2 end"),
];

fn first_misread(
    rt: &impl Abort,
    alloc: Global,
    rows: &[(&str, &str, &str)],
) -> Result<String, Fail> {
    for (name, text, wanted) in rows {
        let told = read(rt, alloc, text.as_bytes())?;
        if told.as_str() != *wanted {
            return Ok(format!(in alloc; "{name}: {told}")?);
        }
    }
    Ok(String::new(alloc))
}

#[test]
fn settled_items(rt: HostRuntime) -> Result<(), Fail> {
    let alloc = rt.alloc();
    assert_eq!(rt; first_misread(&rt, alloc, SCOPES)?.as_str(), "");
    assert_eq!(rt; first_misread(&rt, alloc, ITEMS)?.as_str(), "");
    Ok(())
}
