//! Instructions that are refused for a word outside the language, at every place where one may stand.
use crate::instructions::first_let_through;
use std::test::Fail;

const OPCODES: &[(&str, &str)] = &[
    ("%3 = ptrtoint ptr %1 to i64", "1 out-of-profile ptrtoint"),
    ("%x = inttoptr i64 %p to ptr", "1 out-of-profile inttoptr"),
    ("%x = bitcast i8 %p to i8", "1 out-of-profile bitcast"),
    (
        "%x = addrspacecast ptr %p to ptr",
        "1 out-of-profile addrspacecast",
    ),
    (
        "indirectbr ptr %p, [ label %a ]",
        "1 out-of-profile indirectbr",
    ),
    ("%x = callbr i8 @f()", "1 out-of-profile callbr"),
    ("invoke void @f()", "1 out-of-profile invoke"),
    ("%x = va_arg ptr %p, i8", "1 out-of-profile va_arg"),
    (
        "%x = extractvalue { i8 } %a, 0",
        "1 out-of-profile extractvalue",
    ),
    (
        "%x = insertvalue { i8 } %a, i8 1, 0",
        "1 out-of-profile insertvalue",
    ),
    ("module asm \"x\"", "1 out-of-profile module"),
    ("undef", "1 out-of-profile undef"),
    ("%x =\npoison", "2 out-of-profile poison"),
    ("musttail call void @f()", "1 out-of-profile musttail"),
    (
        "%x = tail musttail call i8 @f()",
        "1 out-of-profile musttail",
    ),
];

const VALUES: &[(&str, &str)] = &[
    ("%x = add i8 undef, 1", "1 out-of-profile undef"),
    ("%x = add i8 1,\npoison", "2 out-of-profile poison"),
    ("%x = add undef", "1 out-of-profile undef"),
    ("%x = trunc i8 1 undef i8", "1 out-of-profile undef"),
    ("%x = icmp poison i8 1, 2", "1 out-of-profile poison"),
    ("%x = select i1 undef, i8 1, i8 2", "1 out-of-profile undef"),
    ("%x = select i1 %c, i8 1, poison", "1 out-of-profile poison"),
    ("%x = phi i32 [ undef, %a ]", "1 out-of-profile undef"),
    ("%x = phi i32 [ 0,\nundef ]", "2 out-of-profile undef"),
    ("%x = alloca undef", "1 out-of-profile undef"),
    ("%x = load i8, ptr undef", "1 out-of-profile undef"),
    ("%x = load i8, undef %p", "1 out-of-profile undef"),
    ("store i8 poison, ptr %p", "1 out-of-profile poison"),
    (
        "store ptr bitcast (ptr @g to ptr), ptr %p",
        "1 out-of-profile bitcast",
    ),
    (
        "%x = getelementptr i8, ptr %p, i64 undef",
        "1 out-of-profile undef",
    ),
    ("call void @f(i32 undef)", "1 out-of-profile undef"),
    ("call void undef()", "1 out-of-profile undef"),
    ("ret i32 undef", "1 out-of-profile undef"),
    ("ret poison", "1 out-of-profile poison"),
    ("br undef", "1 out-of-profile undef"),
    ("br label poison", "1 out-of-profile poison"),
    ("br i1 %c, poison %a", "1 out-of-profile poison"),
    ("switch i8 %v, label %d undef", "1 out-of-profile undef"),
    (
        "switch i8 %v, label %d [ i8 undef, label %a ]",
        "1 out-of-profile undef",
    ),
];

const PASSED: &[(&str, &str)] = &[
    ("%x = load volatile i8, ptr %p", "1 out-of-profile volatile"),
    ("store volatile i8 1, ptr %p", "1 out-of-profile volatile"),
    (
        "%x = load atomic i8, ptr %p seq_cst, align 1",
        "1 out-of-profile atomic",
    ),
    ("%x = alloca inalloca i8", "1 out-of-profile inalloca"),
    ("call addrspace(1) void @f()", "1 out-of-profile addrspace"),
    ("call void asm \"nop\", \"\"()", "1 out-of-profile asm"),
    ("call void @f(ptr byval(i8) %p)", "1 out-of-profile byval"),
    (
        "call void @f(ptr noundef byref(i8) %p)",
        "1 out-of-profile byref",
    ),
    ("call void @f(metadata !1)", "1 out-of-profile metadata"),
    ("call void @f() nounwind gc", "1 out-of-profile gc"),
    (
        "call void @f()\n[ \"deopt\"() ]",
        "2 out-of-profile operand bundles",
    ),
    (
        "%x = call thread_local i8 @f()",
        "1 out-of-profile thread_local",
    ),
    ("call void @f() #1 undef", "1 out-of-profile undef"),
];

#[test]
fn words_outside_the_language(rt: HostRuntime) -> Result<(), Fail> {
    let alloc = rt.alloc();
    assert_eq!(rt; first_let_through(&rt, alloc, OPCODES)?.as_str(), "");
    assert_eq!(rt; first_let_through(&rt, alloc, VALUES)?.as_str(), "");
    assert_eq!(rt; first_let_through(&rt, alloc, PASSED)?.as_str(), "");
    Ok(())
}
