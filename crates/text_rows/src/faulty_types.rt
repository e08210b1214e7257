//! Instructions that are refused for a type or a number, at every place where one may stand.
use crate::instructions::first_let_through;
use std::test::Fail;

const BAD_TYPES: &[(&str, &str)] = &[
    ("%x = add\n{ i8 } 1, 2", "2 bad-type"),
    ("%x = mul [2 x i8] %a, %b", "1 bad-type"),
    ("%x = add <{ i8 }> %a, %b", "1 bad-type"),
    ("%x = add %t %a, %b", "1 bad-type"),
    ("%x = add void 1, 2", "1 bad-type"),
    ("%x = add 7, 2", "1 bad-type"),
    ("%x = add nneg i8 1, 2", "1 bad-type"),
    ("%x = udiv nuw i8 1, 2", "1 bad-type"),
    ("%x = trunc { i8 } %a to i8", "1 bad-type"),
    ("%x = trunc i64 %a to\n{ i8 }", "2 bad-type"),
    ("%x = freeze [1 x i8] %a", "1 bad-type"),
    ("%x = icmp eq { i8 } %a, %b", "1 bad-type"),
    ("%x = select { i1 } %a, i8 1, i8 2", "1 bad-type"),
    ("%x = select i1 %c,\nvoid 1, i8 2", "2 bad-type"),
    ("%x = phi void [ 0, %a ]", "1 bad-type"),
    ("%x = alloca void", "1 bad-type"),
    ("%x = alloca %t", "1 bad-type"),
    ("%x = alloca { i8, %t }", "1 bad-type"),
    ("%x = alloca i8, { i8 } 1", "1 bad-type"),
    ("%x = load { i8 }, ptr %p", "1 bad-type"),
    ("%x = load void, ptr %p", "1 bad-type"),
    ("store [2 x i8] zeroinitializer, ptr %p", "1 bad-type"),
    ("store i8 1,\n%p", "2 bad-type"),
    ("%x = getelementptr %t, ptr %p, i64 0", "1 bad-type"),
    ("%x = getelementptr i8, void %p, i64 0", "1 bad-type"),
    ("%x = getelementptr i8, ptr %p,\n{ i8 } 0", "2 bad-type"),
    ("%x = call void @f()", "1 bad-type"),
    ("%x = call { i8 } @f()", "1 bad-type"),
    ("call [1 x i8] @f()", "1 bad-type"),
    ("call void @f(i8 1,\nvoid 1)", "2 bad-type"),
    ("ret { i8 } %a", "1 bad-type"),
    ("ret 7", "1 bad-type"),
    ("br { i1 } %c, label %a, label %b", "1 bad-type"),
    ("switch { i8 } %v, label %d [ ]", "1 bad-type"),
    (
        "switch i8 %v, label %d [ i8 1, label %a\nvoid 2, label %b ]",
        "2 bad-type",
    ),
];

const WIDTHS: &[(&str, &str)] = &[
    ("%x = add i65 1, 2", "1 width"),
    ("%x = add i0 1, 2", "1 width"),
    ("%x = add i00 1, 2", "1 width"),
    (
        "%x = add i99999999999999999999999999999999999999999999 1, 2",
        "1 width",
    ),
    ("%x = trunc i65 %a to i8", "1 width"),
    ("%x = zext i8 %a to\ni128", "2 width"),
    ("%x = freeze i65 %a", "1 width"),
    ("%x = icmp eq i65 %a, %b", "1 width"),
    ("%x = select i0 %c, i8 1, i8 2", "1 width"),
    ("%x = select i1 %c, i65 1, i65 2", "1 width"),
    ("%x = select i1 %c, i8 1,\ni65 2", "2 width"),
    ("%x = phi i65 [ 0, %a ]", "1 width"),
    ("%x = alloca [2 x i0]", "1 width"),
    ("%x = alloca i8, i65 1", "1 width"),
    ("%x = load i65, ptr %p", "1 width"),
    ("store i99 0, ptr %p", "1 width"),
    ("%x = getelementptr { i8, i65 }, ptr %p, i64 0", "1 width"),
    ("%x = getelementptr i8, ptr %p, i65 1", "1 width"),
    ("%x = call i0 @f()", "1 width"),
    ("call void @f(i65 1)", "1 width"),
    ("ret i0 1", "1 width"),
    ("br i0 %c, label %a, label %b", "1 width"),
    ("switch i65 1, label %d [ ]", "1 width"),
    ("switch i8 1, label %d [\ni65 1, label %a ]", "2 width"),
];

const LAYOUTS: &[(&str, &str)] = &[
    ("%x = alloca i7, align 4", "1 layout"),
    ("%x = alloca\n[2 x i24]", "2 layout"),
    ("%x = alloca [9223372036854775808 x i8]", "1 layout"),
    ("%x = load i24, ptr %p", "1 layout"),
    ("store i7 1, ptr %p", "1 layout"),
    ("%x = getelementptr i24, ptr %p, i64 0", "1 layout"),
    (
        "store ptr getelementptr (\n{ i8, i3 }, ptr @g, i64 0), ptr %p",
        "2 layout",
    ),
];

#[test]
fn types(rt: HostRuntime) -> Result<(), Fail> {
    let alloc = rt.alloc();
    assert_eq!(rt; first_let_through(&rt, alloc, BAD_TYPES)?.as_str(), "");
    assert_eq!(rt; first_let_through(&rt, alloc, WIDTHS)?.as_str(), "");
    assert_eq!(rt; first_let_through(&rt, alloc, LAYOUTS)?.as_str(), "");
    Ok(())
}

const NUMBERS: &[(&str, &str)] = &[
    ("%x = add i8 1,\n256", "2 number"),
    ("%x = add i8 -129, 1", "1 number"),
    ("%x = add i1 2, 1", "1 number"),
    ("%x = trunc i16 65536 to i8", "1 number"),
    ("%x = freeze i8 256", "1 number"),
    ("%x = icmp eq i8 %a, 256", "1 number"),
    ("%x = select i1 2, i8 1, i8 2", "1 number"),
    ("%x = select i1 %c, i8 1, i8 300", "1 number"),
    ("%x = phi i8 [ 0, %a ],\n[ 256, %b ]", "2 number"),
    ("%x = alloca [-1 x i8]", "1 number"),
    ("%x = alloca i8, i8 256", "1 number"),
    ("store i8 256, ptr %p", "1 number"),
    ("%x = getelementptr i8, ptr %p, i8 256", "1 number"),
    (
        "%x = getelementptr { i8 }, ptr %p, i64 0,\ni32 1",
        "2 number",
    ),
    ("call void @f(i8 256)", "1 number"),
    ("ret i64 18446744073709551616", "1 number"),
    ("ret i64 -9223372036854775809", "1 number"),
    ("br i1 2, label %a, label %b", "1 number"),
    ("switch i8 256, label %d [ ]", "1 number"),
    ("switch i8 1, label %d [ i8 300, label %a ]", "1 number"),
];

#[test]
fn numbers(rt: HostRuntime) -> Result<(), Fail> {
    assert_eq!(rt; first_let_through(&rt, rt.alloc(), NUMBERS)?.as_str(), "");
    Ok(())
}
