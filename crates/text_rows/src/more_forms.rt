//! The forms that touch memory, call or leave a block, as clang writes them, and their canonical text.
use crate::instructions::first_misread;
use std::test::Fail;

const MEMORY: &[(&str, &str)] = &[
    ("%3 = alloca i32, align 4", "%3 = alloca i32"),
    ("%3 = alloca [16 x i8], align 16", "%3 = alloca [16 x i8]"),
    (
        "%3 = alloca { i8, <{ i16, ptr }> }, align 8",
        "%3 = alloca { i8, <{ i16, ptr }> }",
    ),
    (
        "%vla = alloca i8, i64 2, align 16, !dbg !4",
        "%vla = alloca i8, i64 2",
    ),
    (
        "%vla = alloca i32, i64 %n, align 16",
        "%vla = alloca i32, i64 %n",
    ),
    ("%3 = load i32, ptr %2, align 4", "%3 = load i32, ptr %2"),
    ("%3 = load i1, ptr %2", "%3 = load i1, ptr %2"),
    (
        "%v = load ptr, ptr @g, align 8, !tbaa !7, !nonnull !3",
        "%v = load ptr, ptr @g",
    ),
    (
        "%v = load i64, ptr null, align 8",
        "%v = load i64, ptr null",
    ),
    ("store i32 0, ptr %1, align 4", "store i32 0, ptr %1"),
    (
        "store i16 %v, ptr @g, align 2, !tbaa !5, !dbg !9",
        "store i16 %v, ptr @g",
    ),
    (
        "store ptr @.str, ptr %p, align 8",
        "store ptr @.str, ptr %p",
    ),
    (
        "store ptr getelementptr inbounds ([4 x i8], ptr @s, i64 0, i64 1), ptr %p, align 8",
        "store ptr getelementptr ([4 x i8], ptr @s, i64 0, i64 1), ptr %p",
    ),
];

const ADDRESSES: &[(&str, &str)] = &[
    (
        "%3 = getelementptr inbounds [8 x i32], ptr %2, i64 0, i64 %1",
        "%3 = getelementptr inbounds [8 x i32], ptr %2, i64 0, i64 %1",
    ),
    (
        "%3 = getelementptr inbounds i8, ptr %2, i32 -1",
        "%3 = getelementptr inbounds i8, ptr %2, i32 -1",
    ),
    (
        "%second = getelementptr inbounds nuw { i8, { i64, ptr } }, ptr %p, i64 0, i32 1, i32 1, !dbg !4",
        "%second = getelementptr inbounds { i8, { i64, ptr } }, ptr %p, i64 0, i32 1, i32 1",
    ),
    (
        "%arrayidx = getelementptr nusw nuw i32, ptr %p, i64 %i",
        "%arrayidx = getelementptr i32, ptr %p, i64 %i",
    ),
    (
        "%add.ptr = getelementptr i8, ptr null, i64 4",
        "%add.ptr = getelementptr i8, ptr null, i64 4",
    ),
];

#[test]
fn memory_and_addresses(rt: HostRuntime) -> Result<(), Fail> {
    let alloc = rt.alloc();
    assert_eq!(rt; first_misread(&rt, alloc, MEMORY)?.as_str(), "");
    assert_eq!(rt; first_misread(&rt, alloc, ADDRESSES)?.as_str(), "");
    Ok(())
}

const CALLS: &[(&str, &str)] = &[
    ("call void @g()", "call void @g()"),
    (
        "%3 = call i32 @f(i32 noundef %1, ptr noundef %2)",
        "%3 = call i32 @f(i32 %1, ptr %2)",
    ),
    (
        "%call = tail call noundef i32 @f(ptr noundef nonnull align 8 dereferenceable(16) %p, i32 noundef 5) #4",
        "%call = call i32 @f(ptr %p, i32 5)",
    ),
    (
        "tail call void @llvm.lifetime.start.p0(i64 4, ptr nonnull %x) #2",
        "call void @llvm.lifetime.start.p0(i64 4, ptr %x)",
    ),
    (
        "call void @llvm.memcpy.p0.p0.i64(ptr align 4 %1, ptr align 4 @s, i64 16, i1 false)",
        "call void @llvm.memcpy.p0.p0.i64(ptr %1, ptr @s, i64 16, i1 false)",
    ),
    (
        "%3 = call i32 (ptr, ...) @printf(ptr noundef @.str, i32 noundef %v), !dbg !9",
        "%3 = call i32 (ptr, ...) @printf(ptr @.str, i32 %v)",
    ),
    ("call void %fp(i8 signext -3)", "call void %fp(i8 -3)"),
    (
        "%3 = call i32 %2(ptr noundef @g)",
        "%3 = call i32 %2(ptr @g)",
    ),
    (
        "%r = notail call fastcc zeroext i8 @h(i1 noundef zeroext true) nounwind, !dbg !2",
        "%r = call i8 @h(i1 true)",
    ),
];

const CONTROL: &[(&str, &str)] = &[
    (
        "%3 = phi i32 [ 0, %0 ], [ %2, %1 ]",
        "%3 = phi i32 [ 0, %0 ], [ %2, %1 ]",
    ),
    (
        "%i.0 = phi ptr [ @g, %entry ], [ null, %for.body ], !dbg !5",
        "%i.0 = phi ptr [ @g, %entry ], [ null, %for.body ]",
    ),
    ("ret void, !dbg !2", "ret void"),
    ("ret i32 0", "ret i32 0"),
    ("ret ptr %p, !dbg !2", "ret ptr %p"),
    ("br label %7", "br label %7"),
    ("br label %for.cond, !llvm.loop !6", "br label %for.cond"),
    (
        "br i1 %2, label %3, label %4",
        "br i1 %2, label %3, label %4",
    ),
    (
        "br i1 %cmp, label %if.then, label %if.end, !dbg !1, !prof !2",
        "br i1 %cmp, label %if.then, label %if.end",
    ),
    (
        "switch i32 %2, label %6 [\n    i32 0, label %3\n    i32 -1, label %4\n  ]",
        "switch i32 %2, label %6 [ i32 0, label %3 i32 -1, label %4 ]",
    ),
    (
        "switch i8 %c, label %sw.default [], !dbg !4",
        "switch i8 %c, label %sw.default [ ]",
    ),
    ("unreachable", "unreachable"),
    ("unreachable, !dbg !1", "unreachable"),
];

#[test]
fn calls_and_control(rt: HostRuntime) -> Result<(), Fail> {
    let alloc = rt.alloc();
    assert_eq!(rt; first_misread(&rt, alloc, CALLS)?.as_str(), "");
    assert_eq!(rt; first_misread(&rt, alloc, CONTROL)?.as_str(), "");
    Ok(())
}
