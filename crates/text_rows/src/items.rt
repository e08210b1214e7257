//! Items in any order, and the canonical text of their modules.
use crate::modules::first_misread;
use std::test::Fail;

const ITEMS: &[(&str, &str)] = &[
    ("", ""),
    ("\n; nothing\n", ""),
    (
        "define void @f() {\n  ret void\n}\n",
        "define void @f() {\n0:\n  ret void\n}\n",
    ),
    (
        "declare i32 @printf(ptr noundef, ...) #1\n",
        "declare i32 @printf(ptr, ...)\n",
    ),
    ("declare void @g(i32)\n!0 = !{}\n", "declare void @g(i32)\n"),
    (
        "declare !dbg !4 void @g(i32) !a !5\n@x = global i8 0",
        "@x = global i8 0\ndeclare void @g(i32)\n",
    ),
    (
        "@a = global %T zeroinitializer\n%T = type { i8, i32 }\n",
        "%T = type { i8, i32 }\n@a = global %T zeroinitializer\n",
    ),
    (
        "%T = type { i8, i32 }\n@a = global %T zeroinitializer\n",
        "%T = type { i8, i32 }\n@a = global %T zeroinitializer\n",
    ),
    (
        "%T = type { %U }\n%U = type <{ i8, ptr }>\n",
        "%T = type { %U }\n%U = type <{ i8, ptr }>\n",
    ),
    ("%T = type { %T }\n", "%T = type { %T }\n"),
    (
        "!0 = !{ %T = type { i8 } }\n@a = global %T zeroinitializer\n",
        "%T = type { i8 }\n@a = global %T zeroinitializer\n",
    ),
    (
        "%T = type { i8 }\n!0 = !{ %T = type { i64 } }\n",
        "%T = type { i8 }\n",
    ),
    (
        "@a = private constant [2 x i8] c\"x\\00\", align 1\n@b = external global i32 7",
        "@a = constant [2 x i8] c\"x\\00\"\n@b = global i32 7\n",
    ),
    (
        "$c = comdat any\n@c = global i8 1, comdat\n",
        "@c = global i8 1\n",
    ),
    (
        "attributes #0 = { nounwind \"a\"=\"b\" }\n@7 = global i8 1\n@\"7\" = global i8 2\n",
        "@7 = global i8 1\n@\"7\" = global i8 2\n",
    ),
    ("target datalayout = \"e\"\nsource_filename = \"x\"", ""),
    ("\r\n @x =\tglobal i8 0 ; {\n", "@x = global i8 0\n"),
];

const FUNCTIONS: &[(&str, &str)] = &[
    (
        "define i32 @f(i32, i32 %x, ptr) { %3 = add i32 %0, %x\n ret i32 0 }",
        "define i32 @f(i32 %0, i32 %x, ptr %1) {\n2:\n  %3 = add i32 %0, %x\n  ret i32 0\n}\n",
    ),
    (
        "define i32 @f(i32, i32 %x, ptr) { %4 = add i32 %0, %x\n ret i32 %4 }",
        "1 name",
    ),
    (
        "define i32 @f() { br label %1\n1: ret i32 0 }",
        "define i32 @f() {\n0:\n  br label %1\n1:\n  ret i32 0\n}\n",
    ),
    (
        "define i32 @f() {\n\"a b\":\n  ret i32 0 ; \"\n}",
        "define i32 @f() {\n\"a\\20b\":\n  ret i32 0\n}\n",
    ),
    (
        "define void @f() {\n  #dbg_value(i32 0, !1, !2)\n  ret void\n}\n",
        "define void @f() {\n0:\n  ret void\n}\n",
    ),
    ("#dbg_value undef [\n@x = global i8 0", "@x = global i8 0\n"),
    ("@x = global i8 0 #dbg_value(\n", "1 instruction"),
];

/// As clang writes it without optimisation.
const PLAIN: &str = r#"; ModuleID = 'a.c'
source_filename = "a.c"
target triple = "x86_64-unknown-linux-gnu"
; Function Attrs: noinline nounwind
define dso_local i32 @main() #0 {
  %1 = alloca i32, align 4
  store i32 0, ptr %1, align 4
  %2 = load i32, ptr %1, align 4
  ret i32 %2
}
attributes #0 = { noinline nounwind "frame-pointer"="all" }
!llvm.module.flags = !{!0}
!0 = !{i32 1, !"wchar_size", i32 4}
"#;

const PLAIN_CANONICAL: &str = "define i32 @main() {
0:
  %1 = alloca i32
  store i32 0, ptr %1
  %2 = load i32, ptr %1
  ret i32 %2
}
";

/// As clang writes it with optimisation.
const OPTIMISED: &str = r#"%struct.pair = type { i32, ptr }
@.str = private unnamed_addr constant [4 x i8] c"%d\0A\00", align 1
@pairs = dso_local local_unnamed_addr global [2 x %struct.pair] zeroinitializer, align 16
; Function Attrs: nofree nounwind uwtable
define dso_local noundef i32 @sum(ptr nocapture noundef readonly %0, i32 noundef %1) local_unnamed_addr #0 !dbg !3 {
  %3 = icmp sgt i32 %1, 0, !dbg !4
  br i1 %3, label %4, label %6, !dbg !5

4:                                                ; preds = %2
  %5 = zext nneg i32 %1 to i64, !dbg !5
  br label %6, !dbg !5

6:                                                ; preds = %4, %2
  %7 = phi i64 [ 0, %2 ], [ %5, %4 ]
  %8 = getelementptr inbounds %struct.pair, ptr %0, i64 %7, i32 0
  %9 = load i32, ptr %8, align 8, !tbaa !6
  %10 = tail call i32 (ptr, ...) @printf(ptr noundef nonnull dereferenceable(1) @.str, i32 noundef %9)
  ret i32 %9, !dbg !7
}
; Function Attrs: nofree nounwind
declare !dbg !8 noundef i32 @printf(ptr nocapture noundef readonly, ...) local_unnamed_addr #1
!3 = distinct !DISubprogram(name: "sum", scope: !1)
"#;

const OPTIMISED_CANONICAL: &str = r#"%struct.pair = type { i32, ptr }
@.str = constant [4 x i8] c"\25d\0A\00"
@pairs = global [2 x %struct.pair] zeroinitializer
define i32 @sum(ptr %0, i32 %1) {
2:
  %3 = icmp sgt i32 %1, 0
  br i1 %3, label %4, label %6
4:
  %5 = zext nneg i32 %1 to i64
  br label %6
6:
  %7 = phi i64 [ 0, %2 ], [ %5, %4 ]
  %8 = getelementptr inbounds %struct.pair, ptr %0, i64 %7, i32 0
  %9 = load i32, ptr %8
  %10 = call i32 (ptr, ...) @printf(ptr @.str, i32 %9)
  ret i32 %9
}
declare i32 @printf(ptr, ...)
"#;

#[test]
fn items(rt: HostRuntime) -> Result<(), Fail> {
    let alloc = rt.alloc();
    assert_eq!(rt; first_misread(&rt, alloc, ITEMS)?.as_str(), "");
    assert_eq!(rt; first_misread(&rt, alloc, FUNCTIONS)?.as_str(), "");
    Ok(())
}

#[test]
fn modules_of_a_compiler(rt: HostRuntime) -> Result<(), Fail> {
    let alloc = rt.alloc();
    let rows: [(&str, &str); 2] = [(PLAIN, PLAIN_CANONICAL), (OPTIMISED, OPTIMISED_CANONICAL)];
    assert_eq!(rt; first_misread(&rt, alloc, &rows)?.as_str(), "");
    Ok(())
}
