//! Blocks, branches, phis and registers.
use crate::tables::first_difference;
use std::test::Fail;

const TABLE: &str = r#"; budget 22
; status 0
; out ABC
; report ended 3 steps 22
declare i32 @putchar(i32)
define i32 @main() {
entry:
  br label %head
head:
  %i = phi i32 [ 0, %entry ], [ %j, %body ]
  %c = icmp ult i32 %i, 3
  br i1 %c, label %body, label %done
body:
  %d = add i32 %i, 65
  %p = call i32 @putchar(i32 %d)
  %j = add i32 %i, 1
  br label %head
done:
  ret i32 %i
}
;;
; budget 99
; status 0
; report ended 21 steps 16
; two phis that exchange their values
define i32 @main() {
entry:
  br label %head
head:
  %a = phi i32 [ 1, %entry ], [ %b, %head ]
  %b = phi i32 [ 2, %entry ], [ %a, %head ]
  %n = phi i32 [ 0, %entry ], [ %m, %head ]
  %m = add i32 %n, 1
  %c = icmp ult i32 %m, 4
  br i1 %c, label %head, label %done
done:
  %r = mul i32 %a, 10
  %s = add i32 %r, %b
  ret i32 %s
}
;;
; budget 1000000
; status 2
; report spent 1000000
define i32 @main() {
  br label %again
again:
  br label %again
}
;;
; budget 9
; status 1
; report trapped unset-register @main:0 steps 1
define i32 @main() {
  %x = add i32 %x, 1
  ret i32 0
}
;;
; budget 9
; status 1
; report trapped unset-register @main:1 steps 2
define i32 @main() {
entry:
  %x = add i32 1, 2
  br label %head
head:
  %p = phi i32 [ %q, %entry ]
  %q = add i32 %p, 0
  ret i32 %q
}
;;
; budget 9
; status 1
; report trapped unset-register @main:2 steps 2
define i32 @main() {
entry:
  br label %head
head:
  %p = phi i32 [ 7, %entry ]
  %q = add i32 %p, %r
  %r = add i32 %q, 0
  ret i32 %r
}
;;
; budget 9
; status 0
; report ended 7 steps 2
define i32 @main() {
entry:
  br i1 1, label %end, label %end
end:
  %p = phi i32 [ 7, %entry ], [ 7, %entry ]
  ret i32 %p
}
;;
; budget 9
; status 0
; report ended 65 steps 3
; the low byte is printed and answered
declare i32 @putchar(i32)
define i32 @main() {
  %p = call i32 @putchar(i32 65857)
  call i32 @putchar(i32 577)
  ret i32 %p
}
; out AA
;;
; budget 99
; status 0
; report ended 12330 steps 26
; a switch with two values and its default
define i32 @main() {
entry:
  br label %head
head:
  %i = phi i32 [ 1, %entry ], [ %j, %next ]
  %s = phi i32 [ 0, %entry ], [ %t, %next ]
  switch i32 %i, label %other [ i32 1, label %one
    i32 2, label %two ]
one:
  br label %next
two:
  br label %next
other:
  br label %next
next:
  %d = phi i32 [ 1, %one ], [ 2, %two ], [ 3, %other ]
  %u = add i32 %s, %d
  %t = mul i32 %u, 10
  %j = add i32 %i, 1
  %c = icmp ult i32 %j, 4
  br i1 %c, label %head, label %last
last:
  br label %end
end:
  %v = add i32 %t, 3
  %w = mul i32 %v, 10
  ret i32 %w
}
;;
; budget 9
; status 1
; report trapped unreachable @main:0 steps 1
define i32 @main() {
  unreachable
}
;;
; budget 9
; status 0
; report ended 12 steps 3
define i32 @main() {
  %c = icmp ugt i8 200, 100
  %x = select i1 %c, i32 12, i32 34
  ret i32 %x
}
;;
; budget 9
; status 0
; report ended -1 steps 4
define i32 @main() {
  %a = trunc i32 255 to i8
  %b = sext i8 %a to i32
  %c = freeze i32 %b
  ret i32 %c
}
"#;

#[test]
fn control(rt: HostRuntime) -> Result<(), Fail> {
    match first_difference(rt.alloc(), TABLE)? {
        None => Ok(()),
        Some((told, wanted)) => {
            assert_eq!(rt; told.as_str(), wanted.as_str());
            Ok(())
        }
    }
}

/// As clang writes it without optimisation; the second with the words that it writes with optimisation and debug records.
const CLANG: &str = r#"; ModuleID = 'a.c'
; budget 10
; status 0
; report ended 0 steps 4
source_filename = "a.c"
target triple = "x86_64-unknown-linux-gnu"
; Function Attrs: noinline nounwind
define dso_local i32 @main() #0 {
  %1 = alloca i32, align 4
  store i32 0, ptr %1, align 4
  %2 = load i32, ptr %1, align 4
  ret i32 %2
}
attributes #0 = { noinline nounwind "frame-pointer"="all" }
!llvm.module.flags = !{!0}
!0 = !{i32 1, !"wchar_size", i32 4}
;;
; ModuleID = 'a.c'
; budget 10
; status 0
; report ended 0 steps 4
source_filename = "a.c"
target triple = "x86_64-unknown-linux-gnu"
; Function Attrs: noinline nounwind
define dso_local i32 @main() local_unnamed_addr #0 !dbg !0 {
  %1 = alloca i32, align 4
  store i32 0, ptr %1, align 4
  %2 = load i32, ptr %1, align 4
  ret i32 %2
}
attributes #0 = { noinline nounwind "frame-pointer"="all" }
!llvm.module.flags = !{!0}
!0 = !{i32 1, !"wchar_size", i32 4}
;;
; ModuleID = 'a.c'
; budget 10
source_filename = "a.c"
target triple = "x86_64-unknown-linux-gnu"
define dso_local i32 @main() #0 {
  %1 = alloca i32, align 4
  store i32 0, ptr %1, align 4
  %2 = ptrtoint ptr %1 to i64
  ret i32 %2
}
; status 3
; report refused module line 8 out-of-profile ptrtoint
"#;

#[test]
fn modules_of_clang(rt: HostRuntime) -> Result<(), Fail> {
    match first_difference(rt.alloc(), CLANG)? {
        None => Ok(()),
        Some((told, wanted)) => {
            assert_eq!(rt; told.as_str(), wanted.as_str());
            Ok(())
        }
    }
}
