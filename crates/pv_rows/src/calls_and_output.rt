//! Calls, frames, pointers to functions, and the functions outside.
use crate::calls::{joined, run};
use crate::tables::first_difference;
use std::test::Fail;

const CALLS: &str = r#"; budget 999
; status 0
; report ended 1 steps 85
; report global @out 0100000000000000005f370000000000
; a factorial, stored in a struct whose type stands behind its use; arguments of main are 0 and null
@out = global %pair { i8 1, i64 0 }
%pair = type { i8, i64 }
define internal i64 @factorial(i64 noundef %0) {
  %2 = icmp ult i64 %0, 2
  br i1 %2, label %6, label %3
3:
  %4 = sub i64 %0, 1
  %5 = call i64 @factorial(i64 noundef %4)
  br label %6
6:
  %7 = phi i64 [ 1, %1 ], [ %5, %3 ]
  %8 = mul i64 %7, %0
  %9 = select i1 %2, i64 1, i64 %8
  ret i64 %9
}
define i32 @main(i32 %argc, ptr %argv) {
  %n = add i32 %argc, 10
  %w = zext i32 %n to i64
  %f = call i64 @factorial(i64 %w)
  %q = getelementptr inbounds %pair, ptr @out, i64 0, i32 1
  store i64 %f, ptr %q
  %null = icmp eq ptr %argv, null
  %r = zext i1 %null to i32
  ret i32 %r
}
;;
; budget 99
; status 0
; report ended 42 steps 10
; report global @table <f0><f1>
@table = global [2 x ptr] [ptr @one, ptr @two]
define i32 @one(i32 %x) {
  %y = add i32 %x, 1
  ret i32 %y
}
define i32 @two(i32 %x) {
  %y = mul i32 %x, 2
  ret i32 %y
}
define i32 @main() {
  %f = load ptr, ptr @table
  %q = getelementptr [2 x ptr], ptr @table, i64 0, i64 1
  %g = load ptr, ptr %q
  %a = call i32 %f(i32 20)
  %b = call i32 %g(i32 %a)
  ret i32 %b
}
;;
; budget 99
; status 0
; report ended 1 steps 45
; two functions that call each other
define i32 @even(i32 %n) {
  %z = icmp eq i32 %n, 0
  br i1 %z, label %yes, label %more
yes:
  ret i32 1
more:
  %m = sub i32 %n, 1
  %r = call i32 @odd(i32 %m)
  ret i32 %r
}
define i32 @odd(i32 %n) {
  %z = icmp eq i32 %n, 0
  br i1 %z, label %yes, label %more
yes:
  ret i32 0
more:
  %m = sub i32 %n, 1
  %r = call i32 @even(i32 %m)
  ret i32 %r
}
define i32 @main() {
  %r = call i32 @even(i32 8)
  ret i32 %r
}
;;
; budget 9
; status 1
; report trapped dead @main:1 steps 5
; a pointer to the object of a frame that is gone
define ptr @lost() {
  %p = alloca i32
  store i32 7, ptr %p
  ret ptr %p
}
define i32 @main() {
  %p = call ptr @lost()
  %x = load i32, ptr %p
  ret i32 %x
}
;;
; budget 9999
; status 1
; report trapped depth @again:0 steps 4096
define void @again() {
  call void @again()
  ret void
}
define i32 @main() {
  call void @again()
  ret i32 0
}
;;
; budget 99999
; status 0
; report ended 0 steps 20475
; the most frames there may be
define i32 @down(i32 %n) {
  %z = icmp eq i32 %n, 0
  br i1 %z, label %end, label %more
more:
  %m = sub i32 %n, 1
  %r = call i32 @down(i32 %m)
  ret i32 %r
end:
  ret i32 %n
}
define i32 @main() {
  %r = call i32 @down(i32 4094)
  ret i32 %r
}
;;
; budget 9
; status 1
; report trapped callee @main:1 steps 2
; a function of another type
define void @f(i32 %x) {
  ret void
}
define i32 @main() {
  %p = select i1 true, ptr @f, ptr @main
  %x = call i32 %p()
  ret i32 %x
}
;;
; budget 9
; status 1
; report trapped callee @main:1 steps 2
define i32 @main() {
  %p = select i1 true, ptr null, ptr @main
  %x = call i32 %p()
  ret i32 %x
}
;;
; budget 9
; status 1
; report trapped callee @main:1 steps 2
; report global @g 00
@g = global i8 0
define i32 @main() {
  %p = select i1 true, ptr @g, ptr @main
  %x = call i32 %p()
  ret i32 %x
}
;;
; budget 9
; status 1
; report trapped callee @main:1 steps 2
; a function outside of the module is called by its name alone
declare i32 @getchar()
define i32 @main() {
  %p = select i1 true, ptr @getchar, ptr @main
  %x = call i32 %p()
  ret i32 %x
}
"#;

const OUTPUT: &str = r#"; budget 9
; status 0
; out -1 4294967295 ff A%
; report ended 19 steps 2
@f = constant [14 x i8] c"%d %u %x %c%%\00"
declare i32 @printf(ptr, ...)
define i32 @main() {
  %n = call i32 (ptr, ...) @printf(ptr @f, i32 -1, i32 -1, i32 255, i32 321)
  ret i32 %n
}
;;
; budget 9
; status 0
; out -9223372036854775808 18446744073709551615 ffffffffffffffff -2147483648
; report ended 70 steps 2
@f = constant [16 x i8] c"%ld %llu %lx %i\00"
declare i32 @printf(ptr, ...)
define i32 @main() {
  %n = call i32 (ptr, ...) @printf(ptr @f, i64 -9223372036854775808, i64 -1, i64 -1, i32 2147483648, i32 7)
  ret i32 %n
}
;;
; budget 9
; status 1
; report trapped format @main:0 steps 1
@f = constant [4 x i8] c"%5d\00"
declare i32 @printf(ptr, ...)
define i32 @main() {
  %n = call i32 (ptr, ...) @printf(ptr @f, i32 1)
  ret i32 %n
}
;;
; budget 9
; status 1
; report trapped format @main:0 steps 1
@f = constant [3 x i8] c"%d\00"
declare i32 @printf(ptr, ...)
define i32 @main() {
  %n = call i32 (ptr, ...) @printf(ptr @f, i64 1)
  ret i32 %n
}
;;
; budget 9
; status 1
; report trapped format @main:0 steps 1
@f = constant [6 x i8] c"%d %d\00"
declare i32 @printf(ptr, ...)
define i32 @main() {
  %n = call i32 (ptr, ...) @printf(ptr @f, i32 1)
  ret i32 %n
}
;;
; budget 9
; status 1
; report trapped range @main:0 steps 1
; a text without its end
@f = constant [2 x i8] c"%%"
declare i32 @printf(ptr, ...)
define i32 @main() {
  %n = call i32 (ptr, ...) @printf(ptr @f)
  ret i32 %n
}
;;
; budget 9
; status 1
; report trapped null @main:0 steps 1
; the text of an argument is read before a later directive traps
@f = constant [6 x i8] c"%s %q\00"
declare i32 @printf(ptr, ...)
define i32 @main() {
  %n = call i32 (ptr, ...) @printf(ptr @f, ptr null)
  ret i32 %n
}
;;
; budget 9
; status 0
; out <sixteen bytes..>
; out
; report ended 18 steps 3
; report global @to 7369787465656e2062797465732e2e00
@from = constant [16 x i8] c"sixteen bytes..\00"
@to = global [16 x i8] zeroinitializer
declare void @llvm.memcpy.p0.p0.i64(ptr, ptr, i64, i1)
declare i32 @printf(ptr, ...)
@text = constant [6 x i8] c"<%s>\0A\00"
define i32 @main() {
  call void @llvm.memcpy.p0.p0.i64(ptr @to, ptr @from, i64 16, i1 false)
  %n = call i32 (ptr, ...) @printf(ptr @text, ptr @to)
  ret i32 %n
}
;;
; budget 9
; status 0
; report ended 0 steps 2
; report global @b 6161626364
@b = global [5 x i8] c"abcde"
declare void @llvm.memmove.p0.p0.i32(ptr, ptr, i32, i1)
define i32 @main() {
  call void @llvm.memmove.p0.p0.i32(ptr getelementptr (i8, ptr @b, i64 1), ptr @b, i32 4, i1 false)
  ret i32 0
}
;;
; budget 9
; status 1
; report trapped overlap @main:0 steps 1
; report global @b 6162636465
@b = global [5 x i8] c"abcde"
declare void @llvm.memcpy.p0.p0.i32(ptr, ptr, i32, i1)
define i32 @main() {
  call void @llvm.memcpy.p0.p0.i32(ptr getelementptr (i8, ptr @b, i64 1), ptr @b, i32 4, i1 false)
  ret i32 0
}
;;
; budget 9
; status 0
; report ended -128 steps 5
; report global @b 62ffff65
@b = global [4 x i8] c"bcde"
declare void @llvm.memset.p0.i64(ptr, i8, i64, i1)
declare i8 @llvm.smin.i8(i8, i8)
declare i8 @llvm.umax.i8(i8, i8)
define i32 @main() {
  call void @llvm.memset.p0.i64(ptr getelementptr inbounds ([4 x i8], ptr @b, i64 0, i64 1), i8 -1, i64 2, i1 false)
  %u = call i8 @llvm.umax.i8(i8 127, i8 -128)
  %s = call i8 @llvm.smin.i8(i8 127, i8 %u)
  %r = sext i8 %s to i32
  ret i32 %r
}
;;
; budget 9
; status 0
; out hi
; out
; report ended -3 steps 2
declare void @exit(i32)
declare i32 @puts(ptr)
@hi = constant [3 x i8] c"hi\00"
define i32 @main() {
  %n = call i32 @puts(ptr @hi)
  call void @exit(i32 -3)
  unreachable
}
;;
; budget 9
; status 1
; report trapped abort @main:0 steps 1
declare void @abort()
define i32 @main() {
  call void @abort()
  unreachable
}
;;
; budget 9
; input a
; status 0
; report ended 96 steps 4
declare i32 @getchar()
define i32 @main() {
  %a = call i32 @getchar()
  %b = call i32 @getchar()
  %s = add i32 %a, %b
  ret i32 %s
}
;;
; budget 9
; status 0
; report ended 1 steps 4
; want of live memory is null
declare ptr @calloc(i64, i64)
define i32 @main() {
  %p = call ptr @calloc(i64 4294967296, i64 4294967296)
  %e = icmp eq ptr %p, null
  %r = zext i1 %e to i32
  ret i32 %r
}
;;
; budget 9
; status 1
; report trapped unset-byte @main:1 steps 2
; a text is read byte by byte
declare ptr @malloc(i64)
declare i32 @puts(ptr)
define i32 @main() {
  %p = call ptr @malloc(i64 2)
  %n = call i32 @puts(ptr %p)
  ret i32 0
}
;;
; budget 9
; status 1
; report trapped byte-kind @main:2 steps 3
declare i32 @puts(ptr)
define i32 @main() {
  %p = alloca ptr
  store ptr %p, ptr %p
  %n = call i32 @puts(ptr %p)
  ret i32 0
}
;;
; budget 9
; status 1
; report trapped dead @main:2 steps 3
declare ptr @malloc(i64)
declare void @free(ptr)
declare i32 @puts(ptr)
define i32 @main() {
  %p = call ptr @malloc(i64 2)
  call void @free(ptr %p)
  %n = call i32 @puts(ptr %p)
  ret i32 0
}
"#;

#[test]
fn calls(rt: HostRuntime) -> Result<(), Fail> {
    match first_difference(rt.alloc(), CALLS)? {
        None => Ok(()),
        Some((told, wanted)) => {
            assert_eq!(rt; told.as_str(), wanted.as_str());
            Ok(())
        }
    }
}

#[test]
fn output(rt: HostRuntime) -> Result<(), Fail> {
    match first_difference(rt.alloc(), OUTPUT)? {
        None => Ok(()),
        Some((told, wanted)) => {
            assert_eq!(rt; told.as_str(), wanted.as_str());
            Ok(())
        }
    }
}

/// Prints a byte.
const PRINT: &str = "  call i32 @putchar(i32 65)\n";

#[test]
fn the_output_has_a_limit(rt: HostRuntime) -> Result<(), Fail> {
    let alloc = rt.alloc();
    let four = joined(alloc, &[PRINT, PRINT, PRINT, PRINT])?;
    let mut module = joined(
        alloc,
        &["declare i32 @putchar(i32)\ndefine i32 @main() {\n  br label %again\nagain:\n"],
    )?;
    for _ in 0..4 {
        module.append(four.as_slice())?;
    }
    module.append(b"  br label %again\n}\n")?;
    let told = run(alloc, module.as_slice(), "", "99999999")?;
    let at = told
        .as_bytes()
        .iter()
        .position(|b| *b == b'|')
        .ok_or("bar")?;
    assert_eq!(rt; at, 2 + 16_777_216);
    assert!(rt;
        told.as_bytes()
            .ends_with(b"|trapped output @main:1 steps 17825794\n")
    );
    Ok(())
}
