//! Objects, pointers and addresses.
use crate::tables::first_difference;
use std::test::Fail;

const TABLE: &str = r#"; budget 9
; status 1
; report trapped byte-kind @main:2 steps 3
define i32 @main() {
  %p = alloca [2 x i64]
  store ptr %p, ptr %p
  %x = load i64, ptr %p
  ret i32 0
}
;;
; budget 9
; status 1
; report trapped unset-byte @main:3 steps 4
define i32 @main() {
  %p = alloca [2 x i64]
  store ptr %p, ptr %p
  %q = getelementptr i8, ptr %p, i64 4
  %x = load ptr, ptr %q
  ret i32 0
}
;;
; budget 99
; status 0
; report ended 1 steps 11
; a pointer copied by halves is the same pointer
declare void @llvm.memcpy.p0.p0.i64(ptr, ptr, i64, i1)
define i32 @main() {
  %p = alloca ptr
  %q = alloca ptr
  store ptr %q, ptr %p
  %p4 = getelementptr i8, ptr %p, i64 4
  %q4 = getelementptr i8, ptr %q, i64 4
  call void @llvm.memcpy.p0.p0.i64(ptr %q, ptr %p, i64 4, i1 false)
  call void @llvm.memcpy.p0.p0.i64(ptr %q4, ptr %p4, i64 4, i1 false)
  %x = load ptr, ptr %q
  %e = icmp eq ptr %x, %q
  %r = zext i1 %e to i32
  ret i32 %r
}
;;
; budget 9
; status 1
; report trapped byte-kind @main:7 steps 8
; its parts in another order are none
declare void @llvm.memcpy.p0.p0.i64(ptr, ptr, i64, i1)
define i32 @main() {
  %p = alloca ptr
  %q = alloca ptr
  store ptr %q, ptr %p
  %p4 = getelementptr i8, ptr %p, i64 4
  %q4 = getelementptr i8, ptr %q, i64 4
  call void @llvm.memcpy.p0.p0.i64(ptr %q, ptr %p4, i64 4, i1 false)
  call void @llvm.memcpy.p0.p0.i64(ptr %q4, ptr %p, i64 4, i1 false)
  %x = load ptr, ptr %q
  ret i32 0
}
;;
; budget 999
; status 0
; report ended 15 steps 67
; a list of five elements, built from its end and walked
%node = type { i32, ptr }
declare ptr @malloc(i64)
define i32 @main() {
entry:
  br label %make
make:
  %i = phi i32 [ 1, %entry ], [ %j, %make ]
  %list = phi ptr [ null, %entry ], [ %p, %make ]
  %p = call ptr @malloc(i64 16)
  store i32 %i, ptr %p
  %n = getelementptr inbounds %node, ptr %p, i64 0, i32 1
  store ptr %list, ptr %n
  %j = add i32 %i, 1
  %c = icmp ule i32 %j, 5
  br i1 %c, label %make, label %walk
walk:
  %at = phi ptr [ %p, %make ], [ %next, %walk ]
  %s = phi i32 [ 0, %make ], [ %t, %walk ]
  %v = load i32, ptr %at
  %t = add i32 %s, %v
  %m = getelementptr inbounds %node, ptr %at, i64 0, i32 1
  %next = load ptr, ptr %m
  %d = icmp ne ptr %next, null
  br i1 %d, label %walk, label %done
done:
  ret i32 %t
}
;;
; budget 9
; status 1
; report trapped inbounds @main:2 steps 3
define i32 @main() {
  %p = alloca [16 x i8]
  %q = getelementptr inbounds i8, ptr %p, i64 16
  %r = getelementptr inbounds i8, ptr %p, i64 17
  ret i32 0
}
;;
; budget 9
; status 1
; report trapped inbounds @main:1 steps 2
; the sum wraps into the object, and the true one is far outside
define i32 @main() {
  %p = alloca [16 x i8]
  %q = getelementptr inbounds [16 x i8], ptr %p, i64 1152921504606846976
  ret i32 0
}
;;
; budget 9
; status 0
; report ended 7 steps 6
; report global @g 0000000000000000000000000000000000000000000000000700000000000000
; a field of a struct in an array in a struct
%inner = type { i16, i32 }
%outer = type { i8, [3 x %inner], i16 }
@g = global %outer zeroinitializer
define i32 @main() {
  %n = sext i8 2 to i64
  %p = getelementptr inbounds %outer, ptr @g, i64 0, i32 1, i64 %n, i32 1
  store i32 7, ptr %p
  %q = getelementptr i8, ptr @g, i64 24
  %x = load i32, ptr %q
  ret i32 %x
}
;;
; budget 9
; status 0
; report ended 5 steps 6
; an index below 0
define i32 @main() {
  %p = alloca [4 x i32]
  store i32 5, ptr %p
  %q = getelementptr inbounds i32, ptr %p, i64 3
  %r = getelementptr inbounds i32, ptr %q, i8 -3
  %x = load i32, ptr %r
  ret i32 %x
}
;;
; budget 9
; status 1
; report trapped byte-kind @main:2 steps 3
define i32 @main() {
  %p = alloca i8
  store i8 2, ptr %p
  %x = load i1, ptr %p
  ret i32 0
}
;;
; budget 9
; status 0
; report ended 0 steps 4
; report global @p 0000000000000000
; a null pointer is eight zeros
@p = global ptr @p
define i32 @main() {
  store ptr null, ptr @p
  %x = load i64, ptr @p
  %y = trunc i64 %x to i32
  ret i32 %y
}
;;
; budget 9
; status 1
; report trapped null @main:0 steps 1
define i32 @main() {
  %x = load i32, ptr null
  ret i32 %x
}
;;
; budget 9
; status 1
; report trapped range @main:0 steps 1
define i32 @main() {
  %x = load i32, ptr @main
  ret i32 %x
}
;;
; budget 9
; status 1
; report trapped range @main:1 steps 2
; report global @v 00
; the range is tested before the constant
@g = constant i32 1
@v = global i8 0
define i32 @main() {
  %q = getelementptr i8, ptr @g, i64 1
  store i32 2, ptr %q
  ret i32 0
}
;;
; budget 9
; status 1
; report trapped const-write @main:0 steps 1
@g = constant i32 1
define i32 @main() {
  store i32 2, ptr @g
  ret i32 0
}
;;
; budget 9
; status 1
; report trapped dead @main:3 steps 4
declare ptr @malloc(i64)
declare void @free(ptr)
define i32 @main() {
  %p = call ptr @malloc(i64 4)
  store i32 1, ptr %p
  call void @free(ptr %p)
  %x = load i32, ptr %p
  ret i32 %x
}
;;
; budget 9
; status 1
; report trapped free @main:2 steps 3
declare void @free(ptr)
define i32 @main() {
  call void @free(ptr null)
  %p = alloca i32
  call void @free(ptr %p)
  ret i32 0
}
;;
; budget 9
; status 1
; report trapped live-memory @main:2 steps 3
declare ptr @malloc(i64)
define i32 @main() {
  %p = call ptr @malloc(i64 4194304)
  %q = call ptr @malloc(i64 1)
  %r = alloca i8
  ret i32 0
}
;;
; budget 9
; status 1
; report trapped pointer-order @main:3 steps 4
define i32 @main() {
  %p = alloca [2 x i8]
  %q = getelementptr i8, ptr %p, i64 1
  %c = icmp ult ptr %p, %q
  %d = icmp ult ptr %p, null
  ret i32 0
}
;;
; budget 9000000
; status 0
; report ended 1000000 steps 6000004
; a million loads and stores
define i32 @main() {
entry:
  %p = alloca i32
  store i32 0, ptr %p
  br label %head
head:
  %i = phi i32 [ 0, %entry ], [ %j, %head ]
  %x = load i32, ptr %p
  %y = add i32 %x, 1
  store i32 %y, ptr %p
  %j = add i32 %i, 1
  %c = icmp ult i32 %j, 1000000
  br i1 %c, label %head, label %done
done:
  ret i32 %y
}
"#;

#[test]
fn memory(rt: HostRuntime) -> Result<(), Fail> {
    match first_difference(rt.alloc(), TABLE)? {
        None => Ok(()),
        Some((told, wanted)) => {
            assert_eq!(rt; told.as_str(), wanted.as_str());
            Ok(())
        }
    }
}
