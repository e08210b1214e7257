//! The sample modules: what is written of each is read as itself.
use crate::modules::{is_canonical, read};
use std::test::Fail;

const RETURN_42: &str = r#"define i32 @main() {
entry:
  ret i32 42
}
"#;

const PRINT_ABC: &str = r#"declare i32 @putchar(i32)
define i32 @main() {
entry:
  br label %head
head:
  %i = phi i32 [ 0, %entry ], [ %j, %body ]
  %c = icmp ult i32 %i, 3
  br i1 %c, label %body, label %done
body:
  %d = add i32 %i, 65
  %p = call i32 @putchar(i32 %d)
  %j = add i32 %i, 1
  br label %head
done:
  ret i32 %i
}
"#;

/// Fills a scratch table in each turn of a loop, and prints one of its elements.
pub(crate) const TABLE: &str = r#"@scratch = global [16 x i32] zeroinitializer
@fmt = constant [4 x i8] c"%d\0A\00"
declare i32 @printf(ptr, ...)
define i32 @main() {
entry:
  br label %head
head:
  %i = phi i32 [ 0, %entry ], [ %i2, %latch ]
  %c = icmp slt i32 %i, 3
  br i1 %c, label %body, label %done
body:
  br label %fill
fill:
  %j = phi i32 [ 0, %body ], [ %j2, %fill ]
  %q = getelementptr inbounds [16 x i32], ptr @scratch, i64 0, i32 %j
  %v = add i32 %i, %j
  store i32 %v, ptr %q
  %j2 = add i32 %j, 1
  %d = icmp slt i32 %j2, 16
  br i1 %d, label %fill, label %say
say:
  %q3 = getelementptr inbounds [16 x i32], ptr @scratch, i64 0, i64 3
  %x = load i32, ptr %q3
  %r = call i32 (ptr, ...) @printf(ptr @fmt, i32 %x)
  br label %latch
latch:
  %i2 = add i32 %i, 1
  br label %head
done:
  ret i32 0
}
"#;

const REFUSED: &str = r#"define i32 @main() {
  %p = alloca i32
  %n = ptrtoint ptr %p to i64
  ret i32 0
}
"#;

#[test]
fn samples(rt: HostRuntime) -> Result<(), Fail> {
    let alloc = rt.alloc();
    for text in [RETURN_42, PRINT_ABC, TABLE] {
        let canonical = read(&rt, alloc, text.as_bytes())?;
        assert!(rt; is_canonical(&rt, alloc, canonical.as_str())?, "{text}");
    }
    // the table's format is spelled otherwise there: `c"\25d\0A\00"`
    for text in [RETURN_42, PRINT_ABC] {
        assert!(rt; is_canonical(&rt, alloc, text)?, "{text}");
    }
    assert!(rt; !is_canonical(&rt, alloc, TABLE)?);
    assert_eq!(rt;
        read(&rt, alloc, REFUSED.as_bytes())?.as_str(),
        "3 out-of-profile ptrtoint"
    );
    Ok(())
}
