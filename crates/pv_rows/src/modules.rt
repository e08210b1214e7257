//! The items and the bodies of loops that several rows run.

/// Fills sixteen integers in each turn, and prints one.
pub(crate) const TABLE_ITEMS: &str =
    "@scratch = global [16 x i32] zeroinitializer\n@fmt = constant [4 x i8] c\"%d\\0A\\00\"\ndeclare i32 @printf(ptr, ...)\n";

pub(crate) const TABLE: &str = "  br label %fill
fill:
  %j = phi i32 [ 0, %body ], [ %j2, %fill ]
  %q = getelementptr inbounds [16 x i32], ptr @scratch, i64 0, i32 %j
  %v = add i32 %i, %j
  store i32 %v, ptr %q
  %j2 = add i32 %j, 1
  %d = icmp slt i32 %j2, 16
  br i1 %d, label %fill, label %say
say:
  %q3 = getelementptr inbounds [16 x i32], ptr @scratch, i64 0, i64 3
  %x = load i32, ptr %q3
  %r = call i32 (ptr, ...) @printf(ptr @fmt, i32 %x)
  br label %latch
";

/// Takes one off a global in each turn.
pub(crate) const COUNT_ITEMS: &str = "@n = global i32 100\n";

pub(crate) const COUNT: &str =
    "  %x = load i32, ptr @n\n  %y = sub i32 %x, 1\n  store i32 %y, ptr @n\n  br label %latch\n";
