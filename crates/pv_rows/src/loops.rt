//! Loops over memory, each in one frame.
use crate::calls::{check, run, turning};
use crate::modules::{COUNT, COUNT_ITEMS, TABLE, TABLE_ITEMS};
use std::test::Fail;

/// Writes a byte in one turn and prints it in a later one.
const LATER_ITEMS: &str = "@a = global i8 0\ndeclare i32 @putchar(i32)\n";

const LATER: &str = "  %w = icmp eq i32 %i, 5
  br i1 %w, label %write, label %test
write:
  store i8 65, ptr @a
  br label %latch
test:
  %r = icmp eq i32 %i, 7
  br i1 %r, label %read, label %latch
read:
  %x = load i8, ptr @a
  %y = zext i8 %x to i32
  %z = call i32 @putchar(i32 %y)
  br label %latch
";

const EARLIER: &str = "  %w = icmp eq i32 %i, 7
  br i1 %w, label %write, label %test
write:
  store i8 65, ptr @a
  br label %latch
test:
  %r = icmp eq i32 %i, 5
  br i1 %r, label %read, label %latch
read:
  %x = load i8, ptr @a
  %y = zext i8 %x to i32
  %z = call i32 @putchar(i32 %y)
  br label %latch
";

const PAST_RANGE: &str =
    "  %x = load i32, ptr @n\n  %y = add nsw i32 %x, 1\n  store i32 %y, ptr @n\n  br label %latch\n";

/// A list of one element, made and freed in each turn.
const LIST_ITEMS: &str =
    "@list = global ptr null\n@tail = global ptr null\ndeclare ptr @malloc(i64)\ndeclare void @free(ptr)\n";

const LIST: &str = "  %p = call ptr @malloc(i64 16)
  %h = load ptr, ptr @list
  store ptr %h, ptr %p
  store ptr %p, ptr @list
  store ptr %p, ptr @tail
  %g = load ptr, ptr @list
  %n = load ptr, ptr %g
  store ptr %n, ptr @list
  call void @free(ptr %g)
  br label %latch
";

const KEEP_ONE: &str = "  %p = call ptr @malloc(i64 8)
  store i32 %i, ptr %p
  %k = icmp eq i32 %i, 300
  br i1 %k, label %latch, label %drop
drop:
  call void @free(ptr %p)
  br label %latch
";

const LEAVE: &str = "  %b = icmp eq i32 %i, 40\n  br i1 %b, label %done, label %latch\n";

/// Reads through a pointer that the first turn stores.
const THROUGH_ITEMS: &str =
    "@a = global i32 66\n@cur = global ptr null\ndeclare i32 @putchar(i32)\n";

const THROUGH: &str = "  %z = icmp eq i32 %i, 0
  br i1 %z, label %set, label %get
set:
  store ptr @a, ptr @cur
  br label %latch
get:
  %q = load ptr, ptr @cur
  %v = load i32, ptr %q
  %o = call i32 @putchar(i32 %v)
  br label %latch
";

const ECHO_ITEMS: &str = "declare i32 @getchar()\ndeclare i32 @putchar(i32)\n";

const ECHO: &str =
    "  %g = call i32 @getchar()\n  %o = call i32 @putchar(i32 %g)\n  br label %latch\n";

/// Items, turns, body, input and budget, each with the answer.
const RUNS: &[(&str, &str, &str, &str, &str, &str)] = &[
    (
        TABLE_ITEMS,
        "0",
        TABLE,
        "",
        "99",
        "0 |ended 0 steps 4\nglobal @scratch 00000000000000000000000000000000000000000000000000000000000000000000000000000000000000000000000000000000000000000000000000000000\n",
    ),
    (
        LATER_ITEMS,
        "10",
        LATER,
        "",
        "1000",
        "0 A|ended 0 steps 88\nglobal @a 41\n",
    ),
    (
        LATER_ITEMS,
        "10",
        EARLIER,
        "",
        "1000",
        "0 \0|ended 0 steps 88\nglobal @a 41\n",
    ),
    (
        COUNT_ITEMS,
        "4",
        COUNT,
        "",
        "1000",
        "0 |ended 0 steps 36\nglobal @n 60000000\n",
    ),
    (
        COUNT_ITEMS,
        "4",
        COUNT,
        "",
        "36",
        "0 |ended 0 steps 36\nglobal @n 60000000\n",
    ),
    (
        COUNT_ITEMS,
        "4",
        COUNT,
        "",
        "35",
        "2 |spent 35\nglobal @n 60000000\n",
    ),
    (
        COUNT_ITEMS,
        "20",
        COUNT,
        "",
        "1000",
        "0 |ended 0 steps 164\nglobal @n 50000000\n",
    ),
    (
        "@n = global i32 2147483646\n",
        "4",
        PAST_RANGE,
        "",
        "1000",
        "1 |trapped overflow @main:5 steps 13\nglobal @n ffffff7f\n",
    ),
    (
        LIST_ITEMS,
        "6",
        LIST,
        "",
        "1000",
        "0 |ended 0 steps 88\nglobal @list 0000000000000000\nglobal @tail <7+0>\n",
    ),
    (
        "declare ptr @malloc(i64)\ndeclare void @free(ptr)\n",
        "600",
        KEEP_ONE,
        "",
        "9999",
        "0 |ended 0 steps 6002\n",
    ),
    ("", "100", LEAVE, "", "1000", "0 |ended 0 steps 246\n"),
    (
        THROUGH_ITEMS,
        "3",
        THROUGH,
        "",
        "1000",
        "0 BB|ended 0 steps 32\nglobal @a 42000000\nglobal @cur <0+0>\n",
    ),
    (
        ECHO_ITEMS,
        "3",
        ECHO,
        "xyz",
        "1000",
        "0 xyz|ended 0 steps 25\n",
    ),
    (
        ECHO_ITEMS,
        "2",
        ECHO,
        "x",
        "1000",
        "0 x\u{FFFD}|ended 0 steps 18\n",
    ),
];

#[test]
fn runs(rt: HostRuntime) -> Result<(), Fail> {
    let alloc = rt.alloc();
    for (items, turns, body, input, budget, wanted) in RUNS {
        let module = turning(alloc, items, turns, body)?;
        let told = run(alloc, module.as_slice(), input, budget)?;
        assert_eq!(rt; told.as_str(), *wanted);
    }
    Ok(())
}

#[test]
fn a_table_is_filled_and_printed(rt: HostRuntime) -> Result<(), Fail> {
    let alloc = rt.alloc();
    let whole =
        "1001\n1002\n|ended 0 steps 105004\nglobal @scratch e7030000e8030000e9030000ea030000eb030000ec030000ed030000ee030000ef030000f0030000f1030000f2030000f3030000f4030000f5030000f6030000\n";
    let cut =
        "477\n478\n|spent 50000\nglobal @scratch dc010000dd010000de010000de010000df010000e0010000e1010000e2010000e3010000e4010000e5010000e6010000e7010000e8010000e9010000ea010000\n";
    // turns, budget; the length of status and output, and how the answer ends
    let rows: [(&str, &str, usize, &str); 5] = [
        ("1000", "1000000", 2 + 3899, whole),
        ("1000", "105004", 2 + 3899, whole),
        ("1000", "50000", 2 + 1800, cut),
        (
            "253",
            "1000000",
            2 + 908,
            "254\n255\n|ended 0 steps 26569\nglobal @scratch fc000000fd000000fe000000ff000000000100000101000002010000030100000401000005010000060100000701000008010000090100000a0100000b010000\n",
        ),
        (
            "254",
            "1000000",
            2 + 912,
            "255\n256\n|ended 0 steps 26674\nglobal @scratch fd000000fe000000ff000000000100000101000002010000030100000401000005010000060100000701000008010000090100000a0100000b0100000c010000\n",
        ),
    ];
    for (turns, budget, length, ending) in &rows {
        let module = turning(alloc, TABLE_ITEMS, turns, TABLE)?;
        let told = run(alloc, module.as_slice(), "", budget)?;
        assert!(rt; told.as_bytes().ends_with(ending.as_bytes()));
        assert_eq!(rt;
            told.as_bytes().iter().position(|b| *b == b'|'),
            Some(*length)
        );
    }
    Ok(())
}

#[test]
fn a_module_is_counted(rt: HostRuntime) -> Result<(), Fail> {
    let alloc = rt.alloc();
    let module = turning(alloc, COUNT_ITEMS, "4", COUNT)?;
    assert_eq!(rt;
        check(alloc, module.as_slice())?.as_str(),
        "0 accepted functions 1 globals 1 instructions 11\n|"
    );
    let module = turning(alloc, TABLE_ITEMS, "4", TABLE)?;
    assert_eq!(rt;
        check(alloc, module.as_slice())?.as_str(),
        "0 accepted functions 1 globals 2 instructions 19\n|"
    );
    Ok(())
}
