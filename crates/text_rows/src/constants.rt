//! Constants in the place of a global's first value.
use crate::modules::first_misread_between;
use std::test::Fail;

const CONSTANTS: &[(&str, &str)] = &[
    ("-1", "@x = global i8 -1\n"),
    ("255", "@x = global i8 -1\n"),
    ("-128", "@x = global i8 -128\n"),
    ("256", "1 number"),
    ("\n-129", "2 number"),
    ("true, align 1", "@x = global i8 true\n"),
    ("@f", "@x = global i8 @f\n"),
    ("zeroinitializer", "@x = global i8 zeroinitializer\n"),
    ("c\"a\\0A\\\\\"", "@x = global i8 c\"a\\0A\\5C\"\n"),
    ("c x", "1 operand"),
    ("[]", "@x = global i8 []\n"),
    ("[ i8 1, i16 65534 ]", "@x = global i8 [ i8 1, i16 -2 ]\n"),
    ("{ i8 1, ptr null }", "@x = global i8 { i8 1, ptr null }\n"),
    ("<{i1 1}>", "@x = global i8 <{ i1 true }>\n"),
    (
        "[ [1 x i8] c\"\\00\", { ptr } { ptr @g } ]",
        "@x = global i8 [ [1 x i8] c\"\\00\", { ptr } { ptr @g } ]\n",
    ),
    ("[ i8 256, i8\nx ]", "1 number"),
    ("[ i8 1,\n]", "2 bad-type"),
    ("[ i8 1\ni8 2 ]", "2 operand"),
    ("{ i8 1 ]", "1 operand"),
    ("<{ i8 1 }", "1 end"),
    ("<{ i8 1 }]", "1 operand"),
    ("<[ i8 1 ]>", "1 operand"),
    ("[ void 1 ]", "1 bad-type"),
    ("[ i8 undef ]", "1 out-of-profile undef"),
    ("[ i8 %x ]", "1 operand"),
    ("{", "1 end"),
    ("", "1 end"),
];

const ADDRESSES: &[(&str, &str)] = &[
    (
        "inbounds ([4 x i8], ptr @s, i64 0, i64 1)",
        "@x = global ptr getelementptr ([4 x i8], ptr @s, i64 0, i64 1)\n",
    ),
    (
        "nuw inbounds ({ i8, i32 }, ptr @s, i32 0, i32 1), align 8",
        "@x = global ptr getelementptr ({ i8, i32 }, ptr @s, i32 0, i32 1)\n",
    ),
    (
        "(i8, ptr getelementptr (i8, ptr @a, i64 1), i64 2)",
        "@x = global ptr getelementptr (i8, ptr getelementptr (i8, ptr @a, i64 1), i64 2)\n",
    ),
    ("({ i8 }, ptr null, i64 0, i32\n1)", "2 number"),
    ("({ i8 }, ptr null, i64 0,\ni64 0)", "2 operand"),
    ("({ i8 }, ptr null, i64 0, i32\n@x)", "2 operand"),
    ("(i8, ptr null, i64 0,\ni64 1)", "2 operand"),
    ("(i8, ptr null\n)", "2 operand"),
    ("(\ni24, ptr null, i64 0)", "2 layout"),
    ("(i8,\ni64 0, i64 0)", "2 operand"),
    ("(i8, ptr null,\nptr 0)", "2 operand"),
    ("exact (i8, ptr null, i64 0)", "1 operand"),
    ("(%t, ptr null, i64 0)", "1 bad-type"),
    ("(i8, ptr null, i64 undef)", "1 out-of-profile undef"),
    ("inbounds", "1 end"),
    ("(i8, ptr @a, i64 1", "1 end"),
];

#[test]
fn constants(rt: HostRuntime) -> Result<(), Fail> {
    let alloc = rt.alloc();
    assert_eq!(rt;
        first_misread_between(&rt, alloc, "@x = global i8 ", CONSTANTS, "")?.as_str(),
        ""
    );
    assert_eq!(rt;
        first_misread_between(
            &rt,
            alloc,
            "@x = global ptr getelementptr ",
            ADDRESSES,
            ""
        )?.as_str(),
        ""
    );
    Ok(())
}
