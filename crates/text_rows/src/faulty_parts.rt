//! Instructions that are refused for a name, a word, a mark or their end, at every place where one may stand.
use crate::instructions::first_let_through;
use std::test::Fail;

const NAMES: &[(&str, &str)] = &[
    ("%4 = add i32 1, 2", "1 name"),
    ("%2 = add i32 1, 2", "1 name"),
    ("%x = phi i32 [ 0, @b ]", "1 name"),
    ("%x = phi i32 [ 0, %a ], [ 0,\nb ]", "2 name"),
    ("call void 5()", "1 name"),
    ("call void\nf()", "2 name"),
    ("call i32 (ptr, ...) %p(ptr %q)", "1 name"),
    ("br label 7", "1 name"),
    ("br label\n@a", "2 name"),
    ("br i1 %c, label \"a\", label %b", "1 name"),
    ("br i1 %c, label %a, label\n)", "2 name"),
    ("switch i8 %v, label 1 [ ]", "1 name"),
    ("switch i8 %v, label %d [ i8 1, label @b ]", "1 name"),
];

const OPERANDS: &[(&str, &str)] = &[
    ("%x add i8 1, 2", "1 operand"),
    ("%x = add ptr %a, %b", "1 operand"),
    ("%x = add i8 ), 1", "1 operand"),
    ("%x = add i8 1 2", "1 operand"),
    ("%x = add i8 1,\nlabel", "2 operand"),
    ("%x = trunc ptr %a to i8", "1 operand"),
    ("%x = trunc i64 %a too i8", "1 operand"),
    ("%x = trunc i64 %a to\nptr", "2 operand"),
    ("%x = freeze i8,", "1 operand"),
    ("%x = icmp less i8 1, 2", "1 operand"),
    ("%x = icmp samesign i8 1, 2", "1 operand"),
    ("%x = icmp eq i8 1 2", "1 operand"),
    ("%x = select i8 %c, i32 1, i32 2", "1 operand"),
    ("%x = select ptr %c, i32 1, i32 2", "1 operand"),
    ("%x = select i1 %c, i32 1,\ni64 2", "2 operand"),
    ("%x = phi i32 0", "1 operand"),
    ("%x = phi i32 [ 0 %a ]", "1 operand"),
    ("%x = phi i32 [ 0, %a )", "1 operand"),
    ("%x = alloca i8, ptr null", "1 operand"),
    ("%x = load i8, i8 %p", "1 operand"),
    ("%x = load i8 ptr %p", "1 operand"),
    ("store i8 1, i64 %p", "1 operand"),
    ("store i8, ptr %p", "1 operand"),
];

const OPERANDS_OF_CALLS: &[(&str, &str)] = &[
    ("%x = getelementptr i8, i8 %p, i64 0", "1 operand"),
    ("%x = getelementptr i8, ptr %p\nret void", "2 operand"),
    ("%x = getelementptr i8, ptr %p, ptr null", "1 operand"),
    ("%x = getelementptr exact i8, ptr %p, i64 0", "1 bad-type"),
    ("call i32 (i32, ...) @f()", "1 operand"),
    ("call i32 (ptr) @f(ptr %p)", "1 operand"),
    ("call void @f i8 1)", "1 operand"),
    ("call void @f(i8 1 i8 2)", "1 operand"),
    ("call void @f(i8 1,\n)", "2 bad-type"),
    ("call void @f(i8 noundef)", "1 operand"),
    ("ret i8 )", "1 operand"),
    ("br 7", "1 operand"),
    ("br i8 1, label %a, label %b", "1 operand"),
    ("br ptr %c, label %a, label %b", "1 operand"),
    ("br i1 %c label %a, label %b", "1 operand"),
    ("br i1 %c,\n%a, label %b", "2 operand"),
    ("switch ptr %v, label %d [ ]", "1 operand"),
    ("switch i8 1, %d [ ]", "1 operand"),
    ("switch i8 1, label %d ( )", "1 operand"),
    ("switch i8 1, label %d [ i16 1, label %a ]", "1 operand"),
    ("switch i8 1, label %d [ i8 %v, label %a ]", "1 operand"),
    ("switch i8 1, label %d [ i8 1 label %a ]", "1 operand"),
    ("unreachable, align x", "1 operand"),
    ("ret void, !dbg 7", "1 operand"),
];

#[test]
fn names_and_operands(rt: HostRuntime) -> Result<(), Fail> {
    let alloc = rt.alloc();
    assert_eq!(rt; first_let_through(&rt, alloc, NAMES)?.as_str(), "");
    assert_eq!(rt; first_let_through(&rt, alloc, OPERANDS)?.as_str(), "");
    assert_eq!(rt;
        first_let_through(&rt, alloc, OPERANDS_OF_CALLS)?.as_str(),
        ""
    );
    Ok(())
}

const OPCODES: &[(&str, &str)] = &[
    ("add i8 1, 2", "1 instruction"),
    ("load i8, ptr %p", "1 instruction"),
    ("phi i8 [ 0, %a ]", "1 instruction"),
    ("%x = store i8 1, ptr %p", "1 instruction"),
    ("%x = ret void", "1 instruction"),
    ("%x = br label %a", "1 instruction"),
    ("%x =\nunreachable", "2 instruction"),
    ("%x = frob i8 1, 2", "1 instruction"),
    ("%x = 7", "1 instruction"),
    ("%x = tail add i8 1, 2", "1 instruction"),
    ("@x = add i32 1, 2", "1 instruction"),
    ("nonsense )", "1 instruction"),
    ("tail ret void", "1 instruction"),
    ("{", "1 instruction"),
    ("7", "1 instruction"),
    ("\"add\"", "1 instruction"),
    ("#0", "1 instruction"),
];

const ENDS: &[(&str, &str)] = &[
    ("", "1 end"),
    ("\n\n", "2 end"),
    ("%x", "1 end"),
    ("%x =\n", "1 end"),
    ("%x = add", "1 end"),
    ("%x = add nsw\n; words\n", "2 end"),
    ("%x = add i32 1,\n\n", "2 end"),
    ("%x = trunc i8 1 to", "1 end"),
    ("%x = freeze i8", "1 end"),
    ("%x = icmp samesign", "1 end"),
    ("%x = select i1 %c,", "1 end"),
    ("%x = phi i32", "1 end"),
    ("%x = phi i32 [ 0, %a ],\n[", "2 end"),
    ("%x = alloca", "1 end"),
    ("%x = load i8,", "1 end"),
    ("store i8 1, ptr", "1 end"),
    ("%x = getelementptr i8, ptr %p", "1 end"),
    ("%x = getelementptr inbounds [2 x", "1 end"),
    ("tail", "1 end"),
    ("%x = frob", "1 end"),
    ("%x = add i8 1, @", "1 end"),
    ("%x = add i8 1, @ ", "1 token"),
    ("call void @f(i8 noundef 7", "1 end"),
    ("call i32 (ptr, ...", "1 end"),
    ("ret", "1 end"),
    ("br label", "1 end"),
    ("br i1 %c, label %a,", "1 end"),
    ("switch i8 %v, label %d [ i8 1, label %a ", "1 end"),
];

#[test]
fn opcodes_and_ends(rt: HostRuntime) -> Result<(), Fail> {
    let alloc = rt.alloc();
    assert_eq!(rt; first_let_through(&rt, alloc, OPCODES)?.as_str(), "");
    assert_eq!(rt; first_let_through(&rt, alloc, ENDS)?.as_str(), "");
    Ok(())
}
