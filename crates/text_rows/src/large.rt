//! Texts that nest deeply, long names, and the cuts of a text.
use crate::modules::{is_read, read};
use crate::samples::TABLE;
use pv_base::bytes::Bytes;
use std::alloc::Global;
use std::process::Abort;
use std::test::Fail;

/// A piece so many times behind a text.
fn repeated(alloc: Global, before: &str, piece: &str, times: u32) -> Result<Bytes, Fail> {
    let mut text = Bytes::new(alloc);
    text.append(before.as_bytes())?;
    for _ in 0..times {
        text.append(piece.as_bytes())?;
    }
    Ok(text)
}

#[test]
fn deep_types(rt: HostRuntime) -> Result<(), Fail> {
    let text = repeated(rt.alloc(), "@x = global ", "{", 1_000_000)?;
    assert_eq!(rt; read(&rt, rt.alloc(), text.as_slice())?.as_str(), "1 end");
    Ok(())
}

#[test]
fn deep_constants(rt: HostRuntime) -> Result<(), Fail> {
    let mut text = repeated(rt.alloc(), "@x = global ptr ", "[ptr ", 200_000)?;
    assert_eq!(rt; read(&rt, rt.alloc(), text.as_slice())?.as_str(), "1 end");
    text.append(b"0)")?;
    assert_eq!(rt;
        read(&rt, rt.alloc(), text.as_slice())?.as_str(),
        "1 operand"
    );
    Ok(())
}

/// What is read of a text with a long name in the place of `?`.
fn named(rt: &impl Abort, alloc: Global, before: &str, behind: &str) -> Result<String, Fail> {
    let mut text = repeated(alloc, before, "a", 4097)?;
    text.append(behind.as_bytes())?;
    read(rt, alloc, text.as_slice())
}

const LONG_NAMES: &[(&str, &str)] = &[
    ("%", " = type {}"),
    ("@x = global i8 0 @", " = global i8 0"),
    ("declare void @", "()"),
    ("declare void @f(i8 %", ")"),
    ("define void @f() {", ": ret void }"),
    ("define void @f() { %", " = add i8 1, 2 }"),
    ("define void @f() { br label %", " }"),
];

#[test]
fn long_names(rt: HostRuntime) -> Result<(), Fail> {
    for (before, behind) in LONG_NAMES {
        let told = named(&rt, rt.alloc(), before, behind)?;
        assert_eq!(rt; told.as_str(), "1 too-long", "{before}");
    }
    Ok(())
}

/// The lengths of the cuts of a text that are read, with a blank behind each.
fn cuts(rt: &impl Abort, alloc: Global, text: &str) -> Result<String, Fail> {
    let mut lengths = String::new(alloc);
    for len in 0..=text.len() {
        if is_read(rt, alloc, &text.as_bytes()[..len]) {
            lengths.push_str(format!(in alloc; "{len} ")?.as_str())?;
        }
    }
    Ok(lengths)
}

const CUT: &[(&str, &str)] = &[
    ("@a = global ptr null\n", "0 20 21 "),
    ("define void @f() { ret void }\n;x\n", "0 29 30 31 32 33 "),
    ("%T = type {}\n$a = comdat any\n", "0 12 13 26 27 28 29 "),
    ("!0 = !{ }\ntarget triple = \"x\"\n", "0 9 10 29 30 "),
    // Two globals, a declaration and a definition: behind a declaration the front of the word `define` is a word that is passed
    // over.
    (TABLE, "0 44 45 81 82 111 112 113 114 115 116 117 782 783 "),
];

#[test]
fn cuts_between_items(rt: HostRuntime) -> Result<(), Fail> {
    for (text, wanted) in CUT {
        let told = cuts(&rt, rt.alloc(), text)?;
        assert_eq!(rt; told.as_str(), *wanted, "{text}");
    }
    Ok(())
}
