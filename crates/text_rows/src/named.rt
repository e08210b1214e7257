//! What small texts say of their named types, and the tokens that are left of them.
use ir_lex::scan::tokens;
use ir_reader::named::known_in;
use ir_reader::records::without_records;
use ir_text::named::NamedBody;
use ir_tree::table::Names;
use pv_base::bytes::Bytes;
use pv_base::name::Name;
use std::alloc::Global;
use std::process::Abort;
use std::test::Fail;

/// What a text says of `%a`.
fn said(rt: &impl Abort, alloc: Global, text: &[u8]) -> Result<Option<NamedBody>, Fail> {
    assert!(rt; text.len() < 2_000_000);
    let lexed = tokens(alloc, text)?;
    let mut names = Names::new(alloc);
    let found = known_in(alloc, text, lexed.tokens.as_slice(), &mut names)?;
    let name = Name::Named(Bytes::from_slice(alloc, b"a")?);
    Ok(found.known.body(&name))
}

/// Size and alignment of `%a`, with `?` where it has no layout, and `!` where there is a fault in its body.
fn shown(rt: &impl Abort, alloc: Global, text: &[u8]) -> Result<String, Fail> {
    let Some(body) = said(rt, alloc, text)? else {
        return Ok(format!(in alloc; "unknown")?);
    };
    let fault = if body.of.is_none() { "!" } else { "" };
    match body.layout {
        Some(layout) => {
            let (size, align) = (layout.size, layout.align);
            Ok(format!(in alloc; "{fault}{size} {align}")?)
        }
        None => Ok(format!(in alloc; "{fault}?")?),
    }
}

const TYPES: &[(&str, &str)] = &[
    ("", "unknown"),
    ("%a = typo { i8 }", "unknown"),
    ("@a = type { i8 }", "unknown"),
    ("%a = type { i8, i32 }", "8 4"),
    ("%a = type <{ i8, i32 }>", "5 1"),
    ("%a = type { %b, i1 } %b = type { i64 }", "16 8"),
    ("define @f ) %a = type { i8 } = type", "1 1"),
    ("%a = type { i8 } %a = type { i64 }", "1 1"),
    ("%a = type { i8 ; } %a = type { i64 }", "!0 1"),
    ("%a = type { %b }", "!0 1"),
    ("%a = type", "!0 1"),
    ("%a = type opaque", "!0 1"),
    ("%a = type i32", "!0 1"),
    ("%a = type { %a }", "?"),
    ("%a = type { %b } %b = type { [2 x %a] }", "?"),
    ("%a = type { [2 x %b] } %b = type { i65 }", "0 1"),
    ("%a = type { i24 }", "?"),
    ("%a = type { %a = type { i8 }", "!0 1"),
];

#[test]
fn named_types_are_known(rt: HostRuntime) -> Result<(), Fail> {
    for (text, wanted) in TYPES {
        let told = shown(&rt, rt.alloc(), text.as_bytes())?;
        assert_eq!(rt; told.as_str(), *wanted, "{text}");
    }
    Ok(())
}

/// How many tokens are left of a text.
fn left(rt: &impl Abort, alloc: Global, text: &[u8]) -> Result<usize, Fail> {
    assert!(rt; text.len() < 2_000_000);
    let lexed = tokens(alloc, text)?;
    let kept = without_records(alloc, text, lexed.tokens.as_slice())?;
    Ok(kept.len())
}

const RECORDS: &[(&str, usize)] = &[
    ("", 0),
    ("#dbg_value(i32 1)\nret void", 2),
    ("  #dbg_value(i32 1)", 0),
    ("# dbg_value", 2),
    ("#dbg", 2),
    ("#dbg_", 0),
    ("x #dbg_value", 3),
    ("#dbg_value(\n1)\n#dbg_x y\nz", 3),
    ("#attributes", 2),
    ("#0", 2),
];

#[test]
fn records_are_left_out(rt: HostRuntime) -> Result<(), Fail> {
    for (text, wanted) in RECORDS {
        assert_eq!(rt; left(&rt, rt.alloc(), text.as_bytes())?, *wanted, "{text}");
    }
    Ok(())
}
