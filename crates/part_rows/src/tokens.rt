//! Texts and their tokens, faults and spellings.
use ir_lex::scan::tokens;
use ir_lex::spelled::{integer, spelled, string};
use ir_lex::token::{Cause, TokenKind};
use pv_base::bytes::Bytes;
use pv_base::name::Name;
use pv_base::want::Memory;
use std::alloc::Global;
use std::fmt::Write;
use std::process::Abort;
use std::test::Fail;

fn letter(kind: TokenKind) -> &'static str {
    match kind {
        TokenKind::GlobalName => "G",
        TokenKind::LocalName => "L",
        TokenKind::Label => "B",
        TokenKind::Integer => "I",
        TokenKind::Word => "W",
        TokenKind::Text => "T",
        TokenKind::Punct => "P",
    }
}

fn word(cause: &Cause) -> &'static str {
    match cause {
        Cause::Token => "token",
        Cause::End => "end",
        Cause::Number => "number",
        Cause::TooLong => "too-long",
        _ => "other",
    }
}

/// Each token's letter, line and place, and the fault with its line.
fn shown(rt: &impl Abort, alloc: Global, text: &[u8]) -> Result<String, Fail> {
    assert!(rt; text.len() < 1_000_000);
    let lexed = tokens(alloc, text)?;
    let mut out = String::new(alloc);
    for token in lexed.tokens.as_slice() {
        let kind = letter(token.kind);
        let (line, from, to) = (token.line, token.from, token.to);
        write!(out, "{kind}{line}:{from}-{to} ")?;
    }
    if let Some(fault) = &lexed.fault {
        let cause = word(&fault.cause);
        let line = fault.line;
        write!(out, "{cause}{line}")?;
    }
    Ok(out)
}

/// Each text shows what stands behind it.
fn texts_show(rt: &impl Abort, alloc: Global, rows: &[(&str, &str)]) -> Result<(), Fail> {
    for (text, want) in rows {
        let told = shown(rt, alloc, text.as_bytes())?;
        assert_eq!(rt; told.as_str(), *want, "{text}");
    }
    Ok(())
}

const TOKENS: &[(&str, &str)] = &[
    ("", ""),
    (" \t\r\n;\n; @ é \"\n", ""),
    ("@a", "G1:0-2 "),
    ("%-x.1_$", "L1:0-7 "),
    ("@-5 %$", "G1:0-3 L1:4-6 "),
    ("@12ab", "G1:0-3 W1:3-5 "),
    ("@\"\" %\"\"", "G1:0-3 L1:4-7 "),
    ("@\"a b\\22;\"=", "G1:0-10 P1:10-11 "),
    ("%12", "L1:0-3 "),
    ("-5: i32: $x: ...:", "B1:0-3 B1:4-8 B1:9-12 B1:13-17 "),
    ("12:\n\"a:\":", "B1:0-3 B2:4-9 "),
    ("c\"x\" c \"é\"", "W1:0-1 T1:1-4 W1:5-6 T1:7-11 "),
    ("-5 007 -5a", "I1:0-2 I1:3-6 I1:7-9 W1:9-10 "),
    ("12ab:", "I1:0-2 B1:2-5 "),
    ("_a.b-c9$x$", "W1:0-7 P1:7-8 W1:8-9 P1:9-10 "),
    ("a;b\nc", "W1:0-1 W2:4-5 "),
    ("\n\n=\n,", "P3:2-3 P4:4-5 "),
    ("()[]{}", "P1:0-1 P1:1-2 P1:2-3 P1:3-4 P1:4-5 P1:5-6 "),
    (
        "<>!#$*|",
        "P1:0-1 P1:1-2 P1:2-3 P1:3-4 P1:4-5 P1:5-6 P1:6-7 ",
    ),
    ("......", "P1:0-3 P1:3-6 "),
    (" #dbg_value(", "P1:1-2 W1:2-11 P1:11-12 "),
    ("i032 i0", "W1:0-4 W1:5-7 "),
    ("9223372036854775808", "I1:0-19 "),
    ("340282366920938463463374607431768211455", "I1:0-39 "),
    ("-340282366920938463463374607431768211455", "I1:0-40 "),
    ("@9223372036854775807", "G1:0-20 "),
    ("9223372036854775807:", "B1:0-20 "),
    ("%\"9223372036854775808\"", "L1:0-22 "),
];

#[test]
fn cuts_tokens(rt: HostRuntime) -> Result<(), Fail> {
    texts_show(&rt, rt.alloc(), TOKENS)
}

const FAULTS: &[(&str, &str)] = &[
    ("@", "end1"),
    ("a\n%", "W1:0-1 end2"),
    ("-", "end1"),
    (".", "end1"),
    ("..", "end1"),
    (".....", "P1:0-3 end1"),
    ("\n@\n", "token2"),
    ("%;", "token1"),
    ("-\n", "token1"),
    (". ", "token1"),
    ("..=", "token1"),
    ("-a b", "token1"),
    ("\n\n\"ab", "end3"),
    ("%\"ab", "end1"),
    ("@\"", "end1"),
    ("\"", "end1"),
    ("\n\"ab\n\"", "token2"),
    ("@\"a\nb\"", "token1"),
    ("\"99999999999999999999\n", "token1"),
    ("é", "token1"),
    ("a\n@é", "W1:0-1 token2"),
    ("aé", "W1:0-1 token1"),
    (":", "token1"),
    ("\"a\" :", "T1:0-3 token1"),
    ("; é\n\n^ @", "token3"),
    ("&", "token1"),
    (
        "x\n340282366920938463463374607431768211456",
        "W1:0-1 number2",
    ),
    ("-340282366920938463463374607431768211456", "number1"),
    ("\n@9223372036854775808", "number2"),
    ("%18446744073709551616", "number1"),
    ("9223372036854775808:", "number1"),
];

#[test]
fn meets_faults(rt: HostRuntime) -> Result<(), Fail> {
    texts_show(&rt, rt.alloc(), FAULTS)
}

/// A text of so many equal parts between two others.
fn built(
    alloc: Global,
    front: &str,
    part: &str,
    count: usize,
    back: &str,
) -> Result<Bytes, Memory> {
    let mut text = Bytes::from_slice(alloc, front.as_bytes())?;
    for _ in 0..count {
        text.append(part.as_bytes())?;
    }
    text.append(back.as_bytes())?;
    Ok(text)
}

const LONG_NAMES: &[(&str, &str, usize, &str, &str)] = &[
    ("@", "a", 4096, "", "G1:0-4097 "),
    ("@", "a", 4097, "", "too-long1"),
    ("%\"", "a", 4096, "\"", "L1:0-4099 "),
    ("%\"", "a", 4097, "\"", "too-long1"),
    ("@\"", "\\41", 4096, "\"", "G1:0-12291 "),
    ("@\"", "\\\\", 4097, "\"", "too-long1"),
    ("\n", "a", 4096, ":", "B2:1-4098 "),
    ("\n", "a", 4097, ":", "too-long2"),
    ("\"", "\\41", 4096, "\":", "B1:0-12291 "),
    ("\"", "\\41", 4097, "\":", "too-long1"),
    ("", "0", 4097, ":", "too-long1"),
    ("@", "0", 4097, "", "too-long1"),
    ("@1", "0", 4097, "", "number1"),
    ("", "0", 4097, "", "I1:0-4097 "),
    ("$", "a", 4097, "", "P1:0-1 W1:1-4098 "),
    ("$\"", "a", 4097, "\"", "P1:0-1 T1:1-4100 "),
];

#[test]
fn limits_names(rt: HostRuntime) -> Result<(), Fail> {
    for (front, part, count, back, want) in LONG_NAMES {
        let text = built(rt.alloc(), front, part, *count, back)?;
        let told = shown(&rt, rt.alloc(), text.as_slice())?;
        assert_eq!(rt; told.as_str(), *want, "{front}");
    }
    Ok(())
}

/// `#` and a name's number, or its bytes.
fn told(alloc: Global, name: &Name) -> Result<String, Fail> {
    match name {
        Name::Numbered(n) => Ok(format!(in alloc; "#{n}")?),
        Name::Named(bytes) => Ok(latin(alloc, bytes.as_slice())?),
    }
}

/// The characters of these numbers.
fn latin(alloc: Global, bytes: &[u8]) -> Result<String, Fail> {
    let mut out = String::new(alloc);
    for b in bytes {
        out.push(char::from(*b))?;
    }
    Ok(out)
}

/// What the only token of a text names.
fn name(rt: &impl Abort, alloc: Global, text: &[u8]) -> Result<String, Fail> {
    assert!(rt; text.len() < 100);
    let lexed = tokens(alloc, text)?;
    let all = lexed.tokens.as_slice();
    assert!(rt; all.len() == 1);
    let token = all[0];
    assert!(rt;
        matches!(
            token.kind,
            TokenKind::GlobalName | TokenKind::LocalName | TokenKind::Label
        )
    );
    let spelled = spelled(alloc, text, token)?;
    told(alloc, &spelled)
}

const NAMES: &[(&str, &str)] = &[
    ("@a.b$-_9", "a.b$-_9"),
    ("%7", "#7"),
    ("@\"7\"", "7"),
    ("%007", "#7"),
    ("@9223372036854775807", "#9223372036854775807"),
    ("@\"\"", ""),
    ("@\"\\41\\\\41\\zz\\5\"", "A\\41\\zz\\5"),
    ("@\"\\4a\\4A\\6g\\e9\"", "JJ\\6gé"),
    ("12:", "#12"),
    ("\"12\":", "12"),
    ("-5:", "-5"),
    ("...:", "..."),
];

#[test]
fn spells_names(rt: HostRuntime) -> Result<(), Fail> {
    for (text, want) in NAMES {
        let told = name(&rt, rt.alloc(), text.as_bytes())?;
        assert_eq!(rt; told.as_str(), *want, "{text}");
    }
    Ok(())
}

const INTEGERS: &[(usize, bool, u128)] = &[
    (0, true, 0),
    (1, false, 17),
    (2, true, 340282366920938463463374607431768211455u128),
];

#[test]
fn spells_integers_and_strings(rt: HostRuntime) -> Result<(), Fail> {
    let text = "-0 017 -340282366920938463463374607431768211455 \"a\\0A\\22\\\"";
    let lexed = tokens(rt.alloc(), text.as_bytes())?;
    let all = lexed.tokens.as_slice();
    assert_eq!(rt; all.len(), 4);
    for (k, negative, magnitude) in INTEGERS {
        let token = all[*k];
        assert!(rt; matches!(token.kind, TokenKind::Integer));
        let value = integer(text.as_bytes(), token);
        assert!(rt; value.negative == *negative && value.magnitude == *magnitude);
    }
    let bytes = string(rt.alloc(), text.as_bytes(), all[3])?;
    assert_eq!(rt; bytes.as_slice(), b"a\n\"\\".as_slice());
    Ok(())
}
