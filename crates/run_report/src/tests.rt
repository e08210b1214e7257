//! The spellings of bytes, and the lines of refused texts.
use crate::bytes::put_bytes;
use crate::refusals::refused_module;
use ir_lex::token::{Cause, ReadError};
use mem_image::object::{Byte, Pointer};
use pv_base::bytes::Bytes;
use pv_base::want::Memory;
use std::alloc::Global;
use std::test::Fail;

/// The parts of a pointer from one on and before another.
fn parts(alloc: Global, pointer: Pointer, from: u8, to: u8) -> Result<Vec<Byte>, Memory> {
    let mut bytes = Vec::new(alloc);
    for part in from..to {
        bytes.push(Byte::Ptr { part, pointer })?;
    }
    Ok(bytes)
}

fn spelled(alloc: Global, bytes: &[Byte]) -> Result<String, Fail> {
    let mut text = Bytes::new(alloc);
    put_bytes(&mut text, bytes)?;
    Ok(String::from_utf8_lossy(alloc, text.as_slice())?)
}

#[test]
fn bytes_alone(rt: HostRuntime) -> Result<(), Fail> {
    let alloc = rt.alloc();
    let bytes = [
        Byte::Num(0),
        Byte::Num(0x41),
        Byte::Unset,
        Byte::Num(0xff),
        Byte::Num(0x0a),
    ];
    assert_eq!(rt; spelled(alloc, &bytes)?.as_str(), "0041--ff0a");
    assert_eq!(rt; spelled(alloc, &[])?.as_str(), "");
    Ok(())
}

#[test]
fn pointers_whole_and_in_parts(rt: HostRuntime) -> Result<(), Fail> {
    let alloc = rt.alloc();
    let before = Pointer::Obj {
        name: 2,
        offset: -8,
    };
    let after = Pointer::Obj { name: 7, offset: 0 };
    let cases: [(Pointer, u8, u8, &str); 7] = [
        (before, 0, 8, "<2+-8>"),
        (after, 0, 8, "<7+0>"),
        (Pointer::Fun { index: 3 }, 0, 8, "<f3>"),
        (Pointer::Null, 0, 8, "<null>"),
        (after, 0, 2, "<7+0.0><7+0.1>"),
        (Pointer::Fun { index: 3 }, 6, 8, "<f3.6><f3.7>"),
        (Pointer::Null, 7, 8, "<null.7>"),
    ];
    for (pointer, from, to, wanted) in &cases {
        let bytes = parts(alloc, *pointer, *from, *to)?;
        assert_eq!(rt; spelled(alloc, bytes.as_slice())?.as_str(), *wanted);
    }
    Ok(())
}

#[test]
fn pointers_among_others(rt: HostRuntime) -> Result<(), Fail> {
    let alloc = rt.alloc();
    let one = Pointer::Obj { name: 1, offset: 4 };
    let other = Pointer::Obj { name: 1, offset: 5 };
    let mut bytes = parts(alloc, one, 7, 8)?;
    bytes.extend_from_slice(parts(alloc, one, 0, 8)?.as_slice())?;
    bytes.extend_from_slice(parts(alloc, other, 0, 8)?.as_slice())?;
    bytes.push(Byte::Unset)?;
    assert_eq!(rt;
        spelled(alloc, bytes.as_slice())?.as_str(),
        "<1+4.7><1+4><1+5>--"
    );
    let mut bytes = parts(alloc, one, 0, 4)?;
    bytes.extend_from_slice(parts(alloc, other, 4, 8)?.as_slice())?;
    let wanted = "<1+4.0><1+4.1><1+4.2><1+4.3><1+5.4><1+5.5><1+5.6><1+5.7>";
    assert_eq!(rt; spelled(alloc, bytes.as_slice())?.as_str(), wanted);
    Ok(())
}

fn refusal(alloc: Global, line: u32, cause: Cause) -> Result<String, Fail> {
    let error = ReadError { line, cause };
    let text = refused_module(alloc, &error)?;
    Ok(String::from_utf8_lossy(alloc, text.as_slice())?)
}

#[test]
fn refused_texts(rt: HostRuntime) -> Result<(), Fail> {
    let alloc = rt.alloc();
    let word = Bytes::from_slice(alloc, b"ptrtoint")?;
    let line = refusal(alloc, 8, Cause::OutOfProfile(word))?;
    assert_eq!(rt;
        line.as_str(),
        "refused module line 8 out-of-profile ptrtoint\n"
    );
    let line = refusal(alloc, 2, Cause::End)?;
    assert_eq!(rt; line.as_str(), "refused module line 2 end\n");
    let line = refusal(alloc, 1, Cause::BadType)?;
    assert_eq!(rt; line.as_str(), "refused module line 1 bad-type\n");
    Ok(())
}
