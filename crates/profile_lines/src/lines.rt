//! What one line says.
ghost use Rattle.std.specs.Prelude.{◌≡◌, IfOk};
ghost use Rattle.profile_lines.specs.Lines.{is_passed_over as is_passed_over_of, version_of as version_of_text, line_of as line_of_text, fields, guess_of, worded as worded_of, loop_line as loop_of, period_line as period_of, block_line as block_of, phi_line as phi_of, use_line as use_of, local_line as local_of, flow_line as flow_of, value_line as value_of};
ghost use Rattle.std.specs.Str.{bytes_eq};
ghost use Rattle.profile_lines.specs.Numbers.{number_of, value_of as value_bytes};

use crate::cut::{both, cut};
use crate::hex::value;
use crate::name::{global_name, local_name};
use crate::number::{number, period, signed};
use crate::profile::{
    FlowLine, PhiLine, PhiWord, ProfileCause, ProfileName, SiteName, UseLine, ValueLine,
};
use crate::site::{object, site, slot};
use pv_base::bytes::Bytes;
use pv_base::want::Memory;
use std::alloc::Global;

/// A line after the first one that is not passed over.
#[derive(Drop)]
pub enum Line {
    Loop(ProfileName, ProfileName),
    Period(u32),
    Block(ProfileName),
    Phi(PhiLine),
    Use(UseLine),
    Local(SiteName),
    Flow(FlowLine),
    Value(ValueLine),
    End,
}

/// An empty line, or one that begins with `#`.
pub fn is_passed_over(text: &[u8]) -> bool
    ensures { result ≡ is_passed_over_of text.now }
{
    match text {
        [] => true,
        [first, ..] => *first == b'#',
    }
}

/// The version that a first line names.
pub fn version_of(text: &[u8]) -> Option<u32>
    ensures { result ≡ version_of_text text.now }
{
    if is_word(text, "privateer-profile 1") {
        Some(1)
    } else if is_word(text, "privateer-profile 2") {
        Some(2)
    } else {
        None
    }
}

fn is_word(text: &[u8], word: &str) -> bool
    ensures { result ≡ bytes_eq text.now word.now }
{
    text == word.as_bytes()
}

/// `step S`, `same`, `reduce`.
fn guess(text: &[u8]) -> Result<PhiWord, ProfileCause>
    ensures { result ≡ guess_of text.now }
{
    if is_word(text, "same") {
        return Ok(PhiWord::Same);
    }
    if is_word(text, "reduce") {
        return Ok(PhiWord::Reduce);
    }
    match cut(b' ', text) {
        Some((word, by)) if is_word(word, "step") => match signed(by) {
            Ok(by) => Ok(PhiWord::Step(by)),
            Err(cause) => Err(cause),
        },
        _ => Err(ProfileCause::Word),
    }
}

fn loop_line(alloc: Global, text: &[u8]) -> Result<Result<Line, ProfileCause>, Memory>
    ensures { IfOk result (λ line. line ≡ loop_of text.now) }
{
    let Some((function, header)) = cut(b' ', text) else {
        return Ok(Err(ProfileCause::Word));
    };
    match both(global_name(alloc, function)?, local_name(alloc, header)?) {
        Ok((function, header)) => Ok(Ok(Line::Loop(function, header))),
        Err(cause) => Ok(Err(cause)),
    }
}

fn period_line(text: &[u8]) -> Result<Line, ProfileCause>
    ensures { result ≡ period_of text.now }
{
    match period(text) {
        Ok(turns) => Ok(Line::Period(turns)),
        Err(cause) => Err(cause),
    }
}

fn block_line(alloc: Global, text: &[u8]) -> Result<Result<Line, ProfileCause>, Memory>
    ensures { IfOk result (λ line. line ≡ block_of text.now) }
{
    match local_name(alloc, text)? {
        Ok(name) => Ok(Ok(Line::Block(name))),
        Err(cause) => Ok(Err(cause)),
    }
}

fn phi_line(alloc: Global, text: &[u8]) -> Result<Result<Line, ProfileCause>, Memory>
    ensures { IfOk result (λ line. line ≡ phi_of text.now) }
{
    let Some((register, word)) = cut(b' ', text) else {
        return Ok(Err(ProfileCause::Word));
    };
    match both(local_name(alloc, register)?, guess(word)) {
        Ok((register, guess)) => Ok(Ok(Line::Phi(PhiLine { register, guess }))),
        Err(cause) => Ok(Err(cause)),
    }
}

fn use_line(alloc: Global, text: &[u8]) -> Result<Result<Line, ProfileCause>, Memory>
    ensures { IfOk result (λ line. line ≡ use_of text.now) }
{
    let Some((at, touched)) = cut(b' ', text) else {
        return Ok(Err(ProfileCause::Word));
    };
    match both(slot(alloc, at)?, object(alloc, touched)?) {
        Ok(((at, slot), object)) => Ok(Ok(Line::Use(UseLine { at, slot, object }))),
        Err(cause) => Ok(Err(cause)),
    }
}

fn local_line(alloc: Global, text: &[u8]) -> Result<Result<Line, ProfileCause>, Memory>
    ensures { IfOk result (λ line. line ≡ local_of text.now) }
{
    match site(alloc, text)? {
        Ok(site) => Ok(Ok(Line::Local(site))),
        Err(cause) => Ok(Err(cause)),
    }
}

/// An offset and a length.
fn extent(text: &[u8]) -> Result<(u64, u64), ProfileCause>
    ensures { result ≡ fields number_of number_of text.now }
{
    match cut(b' ', text) {
        Some((offset, length)) => both(number(offset), number(length)),
        None => Err(ProfileCause::Word),
    }
}

fn flow_line(alloc: Global, text: &[u8]) -> Result<Result<Line, ProfileCause>, Memory>
    ensures { IfOk result (λ line. line ≡ flow_of text.now) }
{
    let Some((flowing, bytes)) = cut(b' ', text) else {
        return Ok(Err(ProfileCause::Word));
    };
    match both(object(alloc, flowing)?, extent(bytes)) {
        Ok((object, (offset, length))) => Ok(Ok(Line::Flow(FlowLine {
            object,
            offset,
            length,
        }))),
        Err(cause) => Ok(Err(cause)),
    }
}

/// An offset and the bytes there.
fn placed(alloc: Global, text: &[u8]) -> Result<Result<(u64, Bytes), ProfileCause>, Memory>
    ensures { IfOk result (λ bytes. bytes ≡ fields number_of value_bytes text.now) }
{
    match cut(b' ', text) {
        Some((offset, bytes)) => Ok(both(number(offset), value(alloc, bytes)?)),
        None => Ok(Err(ProfileCause::Word)),
    }
}

fn value_line(alloc: Global, text: &[u8]) -> Result<Result<Line, ProfileCause>, Memory>
    ensures { IfOk result (λ line. line ≡ value_of text.now) }
{
    let Some((global, bytes)) = cut(b' ', text) else {
        return Ok(Err(ProfileCause::Word));
    };
    match both(global_name(alloc, global)?, placed(alloc, bytes)?) {
        Ok((global, (offset, bytes))) => Ok(Ok(Line::Value(ValueLine {
            global,
            offset,
            bytes,
        }))),
        Err(cause) => Ok(Err(cause)),
    }
}

/// A word and its fields in a text of this version; version 1 has no word `period`.
fn worded(
    alloc: Global,
    version: u32,
    word: &[u8],
    text: &[u8],
) -> Result<Result<Line, ProfileCause>, Memory>
    ensures { IfOk result (λ line. line ≡ worded_of version word.now text.now) }
{
    if is_word(word, "loop") {
        loop_line(alloc, text)
    } else if is_word(word, "period") {
        if version == 2 {
            Ok(period_line(text))
        } else {
            Ok(Err(ProfileCause::Word))
        }
    } else if is_word(word, "block") {
        block_line(alloc, text)
    } else if is_word(word, "phi") {
        phi_line(alloc, text)
    } else if is_word(word, "use") {
        use_line(alloc, text)
    } else if is_word(word, "local") {
        local_line(alloc, text)
    } else if is_word(word, "flow") {
        flow_line(alloc, text)
    } else if is_word(word, "value") {
        value_line(alloc, text)
    } else {
        Ok(Err(ProfileCause::Word))
    }
}

/// What a line says in a text of this version that is not passed over, not the first of them, and not too long.
pub fn line_of(
    alloc: Global,
    version: u32,
    text: &[u8],
) -> Result<Result<Line, ProfileCause>, Memory>
    ensures { IfOk result (λ line. line ≡ line_of_text version text.now) }
{
    match cut(b' ', text) {
        Some((word, text)) => worded(alloc, version, word, text),
        None if is_word(text, "end") => Ok(Ok(Line::End)),
        None => Ok(Err(ProfileCause::Word)),
    }
}
