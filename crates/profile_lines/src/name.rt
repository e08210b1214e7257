//! Names of a module, however they are spelled.
ghost use Rattle.std.specs.Prelude.{◌≡◌, IfOk};
ghost use Rattle.std.specs.List.{list_all};
ghost use Rattle.profile_lines.specs.Names.{is_name_byte as is_name_byte_of, unquoted as unquoted_of, unsigned_name as unsigned_name_of, name_of, plain_name as plain_name_of, global_name as global_name_of, local_name as local_name_of};

use crate::hex::hex_byte;
use crate::number::number;
use crate::profile::{ProfileCause, ProfileName};
use pv_base::bytes::Bytes;
use pv_base::want::Memory;
use std::alloc::Global;

/// A byte that stands for itself in a name.
fn is_name_byte(byte: u8) -> bool
    ensures { result ≡ is_name_byte_of byte }
{
    matches!(byte, b'a'..=b'z' | b'A'..=b'Z' | b'0'..=b'9' | b'-' | b'$' | b'.' | b'_')
}

/// Bytes that all stand for themselves in a name.
fn is_plain(text: &[u8]) -> bool
    ensures { result ≡ list_all is_name_byte_of text.now }
{
    for byte in text {
        if !is_name_byte(*byte) {
            return false;
        }
    }
    true
}

/// What a string says after its first quote; None where it has no closing quote at its end, or another byte that must
/// not stand in it.
fn unquoted(alloc: Global, text: &[u8]) -> Result<Option<Bytes>, Memory>
    ensures { IfOk result (λ name. name ≡ unquoted_of text.now) }
{
    let mut name = Bytes::new(alloc);
    let mut rest = text;
    while let [first, tail @ ..] = rest {
        if *first == b'\\' {
            let [high, low, tail @ ..] = tail else {
                return Ok(None);
            };
            let Some(byte) = hex_byte(*high, *low) else {
                return Ok(None);
            };
            name.push(byte)?;
            rest = tail;
        } else if is_name_byte(*first) {
            name.push(*first)?;
            rest = tail;
        } else if *first == b'"' && tail.is_empty() {
            return Ok(Some(name));
        } else {
            return Ok(None);
        }
    }
    Ok(None)
}

/// A name without its sign.
fn unsigned_name(alloc: Global, text: &[u8]) -> Result<Result<ProfileName, ProfileCause>, Memory>
    ensures { IfOk result (λ name. name ≡ unsigned_name_of text.now) }
{
    match text {
        [] => Ok(Err(ProfileCause::Word)),
        [b'"', inner @ ..] => match unquoted(alloc, inner)? {
            Some(name) => Ok(Ok(ProfileName::Named(name))),
            None => Ok(Err(ProfileCause::Word)),
        },
        [first, ..] if first.is_ascii_digit() => match number(text) {
            Ok(value) => Ok(Ok(ProfileName::Numbered(value))),
            Err(cause) => Ok(Err(cause)),
        },
        _ => plain_name(alloc, text),
    }
}

/// A name of bytes that stand for themselves.
fn plain_name(alloc: Global, text: &[u8]) -> Result<Result<ProfileName, ProfileCause>, Memory>
    ensures { IfOk result (λ name. name ≡ plain_name_of text.now) }
{
    if !is_plain(text) {
        return Ok(Err(ProfileCause::Word));
    }
    let name = Bytes::from_slice(alloc, text)?;
    Ok(Ok(ProfileName::Named(name)))
}

/// A name after this sign.
fn name(alloc: Global, sign: u8, text: &[u8]) -> Result<Result<ProfileName, ProfileCause>, Memory>
    ensures { IfOk result (λ name. name ≡ name_of sign text.now) }
{
    match text {
        [first, rest @ ..] if *first == sign => unsigned_name(alloc, rest),
        _ => Ok(Err(ProfileCause::Word)),
    }
}

/// `@f`.
pub fn global_name(alloc: Global, text: &[u8]) -> Result<Result<ProfileName, ProfileCause>, Memory>
    ensures { IfOk result (λ name. name ≡ global_name_of text.now) }
{
    name(alloc, b'@', text)
}

/// `%r`.
pub fn local_name(alloc: Global, text: &[u8]) -> Result<Result<ProfileName, ProfileCause>, Memory>
    ensures { IfOk result (λ name. name ≡ local_name_of text.now) }
{
    name(alloc, b'%', text)
}
