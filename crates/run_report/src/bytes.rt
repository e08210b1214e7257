//! The bytes of a global in a report.
ghost use Rattle.std.specs.Prelude.{◌≡◌, ◌<◌, ◌++◌, [], length, drop, OnOk, IfOk};
ghost use Rattle.run_report.specs.Bytes.{lower_hex, pointer_text, whole_text, byte_text, pointer_at, bytes_after, bytes_text};

use crate::put::{put_number, put_signed};
use mem_image::object::{Byte, Pointer};
use pv_base::bytes::Bytes;
use pv_base::want::Memory;
use seq_effects::words::are_parts;

fn lower_hex(n: u8) -> u8
    requires { n < 16 }
    ensures { result ≡ lower_hex n }
{
    if n < 10 { b'0' + n } else { b'a' + (n - 10) }
}

fn put_pointer(to: &mut Bytes, pointer: Pointer) -> Result<(), Memory>
    ensures { OnOk result (to.new ≡ to.old ++ pointer_text pointer) }
{
    match pointer {
        Pointer::Null => to.append(b"null"),
        Pointer::Obj { name, offset } => {
            put_number(to, u64::from(name))?;
            to.append(b"+")?;
            put_signed(to, offset)
        }
        Pointer::Fun { index } => {
            to.append(b"f")?;
            put_number(to, u64::from(index))
        }
    }
}

/// The eight bytes of a pointer.
fn put_whole(to: &mut Bytes, pointer: Pointer) -> Result<(), Memory>
    ensures { OnOk result (to.new ≡ to.old ++ whole_text pointer) }
{
    to.append(b"<")?;
    put_pointer(to, pointer)?;
    to.append(b">")
}

fn put_part(to: &mut Bytes, part: u8, pointer: Pointer) -> Result<(), Memory>
    ensures { OnOk result (to.new ≡ to.old ++ byte_text (Byte.Ptr part pointer)) }
{
    to.append(b"<")?;
    put_pointer(to, pointer)?;
    to.append(b".")?;
    put_number(to, u64::from(part))?;
    to.append(b">")
}

/// A byte alone.
fn put_byte(to: &mut Bytes, byte: Byte) -> Result<(), Memory>
    ensures { OnOk result (to.new ≡ to.old ++ byte_text byte) }
{
    match byte {
        Byte::Unset => to.append(b"--"),
        Byte::Num(n) => to.append(&[lower_hex(n / 16), lower_hex(n % 16)]),
        Byte::Ptr { part, pointer } => put_part(to, part, pointer),
    }
}

/// The pointer whose eight bytes stand at the front.
fn pointer_at(bytes: &[Byte]) -> Option<Pointer>
    ensures { result ≡ pointer_at bytes.now }
{
    match bytes {
        [Byte::Ptr { part: _, pointer }, ..] => {
            let front = if bytes.len() < 8 { bytes } else { &bytes[..8] };
            if are_parts(*pointer, front) {
                Some(*pointer)
            } else {
                None
            }
        }
        _ => None,
    }
}

/// Spells the byte at the front, unless it is one of so many that are spelled already; gives how many behind it are.
fn put_front(to: &mut Bytes, bytes: &[Byte], passed: usize) -> Result<usize, Memory>
    requires { 0 < length bytes.now }
    ensures { IfOk result (λ more. to.new ++ bytes_after (drop 1 bytes.now) more ≡ to.old ++ bytes_after bytes.now passed) }
{
    if passed > 0 {
        return Ok(passed - 1);
    }
    match pointer_at(bytes) {
        Some(pointer) => {
            put_whole(to, pointer)?;
            Ok(7)
        }
        None => {
            put_byte(to, bytes[0])?;
            Ok(0)
        }
    }
}

/// The bytes, one after another.
pub(crate) fn put_bytes(to: &mut Bytes, bytes: &[Byte]) -> Result<(), Memory>
    ensures { OnOk result (to.new ≡ to.old ++ bytes_text bytes.now) }
{
    let mut passed = 0usize;
    for i in 0..bytes.len() {
        passed = put_front(to, &bytes[i..], passed)?;
    }
    Ok(())
}
