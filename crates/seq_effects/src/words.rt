//! Values as bytes of memory, and back.
ghost use Rattle.std.specs.Prelude.{◌≡◌, ◌≤◌, ◌<◌, ◌^◌, nat_lt, length, IfOk, IfSome, IsSome};
ghost use Rattle.int_num.specs.Integer.{IsWidth};
ghost use Rattle.mem_image.specs.Picture.{IsWord};
ghost use Rattle.seq_effects.specs.Values.{IsOf};
ghost use Rattle.seq_effects.specs.Words.{word_length, number_bytes, pointer_bytes, address_bytes, stored, number_of, has_unset, misread, is_part, are_parts, is_zero, are_zeros, pointer_of, number_in, pointer_in, loaded, value_bytes, stored_in};

use crate::numbers::same_pointer;
use crate::state::Value;
use crate::values::is_of;
use int_num::bytes::{low_bytes, with_low_byte};
use int_num::int::Int;
use ir_code::op::Scalar;
use mem_image::fault::Trap;
use mem_image::object::{Byte, Pointer};
use mem_image::word::Word;

/// How many bytes a value of the type takes in memory.
pub fn word_length(of: Scalar) -> Option<u32>
    ensures length { result ≡ word_length of }
    ensures some { IfSome result (λ n. 1 ≤ n) }
    ensures most { IfSome result (λ n. n ≤ 8) }
{
    match of {
        Scalar::Int(1) => Some(1),
        Scalar::Int(8) => Some(1),
        Scalar::Int(16) => Some(2),
        Scalar::Int(32) => Some(4),
        Scalar::Int(64) => Some(8),
        Scalar::Int(_) => None,
        Scalar::Pointer => Some(8),
    }
}

/// The bytes of a number, the least first.
fn number_word(len: u32, number: Int) -> Word
    requires some { 1 ≤ len }
    requires most { len ≤ 8 }
    ensures { result ≡ number_bytes len number.bits }
{
    let from = low_bytes(number);
    let mut bytes = [Byte::Num(0); 8];
    for i in 0..len as usize {
        bytes[i] = Byte::Num(from[i]);
    }
    Word::of(&bytes[..len as usize])
}

/// The bytes of a pointer.
fn pointer_word(pointer: Pointer) -> Word
    ensures { result ≡ address_bytes pointer }
{
    if same_pointer(pointer, Pointer::Null) {
        return Word::of(&[Byte::Num(0); 8]);
    }
    Word::of(&[
        Byte::Ptr { part: 0, pointer },
        Byte::Ptr { part: 1, pointer },
        Byte::Ptr { part: 2, pointer },
        Byte::Ptr { part: 3, pointer },
        Byte::Ptr { part: 4, pointer },
        Byte::Ptr { part: 5, pointer },
        Byte::Ptr { part: 6, pointer },
        Byte::Ptr { part: 7, pointer },
    ])
}

/// The bytes of a value of the type.
pub fn store_word(of: Scalar, value: &Value) -> Result<Word, Trap>
    ensures { result ≡ stored of value.now }
{
    if !is_of(value, of) {
        return Err(Trap::Unreachable);
    }
    match word_length(of) {
        None => Err(Trap::Unreachable),
        Some(len) => match value {
            Value::Int(n) => Ok(number_word(len, *n)),
            Value::Pointer(p) => Ok(pointer_word(*p)),
        },
    }
}

/// The number of these bytes, where all are numbers.
fn number_of(bytes: &[Byte]) -> Option<u64>
    requires { length bytes.now ≤ 8 }
    ensures { result ≡ number_of bytes.now }
{
    let mut number = 0u64;
    let mut i = bytes.len();
    while i > 0 {
        i -= 1;
        match bytes[i] {
            Byte::Num(byte) => number = with_low_byte(number, byte),
            _ => return None,
        }
    }
    Some(number)
}

/// Whether a byte is not set.
fn has_unset(bytes: &[Byte]) -> bool
    ensures { result ≡ has_unset bytes.now }
{
    for byte in bytes {
        if let Byte::Unset = byte {
            return true;
        }
    }
    false
}

/// Why the bytes are no value.
fn misread(bytes: &[Byte]) -> Trap
    ensures { result ≡ misread bytes.now }
{
    if has_unset(bytes) {
        Trap::UnsetByte
    } else {
        Trap::ByteKind
    }
}

/// Whether the byte is that part of the pointer.
fn is_part(part: usize, pointer: Pointer, byte: Byte) -> bool
    ensures { result ≡ is_part part pointer byte }
{
    match byte {
        Byte::Ptr {
            part: this,
            pointer: other,
        } => this as usize == part && same_pointer(other, pointer),
        _ => false,
    }
}

/// Whether the bytes are the parts of the pointer, in order.
pub fn are_parts(pointer: Pointer, bytes: &[Byte]) -> bool
    ensures { result ≡ are_parts 0 pointer bytes.now }
{
    for (i, byte) in bytes.iter().enumerate() {
        if !is_part(i, pointer, *byte) {
            return false;
        }
    }
    bytes.len() == 8
}

/// Whether the byte is the number 0.
fn is_zero(byte: Byte) -> bool
    ensures { result ≡ is_zero byte }
{
    match byte {
        Byte::Num(n) => n == 0,
        _ => false,
    }
}

/// Whether the bytes are the zeros of null.
fn are_zeros(bytes: &[Byte]) -> bool
    ensures { result ≡ are_zeros 0 bytes.now }
{
    for byte in bytes {
        if !is_zero(*byte) {
            return false;
        }
    }
    bytes.len() == 8
}

/// The pointer of these bytes.
fn pointer_of(bytes: &[Byte]) -> Option<Pointer>
    ensures { result ≡ pointer_of bytes.now }
{
    match bytes {
        [Byte::Num(_), ..] => {
            if are_zeros(bytes) {
                Some(Pointer::Null)
            } else {
                None
            }
        }
        [Byte::Ptr { part: _, pointer }, ..] => {
            if are_parts(*pointer, bytes) {
                Some(*pointer)
            } else {
                None
            }
        }
        _ => None,
    }
}

/// The integer of these bytes.
fn load_number(width: u32, bytes: &[Byte]) -> Result<Value, Trap>
    requires width { IsWidth width }
    requires most { length bytes.now ≤ 8 }
    ensures value { result ≡ number_in width bytes.now (number_of bytes.now) }
{
    match number_of(bytes) {
        Some(n) => {
            if u128::from(n) < 1u128 << width {
                Ok(Value::Int(Int::new(width, n)))
            } else {
                Err(Trap::ByteKind)
            }
        }
        None => Err(misread(bytes)),
    }
}

/// The value of the type that these bytes are.
pub fn load_value(of: Scalar, bytes: &[Byte]) -> Result<Value, Trap>
    requires most { length bytes.now ≤ 8 }
    requires width { IsSome (word_length of) }
    ensures value { result ≡ loaded of bytes.now }
{
    match of {
        Scalar::Int(width) => load_number(width, bytes),
        Scalar::Pointer => match pointer_of(bytes) {
            Some(pointer) => Ok(Value::Pointer(pointer)),
            None => Err(misread(bytes)),
        },
    }
}
