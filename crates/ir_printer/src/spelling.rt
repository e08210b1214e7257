//! Names, numbers and strings as the canonical text spells them.
ghost use Rattle.std.specs.Prelude.{◌≡◌, ◌<◌, ◌++◌, ◌∷◌, [], pos, OnOk, decimal};
ghost use Rattle.std.specs.Fmt.{signed_decimal};
ghost use Rattle.std.specs.List.{list_all};
ghost use Rattle.ir_lex.specs.Classes.{is_name_byte};
ghost use Rattle.int_num.specs.Integer.{signed};
ghost use Rattle.ir_tree.specs.Naming.{name_at};
ghost use Rattle.ir_printer.specs.Pieces.{Global, Label, Local, upper_hex, escaped_byte, escaped, quoted, is_plain, name_text, bytes_of};
ghost use Rattle.ir_printer.specs.Operands.{integer_piece};

use int_num::int::Int;
use int_num::sign::signed;
use ir_lex::class::{name_byte, name_start};
use ir_tree::nodes::NameId;
use ir_tree::table::Names;
use itoa::Buffer;
use pv_base::bytes::Bytes;
use pv_base::name::Name;
use pv_base::want::Memory;

pub(crate) fn put_decimal(to: &mut Bytes, n: u64) -> Result<(), Memory>
    ensures { OnOk result (to.new ≡ to.old ++ decimal n) }
{
    let mut buffer = Buffer::new();
    to.append(buffer.format(n).as_bytes())
}

/// The count of an array.
pub(crate) fn put_count(to: &mut Bytes, n: u128) -> Result<(), Memory>
    ensures { OnOk result (to.new ≡ to.old ++ decimal n) }
{
    let mut buffer = Buffer::new();
    to.append(buffer.format(n).as_bytes())
}

fn put_signed(to: &mut Bytes, n: i64) -> Result<(), Memory>
    ensures { OnOk result (to.new ≡ to.old ++ signed_decimal n) }
{
    let mut buffer = Buffer::new();
    to.append(buffer.format(n).as_bytes())
}

/// An integer in signed decimal, and of one bit as `true` or `false`.
#[tactic(auto, unfolding(crate::specs::Operands::integer_piece))]
pub(crate) fn put_integer(to: &mut Bytes, n: Int) -> Result<(), Memory>
    ensures { OnOk result (to.new ≡ to.old ++ bytes_of (integer_piece n ∷ [])) }
{
    if n.width() != 1 {
        put_signed(to, signed(n))
    } else if n.bits() == 0 {
        to.append(b"false")
    } else {
        to.append(b"true")
    }
}

#[tactic(auto, unfolding(crate::specs::Pieces::upper_hex))]
fn upper_hex(n: u8) -> u8
    requires { n < 16 }
    ensures { result ≡ upper_hex n }
{
    if n < 10 { b'0' + n } else { b'A' + (n - 10) }
}

#[tactic(auto, unfolding(crate::specs::Pieces::escaped_byte))]
fn put_escaped_byte(to: &mut Bytes, b: u8) -> Result<(), Memory>
    ensures { OnOk result (to.new ≡ to.old ++ escaped_byte b) }
{
    if name_byte(b) {
        to.push(b)
    } else {
        to.append(&[b'\\', upper_hex(b / 16), upper_hex(b % 16)])
    }
}

fn put_escaped(to: &mut Bytes, bytes: &[u8]) -> Result<(), Memory>
    ensures { OnOk result (to.new ≡ to.old ++ escaped bytes.now) }
{
    for b in bytes {
        put_escaped_byte(to, *b)?;
    }
    Ok(())
}

/// Bytes in quotes.
pub(crate) fn put_quoted(to: &mut Bytes, bytes: &[u8]) -> Result<(), Memory>
    ensures { OnOk result (to.new ≡ to.old ++ quoted bytes.now) }
{
    to.push(b'"')?;
    put_escaped(to, bytes)?;
    to.push(b'"')
}

fn are_name_bytes(bytes: &[u8]) -> bool
    ensures { result ≡ list_all is_name_byte bytes.now }
{
    bytes.iter().all(|b| name_byte(*b))
}

/// Whether a name needs no quotes.
fn is_plain(bytes: &[u8]) -> bool
    ensures { result ≡ is_plain bytes.now }
{
    match bytes {
        [] => false,
        [first, rest @ ..] => name_start(*first) && are_name_bytes(rest),
    }
}

/// A name without sign or colon.
#[tactic(auto, unfolding(crate::specs::Pieces::name_text))]
fn put_name(to: &mut Bytes, name: &Name) -> Result<(), Memory>
    ensures { OnOk result (to.new ≡ to.old ++ name_text name.now) }
{
    match name {
        Name::Named(bytes) => {
            if is_plain(bytes.as_slice()) {
                to.append(bytes.as_slice())
            } else {
                put_quoted(to, bytes.as_slice())
            }
        }
        Name::Numbered(number) => put_decimal(to, *number),
    }
}

/// The name of a number; a number without a name is written as 0.
#[tactic(auto, unfolding(crate::specs::Pieces::name_text))]
fn put_numbered(to: &mut Bytes, names: &Names, name: NameId) -> Result<(), Memory>
    ensures { OnOk result (to.new ≡ to.old ++ name_text (name_at names.now name)) }
{
    match names.name(name) {
        Some(name) => put_name(to, name),
        None => put_decimal(to, 0),
    }
}

/// `@name`
pub(crate) fn put_global(to: &mut Bytes, names: &Names, name: NameId) -> Result<(), Memory>
    ensures { OnOk result (to.new ≡ to.old ++ bytes_of (Global (name_at names.now name) ∷ [])) }
{
    to.push(b'@')?;
    put_numbered(to, names, name)
}

/// `%name`
pub(crate) fn put_local(to: &mut Bytes, names: &Names, name: NameId) -> Result<(), Memory>
    ensures { OnOk result (to.new ≡ to.old ++ bytes_of (Local (name_at names.now name) ∷ [])) }
{
    to.push(b'%')?;
    put_numbered(to, names, name)
}

/// `name:`
pub(crate) fn put_label(to: &mut Bytes, names: &Names, name: NameId) -> Result<(), Memory>
    ensures { OnOk result (to.new ≡ to.old ++ bytes_of (Label (name_at names.now name) ∷ [])) }
{
    put_numbered(to, names, name)?;
    to.push(b':')
}
