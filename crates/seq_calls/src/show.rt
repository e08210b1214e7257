//! What a directive prints of an argument.
ghost use Rattle.std.specs.Prelude.{◌≡◌, ◌++◌, false, is_some, option_map, OnOk, IfErr};
ghost use Rattle.std.specs.Fmt.{digits};
ghost use Rattle.seq_calls.specs.Format.{shown};
ghost use Rattle.seq_calls.specs.declared.show.Arg.TheVariants as arg;
ghost use Rattle.seq_calls.specs.declared.show.FormatEnd.TheVariants.{Bad, Memory};

use crate::directive::Directive;
use int_num::int::Int;
use int_num::sign::{low_byte, signed};
use itoa::Buffer;
use pv_base::bytes::Bytes;
use std::alloc::Global;

/// An argument behind the format.
#[derive(Debug, Drop)]
pub enum Arg {
    Int(Int),
    /// A pointer, and the bytes before the first 0 that it points to.
    Text(Bytes),
    /// A pointer whose text was not read.
    Other,
}

/// Why nothing was printed: a directive traps, or want of memory.
#[derive(Clone, Copy, Debug, PartialEq, Eq)]
pub enum FormatEnd {
    Bad,
    Memory,
}

/// Whether the directive may take the argument.
#[tactic(auto, unfolding(crate::specs::Format::shown))]
pub(crate) fn takes(directive: Directive, arg: &Arg) -> bool
    ensures { result ≡ is_some (shown directive arg.now) }
{
    match arg {
        Arg::Int(n) => match directive {
            Directive::Signed(width) => n.width() == width,
            Directive::Unsigned(width) => n.width() == width,
            Directive::Hexadecimal(width) => n.width() == width,
            Directive::Character => n.width() == 32,
            Directive::Text => false,
        },
        Arg::Text(_) => directive == Directive::Text,
        Arg::Other => directive == Directive::Text,
    }
}

/// Appends it, or changes nothing.
fn append(out: &mut Bytes, bytes: &[u8]) -> Result<(), FormatEnd>
    ensures ok { OnOk result (out.new ≡ out.old ++ bytes.now) }
    ensures err { IfErr result (λ end. end ≡ Memory) }
{
    match out.append(bytes) {
        Ok(()) => Ok(()),
        Err(_) => Err(FormatEnd::Memory),
    }
}

/// Appends the digits of the unsigned number.
fn append_hexadecimal(alloc: Global, n: Int, out: &mut Bytes) -> Result<(), FormatEnd>
    ensures ok { OnOk result (out.new ≡ out.old ++ digits 16 false n.bits) }
    ensures err { IfErr result (λ end. end ≡ Memory) }
{
    let bits = n.bits();
    match format!(in alloc; "{bits:x}") {
        Ok(text) => append(out, text.as_bytes()),
        Err(_) => Err(FormatEnd::Memory),
    }
}

/// Appends what the directive prints of an integer. `Bad` where it takes none of its width.
#[tactic(auto, unfolding(crate::specs::Format::shown))]
fn show_int(alloc: Global, directive: Directive, n: Int, out: &mut Bytes) -> Result<(), FormatEnd>
    ensures ok { OnOk result (option_map (λ text. out.old ++ text) (shown directive (arg.Int n)) ≡ Some out.new) }
    ensures bad { IfErr result (λ end. end ≡ Bad → shown directive (arg.Int n) ≡ None) }
{
    match directive {
        Directive::Signed(width) => {
            if n.width() != width {
                return Err(FormatEnd::Bad);
            }
            append(out, Buffer::new().format(signed(n)).as_bytes())
        }
        Directive::Unsigned(width) => {
            if n.width() != width {
                return Err(FormatEnd::Bad);
            }
            append(out, Buffer::new().format(n.bits()).as_bytes())
        }
        Directive::Hexadecimal(width) => {
            if n.width() != width {
                return Err(FormatEnd::Bad);
            }
            append_hexadecimal(alloc, n, out)
        }
        Directive::Character => {
            if n.width() != 32 {
                return Err(FormatEnd::Bad);
            }
            append(out, &[low_byte(n)])
        }
        Directive::Text => Err(FormatEnd::Bad),
    }
}

/// Appends what the directive prints of an argument. `Bad` where it takes none of its type.
#[tactic(auto, unfolding(crate::specs::Format::shown))]
pub(crate) fn show(
    alloc: Global,
    directive: Directive,
    arg: &Arg,
    out: &mut Bytes,
) -> Result<(), FormatEnd>
    ensures ok { OnOk result (option_map (λ text. out.old ++ text) (shown directive arg.now) ≡ Some out.new) }
    ensures bad { IfErr result (λ end. end ≡ Bad → shown directive arg.now ≡ None) }
{
    match arg {
        Arg::Int(n) => show_int(alloc, directive, *n, out),
        Arg::Text(text) => match directive {
            Directive::Text => append(out, text.as_slice()),
            _ => Err(FormatEnd::Bad),
        },
        Arg::Other => match directive {
            Directive::Text => Ok(()),
            _ => Err(FormatEnd::Bad),
        },
    }
}
