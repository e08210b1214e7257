//! Texts, which are read byte by byte, and the functions that print them.
ghost use Rattle.std.specs.Prelude.{◌≡◌, ◌+◌, ◌++◌, ◌∷◌, [], ◌<◌, All, map, length, slice_get, slice_set, IfOk, OnOk, OnErr};
ghost use Rattle.mem_image.specs.declared.fault.Fault.TheVariants.{Memory as NoMemory};
ghost use Rattle.seq_calls.specs.Format.{formatted, text_args, IsPointer};
ghost use Rattle.seq_effects.specs.Script.{Follows, Answers, Tells, ends};
ghost use Rattle.seq_effects.specs.Values.{Sets};
ghost use Rattle.seq_externals.specs.Externals.{printing, after, byte_number, read_byte, text, text_limit, text_at, puts, arg_of, args_of, text_of_value, texts, printed, formatting, printf};

use crate::externals::printing;
use ir_code::op::{Operand, Scalar};
use mem_image::fault::{Fault, Trap};
use mem_image::memory::Mem;
use mem_image::object::{Byte, Pointer};
use mem_image::word::Word;
use pv_base::bytes::Bytes;
use pv_base::list::List;
use pv_base::place::Site;
use pv_base::want::Memory;
use seq_calls::printing::{format_text, text_args};
use seq_calls::show::{Arg, FormatEnd};
use seq_effects::state::{Effect, Frame, Value};
use std::alloc::Global;

/// The pointer to the next byte.
fn after(pointer: Pointer) -> Pointer
    ensures { result ≡ after pointer }
{
    match pointer {
        Pointer::Obj { name, offset } => Pointer::Obj {
            name,
            offset: offset.wrapping_add(1),
        },
        _ => pointer,
    }
}

/// The number of one byte.
fn byte_number(word: &Word) -> Result<u8, Trap>
    ensures { result ≡ byte_number word.now }
{
    match word.as_slice() {
        [Byte::Num(number)] => Ok(*number),
        [Byte::Unset] => Err(Trap::UnsetByte),
        _ => Err(Trap::ByteKind),
    }
}

/// Reads the byte at a pointer.
fn read_byte<M: Mem>(memory: &mut M, at: Site, slot: u32, from: Pointer) -> Result<u8, Fault>
    requires ready { M.ready memory.old }
    ensures ready { M.ready memory.new }
    ensures follows { Follows M.image M.relation (read_byte at slot from) memory.old result memory.new }
    ensures image { M.image memory.new ≡ M.image memory.old }
{
    let word = memory.read_word(at, slot, from, 1)?;
    match byte_number(&word) {
        Ok(number) => Ok(number),
        Err(trap) => Err(Fault::Trap(trap)),
    }
}

/// The bytes before the first 0 from a pointer on, which stands among the first `limit`.
fn text<M: Mem>(
    alloc: Global,
    memory: &mut M,
    at: Site,
    slot: u32,
    from: Pointer,
    limit: u64,
) -> Result<Bytes, Fault>
    requires ready { M.ready memory.old }
    ensures ready { M.ready memory.new }
    ensures follows { Follows M.image M.relation (text limit at slot from []) memory.old result memory.new }
    ensures image { M.image memory.new ≡ M.image memory.old }
{
    let mut bytes = Bytes::new(alloc);
    let mut pointer = from;
    for _ in 0..limit {
        let number = match read_byte(memory, at, slot, pointer) {
            Ok(number) => number,
            Err(fault) => return Err(fault),
        };
        if number == 0 {
            return Ok(bytes);
        }
        match bytes.push(number) {
            Ok(()) => {}
            Err(_) => return Err(Fault::Memory),
        }
        pointer = after(pointer);
    }
    Err(Fault::Trap(Trap::Range))
}

/// No object is longer.
#[tactic(auto, unfolding(crate::specs::Externals::text_limit))]
fn text_limit() -> u64
    ensures { result ≡ text_limit }
{
    4_294_967_296
}

/// The text at a pointer.
fn text_at<M: Mem>(
    alloc: Global,
    memory: &mut M,
    at: Site,
    slot: u32,
    from: Pointer,
) -> Result<Bytes, Fault>
    requires ready { M.ready memory.old }
    ensures ready { M.ready memory.new }
    ensures follows { Follows M.image M.relation (text_at at slot from) memory.old result memory.new }
    ensures image { M.image memory.new ≡ M.image memory.old }
{
    text(alloc, memory, at, slot, from, text_limit())
}

/// Prints a text and the end of a line.
fn print_line(types: &List<Scalar>, to: Option<u32>, text: Bytes) -> Result<Effect, Fault>
    ensures effect { Tells (printing types.now to (text ++ 10 ∷ []) 0) result }
    ensures sets { IfOk result (Sets types.now) }
{
    let mut text = text;
    match text.push(10) {
        Ok(()) => {}
        Err(_) => return Err(Fault::Memory),
    }
    match printing(types, to, text, 0) {
        Ok(effect) => Ok(effect),
        Err(trap) => Err(Fault::Trap(trap)),
    }
}

/// Prints the text at an operand, and the end of a line.
fn put_text<M: Mem>(
    types: &List<Scalar>,
    frame: &Frame,
    memory: &mut M,
    at: Site,
    to: Option<u32>,
    from: Operand,
) -> Result<Effect, Fault>
    requires ready { M.ready memory.old }
    ensures ready { M.ready memory.new }
    ensures follows { Follows M.image M.relation (puts types.now frame.now at to (from ∷ [])) memory.old result memory.new }
    ensures image { M.image memory.new ≡ M.image memory.old }
    ensures sets { IfOk result (Sets types.now) }
{
    let pointer = frame.pointer(from)?;
    let text = match text_at(types.alloc(), memory, at, 0, pointer) {
        Ok(text) => text,
        Err(fault) => return Err(fault),
    };
    print_line(types, to, text)
}

/// Prints the text at a pointer, and the end of a line.
pub fn puts<M: Mem>(
    types: &List<Scalar>,
    frame: &Frame,
    memory: &mut M,
    at: Site,
    to: Option<u32>,
    arguments: &List<Operand>,
) -> Result<Effect, Fault>
    requires ready { M.ready memory.old }
    ensures ready { M.ready memory.new }
    ensures follows { Follows M.image M.relation (puts types.now frame.now at to arguments.now) memory.old result memory.new }
    ensures image { M.image memory.new ≡ M.image memory.old }
    ensures sets { IfOk result (Sets types.now) }
{
    match arguments.as_slice() {
        [from] => put_text(types, frame, memory, at, to, *from),
        _ => Err(Fault::Trap(Trap::Unreachable)),
    }
}

/// A value as `printf` takes it; texts are read later.
fn arg_of(value: Value) -> Arg
    ensures { result ≡ arg_of value }
{
    match value {
        Value::Int(n) => Arg::Int(n),
        Value::Pointer(_) => Arg::Other,
    }
}

/// The values as `printf` takes them.
fn args_of(alloc: Global, values: &[Value]) -> Result<List<Arg>, Memory>
    ensures { IfOk result (λ args. args ≡ args_of values.now) }
{
    let mut args = List::new(alloc);
    for value in values {
        args.push(arg_of(*value))?;
    }
    Ok(args)
}

/// The value of this number.
fn value_at(values: &[Value], number: u32) -> Option<Value>
    ensures { result ≡ slice_get values.now number }
{
    match values.get(number as usize) {
        Some(value) => Some(*value),
        None => None,
    }
}

/// The text that a value points to.
fn text_of_value<M: Mem>(
    alloc: Global,
    memory: &mut M,
    at: Site,
    slot: u32,
    value: Option<Value>,
) -> Result<Bytes, Fault>
    requires ready { M.ready memory.old }
    ensures ready { M.ready memory.new }
    ensures follows { Follows M.image M.relation (text_of_value at slot value) memory.old result memory.new }
    ensures image { M.image memory.new ≡ M.image memory.old }
{
    match value {
        Some(Value::Pointer(pointer)) => text_at(alloc, memory, at, slot, pointer),
        _ => Err(Fault::Trap(Trap::Format)),
    }
}

/// The text that the argument of this number points to, which is read in the slot behind it.
fn argument_text<M: Mem>(
    alloc: Global,
    memory: &mut M,
    at: Site,
    values: &[Value],
    number: u32,
) -> Result<Bytes, Fault>
    requires ready { M.ready memory.old }
    ensures ready { M.ready memory.new }
    ensures follows { Follows M.image M.relation (text_of_value at (number + 1) (slice_get values.now number)) memory.old result memory.new }
    ensures image { M.image memory.new ≡ M.image memory.old }
{
    if number == u32::MAX {
        return Err(Fault::Memory);
    }
    text_of_value(alloc, memory, at, number + 1, value_at(values, number))
}

/// Reads the texts that the arguments of these numbers point to.
fn read_texts<M: Mem>(
    memory: &mut M,
    at: Site,
    values: &[Value],
    from: &List<u32>,
    args: &mut List<Arg>,
) -> Result<(), Fault>
    requires ready { M.ready memory.old }
    requires pointers { All (λ k. IsPointer (slice_get args.old k)) from.now }
    ensures ready { M.ready memory.new }
    ensures follows { Follows M.image M.relation (texts at values.now from.now args.old) memory.old (ends args.new result) memory.new }
    ensures image { M.image memory.new ≡ M.image memory.old }
{
    for number in from.as_slice() {
        let text = match argument_text(args.alloc(), memory, at, values, *number) {
            Ok(text) => text,
            Err(fault) => return Err(fault),
        };
        args.set(*number as usize, Arg::Text(text));
    }
    Ok(())
}

/// Prints what a format says of its arguments.
fn print_formatted(
    types: &List<Scalar>,
    to: Option<u32>,
    format: &[u8],
    args: &List<Arg>,
) -> Result<Effect, Fault>
    ensures effect { Tells (printed types.now to (formatted format.now args.now)) result }
    ensures sets { IfOk result (Sets types.now) }
{
    let text = match format_text(types.alloc(), format, args) {
        Ok(text) => text,
        Err(FormatEnd::Bad) => return Err(Fault::Trap(Trap::Format)),
        Err(FormatEnd::Memory) => return Err(Fault::Memory),
    };
    let count = (text.len() % (1 << 32)) as u32;
    match printing(types, to, text, count) {
        Ok(effect) => Ok(effect),
        Err(trap) => Err(Fault::Trap(trap)),
    }
}

/// Reads the texts that a format wants, and prints it.
fn print_values<M: Mem>(
    types: &List<Scalar>,
    memory: &mut M,
    at: Site,
    to: Option<u32>,
    values: &[Value],
    format: &[u8],
) -> Result<Effect, Fault>
    requires ready { M.ready memory.old }
    ensures ready { M.ready memory.new }
    ensures follows { Follows M.image M.relation (formatting types.now at to values.now format.now) memory.old result memory.new }
    ensures image { M.image memory.new ≡ M.image memory.old }
    ensures sets { IfOk result (Sets types.now) }
{
    let mut args = match args_of(types.alloc(), values) {
        Ok(args) => args,
        Err(_) => return Err(Fault::Memory),
    };
    let found = match text_args(types.alloc(), format, &args) {
        Ok(found) => found,
        Err(_) => return Err(Fault::Memory),
    };
    match read_texts(memory, at, values, &found, &mut args) {
        Ok(()) => {}
        Err(fault) => return Err(fault),
    }
    print_formatted(types, to, format, &args)
}

/// Prints the values behind a format.
fn print_format<M: Mem>(
    types: &List<Scalar>,
    frame: &Frame,
    memory: &mut M,
    at: Site,
    to: Option<u32>,
    format: Operand,
    rest: &[Operand],
) -> Result<Effect, Fault>
    requires ready { M.ready memory.old }
    ensures ready { M.ready memory.new }
    ensures follows { Follows M.image M.relation (printf types.now frame.now at to (format ∷ rest.now)) memory.old result memory.new }
    ensures image { M.image memory.new ≡ M.image memory.old }
    ensures sets { IfOk result (Sets types.now) }
{
    let pointer = frame.pointer(format)?;
    let values = match frame.values(types.alloc(), rest) {
        Ok(values) => values,
        Err(fault) => return Err(fault),
    };
    let format = match text_at(types.alloc(), memory, at, 0, pointer) {
        Ok(format) => format,
        Err(fault) => return Err(fault),
    };
    print_values(types, memory, at, to, values.as_slice(), format.as_slice())
}

/// Prints a format, with the texts that its directives want.
pub fn printf<M: Mem>(
    types: &List<Scalar>,
    frame: &Frame,
    memory: &mut M,
    at: Site,
    to: Option<u32>,
    arguments: &List<Operand>,
) -> Result<Effect, Fault>
    requires ready { M.ready memory.old }
    ensures ready { M.ready memory.new }
    ensures follows { Follows M.image M.relation (printf types.now frame.now at to arguments.now) memory.old result memory.new }
    ensures image { M.image memory.new ≡ M.image memory.old }
    ensures sets { IfOk result (Sets types.now) }
{
    match arguments.as_slice() {
        [format, rest @ ..] => print_format(types, frame, memory, at, to, *format, rest),
        [] => Err(Fault::Trap(Trap::Unreachable)),
    }
}
