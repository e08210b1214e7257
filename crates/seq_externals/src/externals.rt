//! What the functions outside a module do.
ghost use Rattle.std.specs.Prelude.{◌≡◌, true, IfOk, OnErr};
ghost use Rattle.int_num.specs.declared.ops.Pred.{Pred as APred};
ghost use Rattle.seq_effects.specs.Effects.{MayStop};
ghost use Rattle.seq_effects.specs.Script.{Follows, Tells};
ghost use Rattle.seq_effects.specs.Values.{Sets, HoldsIf, IsOf, accepts, giving};
ghost use Rattle.seq_externals.specs.Externals.{giving_to, request, malloc, calloc, freed, free, printing, putchar, getchar, exit, transfer, filled, memset, chosen, extreme};

use int_num::compare::compare;
use int_num::int::Int;
use int_num::ops::Pred;
use int_num::sign::low_byte;
use ir_code::op::{Operand, Scalar};
use mem_image::fault::{Fault, Trap};
use mem_image::memory::Mem;
use mem_image::object::{Kind, Pointer};
use pv_base::bytes::Bytes;
use pv_base::list::List;
use pv_base::place::Site;
use seq_effects::state::{Effect, Frame, Value};
use seq_effects::values::{give, is_type};

/// Whether the register, where one is named, has this type.
fn accepts(types: &List<Scalar>, to: Option<u32>, of: Scalar) -> bool
    ensures same { result ≡ accepts types.now to of }
    ensures holds { result ≡ true → ((v : _) → IsOf of v → HoldsIf types.now to v) }
{
    match to {
        None => true,
        Some(to) => match types.get(to as usize) {
            Some(held) => is_type(*held, of),
            None => false,
        },
    }
}

/// Gives the register, where one is named, this value.
fn giving(to: Option<u32>, value: Value) -> Effect
    ensures { result ≡ giving to value }
{
    match to {
        Some(to) => Effect::Give { to, value },
        None => Effect::Next,
    }
}

/// Makes an object of so many bytes.
fn request<M: Mem>(
    types: &List<Scalar>,
    memory: &mut M,
    at: Site,
    to: Option<u32>,
    size: u64,
    zeroed: bool,
) -> Result<Effect, Fault>
    requires ready { M.ready memory.old }
    ensures ready { M.ready memory.new }
    ensures follows { Follows M.image M.relation (request types.now at to size zeroed) memory.old result memory.new }
    ensures image { OnErr result (M.image memory.new ≡ M.image memory.old) }
    ensures plain { IfOk result (λ e. MayStop e → ⊥) }
    ensures sets { IfOk result (Sets types.now) }
{
    if !accepts(types, to, Scalar::Pointer) {
        return Err(Fault::Trap(Trap::Unreachable));
    }
    let pointer = memory.make(at, Kind::Heap, size, zeroed)?;
    Ok(giving(to, Value::Pointer(pointer)))
}

pub fn malloc<M: Mem>(
    types: &List<Scalar>,
    frame: &Frame,
    memory: &mut M,
    at: Site,
    to: Option<u32>,
    arguments: &List<Operand>,
) -> Result<Effect, Fault>
    requires ready { M.ready memory.old }
    ensures ready { M.ready memory.new }
    ensures follows { Follows M.image M.relation (malloc types.now frame.now at to arguments.now) memory.old result memory.new }
    ensures image { OnErr result (M.image memory.new ≡ M.image memory.old) }
    ensures plain { IfOk result (λ e. MayStop e → ⊥) }
    ensures sets { IfOk result (Sets types.now) }
{
    match arguments.as_slice() {
        [size] => {
            let size = frame.number(*size)?;
            request(types, memory, at, to, size.bits(), false)
        }
        _ => Err(Fault::Trap(Trap::Unreachable)),
    }
}

pub fn calloc<M: Mem>(
    types: &List<Scalar>,
    frame: &Frame,
    memory: &mut M,
    at: Site,
    to: Option<u32>,
    arguments: &List<Operand>,
) -> Result<Effect, Fault>
    requires ready { M.ready memory.old }
    ensures ready { M.ready memory.new }
    ensures follows { Follows M.image M.relation (calloc types.now frame.now at to arguments.now) memory.old result memory.new }
    ensures image { OnErr result (M.image memory.new ≡ M.image memory.old) }
    ensures plain { IfOk result (λ e. MayStop e → ⊥) }
    ensures sets { IfOk result (Sets types.now) }
{
    match arguments.as_slice() {
        [count, size] => {
            let count = frame.number(*count)?;
            let size = frame.number(*size)?;
            let size = count.bits().saturating_mul(size.bits());
            request(types, memory, at, to, size, true)
        }
        _ => Err(Fault::Trap(Trap::Unreachable)),
    }
}

/// Releases an object; null is passed over.
fn release<M: Mem>(memory: &mut M, at: Site, pointer: Pointer) -> Result<Effect, Fault>
    requires ready { M.ready memory.old }
    ensures ready { M.ready memory.new }
    ensures follows { Follows M.image M.relation (freed at pointer) memory.old result memory.new }
    ensures image { OnErr result (M.image memory.new ≡ M.image memory.old) }
    ensures next { IfOk result (λ e. e ≡ Effect.Next) }
{
    match pointer {
        Pointer::Null => Ok(Effect::Next),
        _ => {
            memory.release(at, pointer)?;
            Ok(Effect::Next)
        }
    }
}

pub fn free<M: Mem>(
    frame: &Frame,
    memory: &mut M,
    at: Site,
    arguments: &List<Operand>,
) -> Result<Effect, Fault>
    requires ready { M.ready memory.old }
    ensures ready { M.ready memory.new }
    ensures follows { Follows M.image M.relation (free frame.now at arguments.now) memory.old result memory.new }
    ensures image { OnErr result (M.image memory.new ≡ M.image memory.old) }
    ensures next { IfOk result (λ e. e ≡ Effect.Next) }
{
    match arguments.as_slice() {
        [pointer] => {
            let pointer = frame.pointer(*pointer)?;
            release(memory, at, pointer)
        }
        _ => Err(Fault::Trap(Trap::Unreachable)),
    }
}

/// Prints a text, and answers a number.
pub fn printing(
    types: &List<Scalar>,
    to: Option<u32>,
    text: Bytes,
    number: u32,
) -> Result<Effect, Trap>
    ensures effect { result ≡ printing types.now to text number }
    ensures sets { IfOk result (Sets types.now) }
{
    if !accepts(types, to, Scalar::Int(32)) {
        return Err(Trap::Unreachable);
    }
    let value = Value::Int(Int::new(32, u64::from(number)));
    Ok(Effect::Print { text, to, value })
}

/// Copies bytes.
pub fn transfer<M: Mem>(
    frame: &Frame,
    memory: &mut M,
    at: Site,
    overlap: bool,
    arguments: &List<Operand>,
) -> Result<Effect, Fault>
    requires ready { M.ready memory.old }
    ensures ready { M.ready memory.new }
    ensures follows { Follows M.image M.relation (transfer frame.now at overlap arguments.now) memory.old result memory.new }
    ensures image { OnErr result (M.image memory.new ≡ M.image memory.old) }
    ensures next { IfOk result (λ e. e ≡ Effect.Next) }
{
    match arguments.as_slice() {
        [to, from, len, volatile] => {
            let to = frame.pointer(*to)?;
            let from = frame.pointer(*from)?;
            let len = frame.number(*len)?;
            let _volatile = frame.number(*volatile)?;
            memory.copy_range(at, to, from, len.bits(), overlap)?;
            Ok(Effect::Next)
        }
        _ => Err(Fault::Trap(Trap::Unreachable)),
    }
}

/// Writes a byte into each byte of a range.
fn fill<M: Mem>(
    memory: &mut M,
    at: Site,
    to: Pointer,
    value: Int,
    len: Int,
) -> Result<Effect, Fault>
    requires ready { M.ready memory.old }
    ensures ready { M.ready memory.new }
    ensures follows { Follows M.image M.relation (filled at to value len) memory.old result memory.new }
    ensures image { OnErr result (M.image memory.new ≡ M.image memory.old) }
    ensures next { IfOk result (λ e. e ≡ Effect.Next) }
{
    if value.width() != 8 {
        return Err(Fault::Trap(Trap::Unreachable));
    }
    memory.fill(at, to, low_byte(value), len.bits())?;
    Ok(Effect::Next)
}

pub fn memset<M: Mem>(
    frame: &Frame,
    memory: &mut M,
    at: Site,
    arguments: &List<Operand>,
) -> Result<Effect, Fault>
    requires ready { M.ready memory.old }
    ensures ready { M.ready memory.new }
    ensures follows { Follows M.image M.relation (memset frame.now at arguments.now) memory.old result memory.new }
    ensures image { OnErr result (M.image memory.new ≡ M.image memory.old) }
    ensures next { IfOk result (λ e. e ≡ Effect.Next) }
{
    match arguments.as_slice() {
        [to, value, len, volatile] => {
            let to = frame.pointer(*to)?;
            let value = frame.number(*value)?;
            let len = frame.number(*len)?;
            let _volatile = frame.number(*volatile)?;
            fill(memory, at, to, value, len)
        }
        _ => Err(Fault::Trap(Trap::Unreachable)),
    }
}

/// Prints the low byte of a number, and answers it.
pub fn putchar(
    types: &List<Scalar>,
    frame: &Frame,
    to: Option<u32>,
    arguments: &List<Operand>,
) -> Result<Effect, Fault>
    ensures effect { Tells (putchar types.now frame.now to arguments.now) result }
    ensures sets { IfOk result (Sets types.now) }
{
    match arguments.as_slice() {
        [value] => {
            let low = match frame.number(*value) {
                Ok(value) => low_byte(value),
                Err(trap) => return Err(Fault::Trap(trap)),
            };
            let mut text = Bytes::new(types.alloc());
            match text.push(low) {
                Ok(()) => {}
                Err(_) => return Err(Fault::Memory),
            }
            match printing(types, to, text, u32::from(low)) {
                Ok(effect) => Ok(effect),
                Err(trap) => Err(Fault::Trap(trap)),
            }
        }
        _ => Err(Fault::Trap(Trap::Unreachable)),
    }
}

/// Takes the next byte of the input, or -1 at its end.
pub fn getchar(
    types: &List<Scalar>,
    to: Option<u32>,
    input: &[u8],
    place: u64,
) -> Result<Effect, Trap>
    ensures effect { result ≡ getchar types.now to input.now place }
    ensures sets { IfOk result (Sets types.now) }
{
    if !accepts(types, to, Scalar::Int(32)) {
        return Err(Trap::Unreachable);
    }
    if place < input.len() as u64 {
        let value = Value::Int(Int::new(32, u64::from(input[place as usize])));
        let place = place + 1;
        return Ok(Effect::Take { place, to, value });
    }
    let value = Value::Int(Int::new(32, 4_294_967_295));
    Ok(Effect::Take { place, to, value })
}

/// Ends the run with a number.
pub fn exit(frame: &Frame, arguments: &List<Operand>) -> Result<Effect, Trap>
    ensures effect { result ≡ exit frame.now arguments.now }
    ensures sets { (types : _) → IfOk result (Sets types) }
{
    match arguments.as_slice() {
        [value] => {
            let code = frame.number(*value)?;
            if code.width() == 32 {
                Ok(Effect::Exit { code })
            } else {
                Err(Trap::Unreachable)
            }
        }
        _ => Err(Trap::Unreachable),
    }
}

/// The integer for which the predicate holds.
fn chosen(pred: Pred, a: Int, b: Int) -> Result<Int, Trap>
    ensures { result ≡ chosen pred a b }
{
    if a.width() != b.width() {
        return Err(Trap::Unreachable);
    }
    if compare(pred, a, b) { Ok(a) } else { Ok(b) }
}

/// Gives the register, where one is named, a value of its type.
fn giving_to(types: &List<Scalar>, to: Option<u32>, value: Value) -> Result<Effect, Trap>
    ensures effect { result ≡ giving_to types.now to value }
    ensures sets { IfOk result (Sets types.now) }
{
    match to {
        Some(to) => give(types, to, value),
        None => Ok(Effect::Next),
    }
}

/// The one of two operands for which the predicate holds.
pub fn extreme(
    types: &List<Scalar>,
    frame: &Frame,
    pred: Pred,
    to: Option<u32>,
    arguments: &List<Operand>,
) -> Result<Effect, Trap>
    ensures effect { result ≡ extreme types.now frame.now pred to arguments.now }
    ensures sets { IfOk result (Sets types.now) }
{
    match arguments.as_slice() {
        [left, right] => {
            let a = frame.number(*left)?;
            let b = frame.number(*right)?;
            giving_to(types, to, Value::Int(chosen(pred, a, b)?))
        }
        _ => Err(Trap::Unreachable),
    }
}
