//! The instructions on memory.
ghost use Rattle.std.specs.Prelude.{◌≡◌, ◌≤◌, IfOk, IsSome, OnErr, slice_get, true};
ghost use Rattle.ir_code.specs.declared.op.Scalar.TheVariants as scalar;
ghost use Rattle.mem_image.specs.Calls.{Bytes};
ghost use Rattle.seq_effects.specs.Words.{word_length};
ghost use Rattle.seq_effects.specs.Effects.{MayStop};
ghost use Rattle.seq_effects.specs.Script.{Follows};
ghost use Rattle.seq_effects.specs.Values.{Sets, SetsOwn, Holds, is_some_type};
ghost use Rattle.seq_effects.specs.Accesses.{loaded_reply, load, store, alloca};
ghost use Rattle.seq_effects.specs.declared.state.Value.TheVariants as held;

use crate::state::{Effect, Frame, Value};
use crate::values::{give, is_type};
use crate::words::{load_value, store_word, word_length};
use ir_code::op::{Operand, Scalar};
use mem_image::fault::{Fault, Trap};
use mem_image::memory::Mem;
use mem_image::object::{Kind, Pointer};
use mem_image::word::Word;
use pv_base::list::List;
use pv_base::place::Site;

/// Gives the register the value that was read.
fn give_loaded(types: &List<Scalar>, to: u32, of: Scalar, word: &Word) -> Result<Effect, Trap>
    requires { IsSome (word_length of) }
    ensures effect { result ≡ loaded_reply types.now to of (Bytes word.now) }
    ensures sets { IfOk result (Sets types.now) }
{
    give(types, to, load_value(of, word.as_slice())?)
}

/// Reads a value.
pub fn load<M: Mem>(
    types: &List<Scalar>,
    frame: &Frame,
    memory: &mut M,
    at: Site,
    to: u32,
    of: Scalar,
    from: Operand,
) -> Result<Effect, Fault>
    requires ready { M.ready memory.old }
    ensures ready { M.ready memory.new }
    ensures follows { Follows M.image M.relation (load types.now frame.now at to of from) memory.old result memory.new }
    ensures image { M.image memory.new ≡ M.image memory.old }
    ensures sets { IfOk result (Sets types.now) }
{
    let pointer = frame.pointer(from)?;
    let len = match word_length(of) {
        Some(len) => len,
        None => return Err(Fault::Trap(Trap::Unreachable)),
    };
    let word = memory.read_word(at, 0, pointer, len)?;
    match give_loaded(types, to, of, &word) {
        Ok(effect) => Ok(effect),
        Err(trap) => Err(Fault::Trap(trap)),
    }
}

/// Writes a value.
pub fn store<M: Mem>(
    frame: &Frame,
    memory: &mut M,
    at: Site,
    of: Scalar,
    value: Operand,
    to: Operand,
) -> Result<Effect, Fault>
    requires ready { M.ready memory.old }
    ensures ready { M.ready memory.new }
    ensures follows { Follows M.image M.relation (store frame.now at of value to) memory.old result memory.new }
    ensures image { OnErr result (M.image memory.new ≡ M.image memory.old) }
    ensures next { IfOk result (λ e. e ≡ Effect.Next) }
{
    let value = frame.operand(value)?;
    let pointer = frame.pointer(to)?;
    let word = store_word(of, &value)?;
    memory.write_word(at, 0, pointer, &word)?;
    Ok(Effect::Next)
}

/// Whether the register is one that holds pointers.
fn holds_pointer(types: &List<Scalar>, to: u32) -> bool
    ensures same { result ≡ is_some_type (slice_get types.now to) scalar.Pointer }
    ensures holds { result ≡ true → ((p : _) → Holds types.now to (held.Pointer p)) }
{
    match types.get(to as usize) {
        Some(of) => is_type(*of, Scalar::Pointer),
        None => false,
    }
}

/// A new stack object, which is the frame's own.
pub fn alloca<M: Mem>(
    types: &List<Scalar>,
    memory: &mut M,
    at: Site,
    to: u32,
    size: u64,
) -> Result<Effect, Fault>
    requires ready { M.ready memory.old }
    ensures ready { M.ready memory.new }
    ensures follows { Follows M.image M.relation (alloca types.now at to size) memory.old result memory.new }
    ensures image { OnErr result (M.image memory.new ≡ M.image memory.old) }
    ensures plain { IfOk result (λ e. MayStop e → ⊥) }
    ensures sets { IfOk result (SetsOwn types.now) }
{
    if !holds_pointer(types, to) {
        return Err(Fault::Trap(Trap::Unreachable));
    }
    match memory.make(at, Kind::Stack, size, false)? {
        Pointer::Obj { name, offset: _ } => Ok(Effect::Keep { to, name }),
        pointer => Ok(Effect::Give {
            to,
            value: Value::Pointer(pointer),
        }),
    }
}
