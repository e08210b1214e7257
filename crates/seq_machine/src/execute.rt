//! One instruction, over any memory.
ghost use Rattle.std.specs.Prelude.{◌≡◌, ◌+◌, ◌<◌, IfOk, OnErr};
ghost use Rattle.seq_effects.specs.Script.{Follows};
ghost use Rattle.seq_effects.specs.Values.{Sets};
ghost use Rattle.seq_externals.specs.Externals.{called_external};
ghost use Rattle.seq_machine.specs.Meaning.{meaning, computed};
ghost use Rattle.seq_effects.specs.Effects.{EffectFor, lifted};
ghost use Rattle.seq_effects.specs.Effects.{MayStop};

use int_num::ops::Pred;
use ir_code::code::{Code, FunctionCode};
use ir_code::op::{Op, Operand, Scalar};
use mem_image::fault::{Fault, Trap};
use mem_image::memory::Mem;
use pv_base::external::External;
use pv_base::list::List;
use pv_base::place::Site;
use seq_effects::accesses::{alloca, load, store};
use seq_effects::addresses::address;
use seq_effects::flow::{branch, call, call_pointer, end, switch};
use seq_effects::numbers::{calculate, compare_operands, convert, freeze, select};
use seq_effects::state::{Effect, Frame};
use seq_externals::externals::{
    calloc, exit, extreme, free, getchar, malloc, memset, putchar, transfer,
};
use seq_externals::texts::{printf, puts};

/// A trap as a fault.
fn lifted(of: Result<Effect, Trap>) -> Result<Effect, Fault>
    ensures { result ≡ lifted of }
{
    match of {
        Ok(effect) => Ok(effect),
        Err(trap) => Err(Fault::Trap(trap)),
    }
}

/// A call of a function outside the module.
#[tactic(auto, using(seq_effects::proofs::Arms::arms), unfolding(seq_externals::specs::Externals::called_external))]
fn call_external<M: Mem>(
    types: &List<Scalar>,
    frame: &Frame,
    memory: &mut M,
    at: Site,
    input: &[u8],
    place: u64,
    to: Option<u32>,
    external: External,
    arguments: &List<Operand>,
) -> Result<Effect, Fault>
    requires ready { M.ready memory.old }
    ensures ready { M.ready memory.new }
    ensures follows { Follows M.image M.relation (called_external types.now frame.now at input.now place to external arguments.now) memory.old result memory.new }
    ensures image { OnErr result (M.image memory.new ≡ M.image memory.old) }
    ensures quiet { IfOk result (λ e. MayStop e → M.image memory.new ≡ M.image memory.old) }
    ensures sets { IfOk result (Sets types.now) }
{
    match external {
        External::Malloc => malloc(types, frame, memory, at, to, arguments),
        External::Calloc => calloc(types, frame, memory, at, to, arguments),
        External::Free => free(frame, memory, at, arguments),
        External::Putchar => putchar(types, frame, to, arguments),
        External::Puts => puts(types, frame, memory, at, to, arguments),
        External::Getchar => lifted(getchar(types, to, input, place)),
        External::Printf => printf(types, frame, memory, at, to, arguments),
        External::Exit => lifted(exit(frame, arguments)),
        External::Abort => Err(Fault::Trap(Trap::Abort)),
        External::Memcpy(_) => transfer(frame, memory, at, false, arguments),
        External::Memmove(_) => transfer(frame, memory, at, true, arguments),
        External::Memset(_) => memset(frame, memory, at, arguments),
        External::Smax(_) => lifted(extreme(types, frame, Pred::Sgt, to, arguments)),
        External::Smin(_) => lifted(extreme(types, frame, Pred::Slt, to, arguments)),
        External::Umax(_) => lifted(extreme(types, frame, Pred::Ugt, to, arguments)),
        External::Umin(_) => lifted(extreme(types, frame, Pred::Ult, to, arguments)),
        External::LifetimeStart => Ok(Effect::Next),
        External::LifetimeEnd => Ok(Effect::Next),
    }
}

/// An instruction that needs the values of its operands alone.
fn compute(types: &List<Scalar>, frame: &Frame, op: &Op) -> Result<Effect, Trap>
    ensures effect { result ≡ computed types.now frame.now op.now }
    ensures sets { IfOk result (Sets types.now) }
{
    match op {
        Op::Binary {
            to,
            op,
            flags,
            left,
            right,
        } => calculate(types, frame, *to, *op, *flags, *left, *right),
        Op::Cast {
            to,
            op,
            flags,
            value,
            width,
        } => convert(types, frame, *to, *op, *flags, *value, *width),
        Op::Freeze { to, value } => freeze(types, frame, *to, *value),
        Op::Compare {
            to,
            pred,
            left,
            right,
        } => compare_operands(types, frame, *to, *pred, *left, *right),
        Op::Select {
            to,
            condition,
            on_true,
            on_false,
        } => select(types, frame, *to, *condition, *on_true, *on_false),
        _ => Err(Trap::Unreachable),
    }
}

/// One instruction of a frame.
#[tactic(auto, using(seq_effects::proofs::Arms::arms), unfolding(crate::specs::Meaning::meaning))]
pub fn execute<M: Mem>(
    code: &Code,
    function: &FunctionCode,
    frame: &Frame,
    memory: &mut M,
    at: Site,
    input: &[u8],
    place: u64,
    op: &Op,
) -> Result<Effect, Fault>
    requires ready { M.ready memory.old }
    ensures ready { M.ready memory.new }
    ensures follows { Follows M.image M.relation (meaning (record { code = code.now; function = function.now; frame = frame.now; site = at; input = input.now; place = place }) op.now) memory.old result memory.new }
    ensures image { OnErr result (M.image memory.new ≡ M.image memory.old) }
    ensures quiet { IfOk result (λ e. MayStop e → M.image memory.new ≡ M.image memory.old) }
    ensures effect { IfOk result (EffectFor code.now function.now op.now) }
{
    let types = &function.registers;
    match op {
        Op::Binary { .. }
        | Op::Cast { .. }
        | Op::Freeze { .. }
        | Op::Compare { .. }
        | Op::Select { .. } => lifted(compute(types, frame, op)),
        Op::Phi | Op::Unreachable | Op::Stuck => Err(Fault::Trap(Trap::Unreachable)),
        Op::Alloca { to, size } => alloca(types, memory, at, *to, *size),
        Op::Load { to, of, pointer } => load(types, frame, memory, at, *to, *of, *pointer),
        Op::Store { of, value, pointer } => store(frame, memory, at, *of, *value, *pointer),
        Op::Address {
            to,
            inbounds,
            base,
            indices,
        } => address(types, frame, memory, *to, *inbounds, *base, indices),
        Op::Call {
            to,
            function: callee,
            arguments,
        } => call(code, types, frame, *to, *callee, arguments),
        Op::CallPointer {
            to,
            pointer,
            result,
            parameters,
            arguments,
        } => call_pointer(
            code, types, frame, *to, *pointer, *result, parameters, arguments,
        ),
        Op::CallExternal {
            to,
            external,
            arguments,
        } => call_external(
            types, frame, memory, at, input, place, *to, *external, arguments,
        ),
        Op::Return { value } => end(function, frame, memory, *value),
        Op::Jump { edge } => Ok(Effect::Edge { edge: *edge }),
        Op::Branch {
            condition,
            on_true,
            on_false,
        } => lifted(branch(frame, *condition, *on_true, *on_false)),
        Op::Switch {
            value,
            default,
            cases,
        } => lifted(switch(frame, *value, *default, cases)),
    }
}
