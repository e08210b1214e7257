//! Calls of functions that a module only declares.
ghost use Rattle.std.specs.Prelude.{◌≡◌, ◌∷◌, ◌||◌, [], ℕ, false, map, slice_get, option_map, option_copied};
ghost use Rattle.std.specs.List.{list_any};
ghost use Rattle.pv_base.specs.External.{external_result, external_parameters, takes_more};
ghost use Rattle.ir_tree.specs.Naming.{name_at};
ghost use Rattle.ir_tree.specs.Shown.{shown_operand, shown_argument, shown_function};
ghost use Rattle.ir_rules.specs.Calls.{outer_types, param_types, params_fit, is_external, external_of, is_false, flag_is_false, not_volatile, may_call};
ghost use Rattle.ir_rules.specs.Heads.{name_or, node_constant};
ghost use Rattle.ir_rules.specs.Outer.{outer_value, shown_outer};

use crate::constants::constant;
use crate::whole::{Outer, is_outer, name, takes};
use ir_tree::instruction::{Argument, Operand};
use ir_tree::items::Function;
use ir_tree::nodes::ConstantNode;
use ir_tree::table::Names;
use pv_base::external::External;
use pv_base::name::Name;
use seq_calls::names::known;

fn answer_of(external: External) -> Outer
    ensures { outer_value result ≡ external_result external }
{
    match external {
        External::Malloc => Outer::Pointer,
        External::Calloc => Outer::Pointer,
        External::Putchar => Outer::Integer(32),
        External::Puts => Outer::Integer(32),
        External::Getchar => Outer::Integer(32),
        External::Printf => Outer::Integer(32),
        External::Smax(width) => Outer::Integer(width),
        External::Smin(width) => Outer::Integer(width),
        External::Umax(width) => Outer::Integer(width),
        External::Umin(width) => Outer::Integer(width),
        _ => Outer::Void,
    }
}

fn takes_more(external: External) -> bool
    ensures { result ≡ takes_more external }
{
    match external {
        External::Printf => true,
        _ => false,
    }
}

fn takes_transfer(names: &Names, width: u32, function: &Function) -> bool
    ensures { result ≡ params_fit false (map shown_outer (Outer.Pointer ∷ Outer.Pointer ∷ Outer.Integer width ∷ Outer.Integer 1 ∷ [])) (param_types (shown_function names.now function.now)) }
{
    takes(
        names,
        &[
            Outer::Pointer,
            Outer::Pointer,
            Outer::Integer(width),
            Outer::Integer(1),
        ],
        function,
    )
}

fn takes_filling(names: &Names, width: u32, function: &Function) -> bool
    ensures { result ≡ params_fit false (map shown_outer (Outer.Pointer ∷ Outer.Integer 8 ∷ Outer.Integer width ∷ Outer.Integer 1 ∷ [])) (param_types (shown_function names.now function.now)) }
{
    takes(
        names,
        &[
            Outer::Pointer,
            Outer::Integer(8),
            Outer::Integer(width),
            Outer::Integer(1),
        ],
        function,
    )
}

fn takes_two(names: &Names, width: u32, function: &Function) -> bool
    ensures { result ≡ params_fit false (map shown_outer (Outer.Integer width ∷ Outer.Integer width ∷ [])) (param_types (shown_function names.now function.now)) }
{
    takes(
        names,
        &[Outer::Integer(width), Outer::Integer(width)],
        function,
    )
}

fn takes_lifetime(names: &Names, function: &Function) -> bool
    ensures { result ≡ (params_fit false (map shown_outer (Outer.Integer 64 ∷ Outer.Pointer ∷ [])) (param_types (shown_function names.now function.now)) || params_fit false (map shown_outer (Outer.Pointer ∷ [])) (param_types (shown_function names.now function.now))) }
{
    takes(names, &[Outer::Integer(64), Outer::Pointer], function)
        || takes(names, &[Outer::Pointer], function)
}

/// Whether a function has the parameters of an external.
#[tactic(auto, using(crate::proofs::EdgeLemmas::or_false))]
fn takes_external(names: &Names, external: External, function: &Function) -> bool
    ensures { result ≡ list_any (λ params. params_fit false (outer_types params) (param_types (shown_function names.now function.now))) (external_parameters external) }
{
    match external {
        External::Malloc => takes(names, &[Outer::Integer(64)], function),
        External::Calloc => takes(names, &[Outer::Integer(64), Outer::Integer(64)], function),
        External::Free => takes(names, &[Outer::Pointer], function),
        External::Putchar => takes(names, &[Outer::Integer(32)], function),
        External::Puts => takes(names, &[Outer::Pointer], function),
        External::Getchar => takes(names, &[], function),
        External::Printf => takes(names, &[Outer::Pointer], function),
        External::Exit => takes(names, &[Outer::Integer(32)], function),
        External::Abort => takes(names, &[], function),
        External::Memcpy(width) => takes_transfer(names, width, function),
        External::Memmove(width) => takes_transfer(names, width, function),
        External::Memset(width) => takes_filling(names, width, function),
        External::Smax(width) => takes_two(names, width, function),
        External::Smin(width) => takes_two(names, width, function),
        External::Umax(width) => takes_two(names, width, function),
        External::Umin(width) => takes_two(names, width, function),
        External::LifetimeStart => takes_lifetime(names, function),
        External::LifetimeEnd => takes_lifetime(names, function),
    }
}

/// Whether a declared function is this external.
#[tactic(auto, unfolding(crate::specs::Calls::is_external))]
fn is_external(names: &Names, function: &Function, external: External) -> bool
    ensures { result ≡ is_external (shown_function names.now function.now) external }
{
    is_outer(names, answer_of(external), function.result)
        && takes_more(external) == function.variadic
        && takes_external(names, external, function)
}

fn external_of(name: Option<&Name>) -> Option<External>
    ensures { result ≡ external_of (name_or name.entry) }
{
    match name {
        Some(Name::Named(bytes)) => known(bytes.as_slice()),
        _ => None,
    }
}

fn is_false_node(value: Option<&ConstantNode>) -> bool
    ensures { (t : _) (k : ℕ) → result ≡ is_false (Operand.Constant (node_constant t k (option_copied value.entry))) }
{
    match value {
        Some(ConstantNode::Integer(n)) => n.bits() == 0,
        Some(ConstantNode::Zero) => true,
        _ => false,
    }
}

fn is_false(names: &Names, operand: Operand) -> bool
    ensures { result ≡ is_false (shown_operand names.now operand) }
{
    match operand {
        Operand::Register(_) => false,
        Operand::Constant(number) => is_false_node(constant(names, number)),
    }
}

fn fourth_is_false(names: &Names, arguments: &[Argument]) -> bool
    ensures { result ≡ flag_is_false (option_map (shown_argument names.now) (slice_get arguments.now 3)) }
{
    match arguments.get(3) {
        Some(flag) => is_false(names, flag.value),
        None => true,
    }
}

/// Whether a transfer of bytes is not volatile.
#[tactic(auto, using(crate::proofs::OuterLemmas::get_map))]
fn not_volatile(names: &Names, external: External, arguments: &[Argument]) -> bool
    ensures { result ≡ not_volatile external (map (shown_argument names.now) arguments.now) }
{
    match external {
        External::Memcpy(_) => fourth_is_false(names, arguments),
        External::Memmove(_) => fourth_is_false(names, arguments),
        External::Memset(_) => fourth_is_false(names, arguments),
        _ => true,
    }
}

fn may_call(
    names: &Names,
    function: &Function,
    external: Option<External>,
    arguments: &[Argument],
) -> bool
    ensures { result ≡ may_call (shown_function names.now function.now) external (map (shown_argument names.now) arguments.now) }
{
    match external {
        Some(external) => {
            is_external(names, function, external) && not_volatile(names, external, arguments)
        }
        None => false,
    }
}

/// Whether a call of a declared function is one of the external that it is.
pub fn declared_allowed(names: &Names, function: &Function, arguments: &[Argument]) -> bool
    ensures { result ≡ may_call (shown_function names.now function.now) (external_of (name_at names.now function.now.name)) (map (shown_argument names.now) arguments.now) }
{
    let external = external_of(name(names, function.name));
    may_call(names, function, external, arguments)
}
