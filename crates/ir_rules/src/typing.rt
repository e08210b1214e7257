//! What the form of an instruction asks of types beyond its operands.
ghost use Rattle.std.specs.Prelude.{◌≡◌, option_map};
ghost use Rattle.ir_tree.specs.Trees.{IntV};
ghost use Rattle.ir_tree.specs.Naming.{type_at};
ghost use Rattle.ir_tree.specs.Shown.{shown_argument};
ghost use Rattle.ir_rules.specs.Causes.{cast_fits, returns_fit};
ghost use Rattle.ir_rules.specs.Classes.{AreClasses};

use crate::classes::same_type;
use crate::types::{Head, head_of, is_void};
use int_num::ops::CastOp;
use ir_tree::instruction::Argument;
use ir_tree::nodes::TypeId;
use ir_tree::table::Names;

fn widths_fit(op: CastOp, from: u32, to: u32) -> bool
    ensures { result ≡ cast_fits op (IntV from) (IntV to) }
{
    match op {
        CastOp::Trunc => to < from,
        CastOp::Zext => from < to,
        CastOp::Sext => from < to,
    }
}

/// Whether a cast goes to a width that fits it.
pub fn cast_fits(names: &Names, op: CastOp, from: TypeId, to: TypeId) -> bool
    ensures { result ≡ cast_fits op (type_at names.now from) (type_at names.now to) }
{
    match head_of(names, from) {
        Head::Int(from) => match head_of(names, to) {
            Head::Int(to) => widths_fit(op, from, to),
            _ => false,
        },
        _ => false,
    }
}

/// Whether a function of this result may return so.
#[tactic(auto, using(crate::proofs::GivenLemmas::void_right))]
pub fn returns_fit(
    names: &Names,
    classes: &[usize],
    answer: TypeId,
    value: Option<Argument>,
) -> bool
    requires { AreClasses names.now classes.now }
    ensures { result ≡ returns_fit (type_at names.now answer) (option_map (shown_argument names.now) value) }
{
    match value {
        Some(value) => same_type(names, classes, answer, value.of),
        None => is_void(names, answer),
    }
}
