//! What is found once of all constants of a table: that the names in each are known, and that each holds together.
ghost use Rattle.std.specs.Prelude.{◌≡◌, ℕ, IfOk, option_copied};
ghost use Rattle.std.specs.List.{list_all};
ghost use Rattle.ir_tree.specs.Trees.{PtrV};
ghost use Rattle.ir_rules.specs.Seen.{seen};
ghost use Rattle.ir_rules.specs.Defining.{given_type};
ghost use Rattle.ir_rules.specs.Constants.{has_form};
ghost use Rattle.ir_rules.specs.Heads.{constant_below, node_constant, shown_given, flag_at};
ghost use Rattle.ir_rules.specs.Classes.{AreClasses};

use crate::constants::{constant, form_written};
use crate::given::Given;
use ir_tree::nodes::{ConstantId, ConstantNode, Element};
use ir_tree::table::Names;
use ir_tree::whole::Module;
use pv_base::want::Memory;

/// The flag of a number, `true` where it has none.
pub fn flag_at(flags: &[bool], number: u32) -> bool
    ensures { result ≡ flag_at flags.now number }
{
    match flags.get(number as usize) {
        Some(flag) => *flag,
        None => true,
    }
}

/// Whether a constant is a pointer, but for what stands in it.
fn form_pointer(value: Option<&ConstantNode>) -> bool
    ensures { (m : _) (t : _) (k : ℕ) → result ≡ has_form m PtrV (node_constant t k (option_copied value.entry)) }
{
    match value {
        Some(ConstantNode::Integer(_)) => false,
        Some(ConstantNode::Text(_)) => false,
        Some(ConstantNode::Array(_)) => false,
        Some(
            ConstantNode::Struct {
                packed: _,
                fields: _,
            },
        ) => false,
        _ => true,
    }
}

/// The same of an integer of one bit.
fn form_bit(value: Option<&ConstantNode>) -> bool
    ensures { (m : _) (t : _) (k : ℕ) → result ≡ has_form m (given_type Given.Bit) (node_constant t k (option_copied value.entry)) }
{
    match value {
        Some(ConstantNode::Integer(n)) => n.width() == 1,
        Some(ConstantNode::Zero) => true,
        _ => false,
    }
}

/// The same of a type as an instruction gives it.
pub fn has_form(tree: &Module, classes: &[usize], of: Given, value: Option<&ConstantNode>) -> bool
    requires { AreClasses tree.now.names classes.now }
    ensures { (k : ℕ) → result ≡ has_form (seen tree.now) (given_type (shown_given tree.now.names of)) (node_constant tree.now.names k (option_copied value.entry)) }
{
    match of {
        Given::Pointer => form_pointer(value),
        Given::Bit => form_bit(value),
        Given::Written(of) => form_written(tree, classes, of, value),
    }
}

/// Whether each element has its flag.
pub fn all_flags(flags: &[bool], elements: &[Element]) -> bool
    ensures { result ≡ list_all (λ e. flag_at flags.now e.value) elements.now }
{
    elements.iter().all(|e| flag_at(flags, e.value))
}

/// The constant of a number.
pub fn constant_before<'a>(
    names: &'a Names,
    before: usize,
    number: ConstantId,
) -> Option<&'a ConstantNode>
    ensures { constant_below names.now before number ≡ node_constant names.now number (option_copied result) }
{
    if (number as usize) < before {
        constant(names, number)
    } else {
        None
    }
}

/// The number of a constant; `Memory` past the numbers.
pub fn number_of(place: usize) -> Result<ConstantId, Memory>
    ensures { IfOk result (λ n. n ≡ place) }
{
    if place > 0xffff_ffff {
        return Err(Memory);
    }
    Ok(place as u32)
}
