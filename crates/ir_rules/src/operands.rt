//! Whether the operands of an instruction are known, and of the types that it needs.
ghost use Rattle.std.specs.Prelude.{◌≡◌};
ghost use Rattle.ir_tree.specs.Naming.{constant_at};
ghost use Rattle.ir_rules.specs.Seen.{seen};
ghost use Rattle.ir_rules.specs.Same.{same_type};
ghost use Rattle.ir_rules.specs.Defining.{given_type};
ghost use Rattle.ir_rules.specs.Constants.{is_of, holds_together};
ghost use Rattle.ir_rules.specs.Heads.{shown_given, AreFlags};
ghost use Rattle.ir_rules.specs.Classes.{AreClasses};

use crate::classes::same_type;
use crate::constants::constant;
use crate::flags::{flag_at, has_form};
use crate::given::Given;
use crate::types::{has_width, is_pointer};
use ir_tree::nodes::ConstantId;
use ir_tree::table::Names;
use ir_tree::whole::Module;

/// Whether two types are the same, as instructions give them.
#[tactic(auto, using(crate::proofs::GivenLemmas::pointer_left, crate::proofs::GivenLemmas::pointer_right, crate::proofs::GivenLemmas::width_left, crate::proofs::GivenLemmas::width_right))]
pub fn same_given(names: &Names, classes: &[usize], a: Given, b: Given) -> bool
    requires { AreClasses names.now classes.now }
    ensures { result ≡ same_type (given_type (shown_given names.now a)) (given_type (shown_given names.now b)) }
{
    match (a, b) {
        (Given::Pointer, Given::Pointer) => true,
        (Given::Bit, Given::Bit) => true,
        (Given::Written(a), Given::Written(b)) => same_type(names, classes, a, b),
        (Given::Pointer, Given::Written(b)) => is_pointer(names, b),
        (Given::Written(a), Given::Pointer) => is_pointer(names, a),
        (Given::Bit, Given::Written(b)) => has_width(names, 1, b),
        (Given::Written(a), Given::Bit) => has_width(names, 1, a),
        _ => false,
    }
}

/// Whether a constant is one of a type.
pub fn is_of(
    tree: &Module,
    classes: &[usize],
    together: &[bool],
    of: Given,
    number: ConstantId,
) -> bool
    requires classes { AreClasses tree.now.names classes.now }
    requires together { AreFlags tree.now.names (holds_together (seen tree.now)) together.now }
    ensures { result ≡ is_of (seen tree.now) (given_type (shown_given tree.now.names of)) (constant_at tree.now.names number) }
{
    let value = constant(tree.names(), number);
    has_form(tree, classes, of, value) && flag_at(together, number)
}
