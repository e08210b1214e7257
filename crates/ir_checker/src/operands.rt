//! Whether the operands of an instruction are known, and of the types that it needs.
ghost use Rattle.std.specs.Prelude.{◌≡◌};
ghost use Rattle.std.specs.List.{list_all};
ghost use Rattle.ir_tree.specs.Naming.{name_at};
ghost use Rattle.ir_tree.specs.Shown.{shown_operand, shown_function};
ghost use Rattle.ir_rules.specs.Seen.{seen};
ghost use Rattle.ir_rules.specs.Defining.{is_label};
ghost use Rattle.ir_rules.specs.Causes.{operand_known, use_fits};
ghost use Rattle.ir_rules.specs.Heads.{shown_use};
ghost use Rattle.ir_checker.specs.Facts.{AreFacts};
ghost use Rattle.ir_checker.specs.Scopes.{IsScope};

use crate::facts::Facts;
use crate::scope::{Scope, is_label, register_type};
use ir_rules::flags::flag_at;
use ir_rules::given::Use;
use ir_rules::operands::{is_of, same_given};
use ir_tree::instruction::Operand;
use ir_tree::items::Function;
use ir_tree::nodes::NameId;
use ir_tree::whole::Module;

/// Whether an operand is defined.
fn operand_known(
    tree: &Module,
    facts: &Facts,
    function: &Function,
    scope: &Scope,
    operand: Operand,
) -> bool
    requires facts { AreFacts tree.now facts.now }
    requires scope { IsScope tree.now.names facts.now.index.zero function.now scope.now }
    ensures { result ≡ operand_known (seen tree.now) (shown_function tree.now.names function.now) (shown_operand tree.now.names operand) }
{
    match operand {
        Operand::Register(name) => {
            register_type(tree.names(), facts.index.zero, function, scope, name).is_some()
        }
        Operand::Constant(number) => flag_at(facts.tables.known.as_slice(), number),
    }
}

/// Whether an operand is of the type that is needed.
fn operand_fits(
    tree: &Module,
    facts: &Facts,
    function: &Function,
    scope: &Scope,
    needed: Use,
) -> bool
    requires facts { AreFacts tree.now facts.now }
    requires scope { IsScope tree.now.names facts.now.index.zero function.now scope.now }
    ensures { result ≡ use_fits (seen tree.now) (shown_function tree.now.names function.now) (shown_use tree.now.names needed) }
{
    let classes = facts.tables.classes.as_slice();
    match needed.value {
        Operand::Register(name) => {
            match register_type(tree.names(), facts.index.zero, function, scope, name) {
                Some(own) => same_given(tree.names(), classes, own, needed.of),
                None => true,
            }
        }
        Operand::Constant(number) => is_of(
            tree,
            classes,
            facts.tables.together.as_slice(),
            needed.of,
            number,
        ),
    }
}

pub fn uses_known(
    tree: &Module,
    facts: &Facts,
    function: &Function,
    scope: &Scope,
    uses: &[Use],
) -> bool
    requires facts { AreFacts tree.now facts.now }
    requires scope { IsScope tree.now.names facts.now.index.zero function.now scope.now }
    ensures { result ≡ list_all (λ u. operand_known (seen tree.now) (shown_function tree.now.names function.now) (shown_operand tree.now.names u.value)) uses.now }
{
    uses.iter()
        .all(|u| operand_known(tree, facts, function, scope, u.value))
}

pub fn uses_fit(
    tree: &Module,
    facts: &Facts,
    function: &Function,
    scope: &Scope,
    uses: &[Use],
) -> bool
    requires facts { AreFacts tree.now facts.now }
    requires scope { IsScope tree.now.names facts.now.index.zero function.now scope.now }
    ensures { result ≡ list_all (λ u. use_fits (seen tree.now) (shown_function tree.now.names function.now) (shown_use tree.now.names u)) uses.now }
{
    uses.iter()
        .all(|u| operand_fits(tree, facts, function, scope, *u))
}

pub fn are_labels(
    tree: &Module,
    facts: &Facts,
    function: &Function,
    scope: &Scope,
    labels: &[NameId],
) -> bool
    requires facts { AreFacts tree.now facts.now }
    requires scope { IsScope tree.now.names facts.now.index.zero function.now scope.now }
    ensures { result ≡ list_all (λ l. is_label (shown_function tree.now.names function.now) (name_at tree.now.names l)) labels.now }
{
    labels.iter().all(|l| is_label(tree.names(), facts.index.zero, function, scope, *l))
}
