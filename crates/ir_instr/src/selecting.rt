//! `select` and `phi`, behind their words.

ghost use Rattle.std.specs.Prelude.{◌≡◌, ◌<◌, Some, IfOk, OnOk, length, map, option_map};
ghost use Rattle.ir_tree.specs.Table.{Table};
ghost use Rattle.ir_tree.specs.Naming.{Grows, name_at, type_at};
ghost use Rattle.ir_tree.specs.Shown.{shown, shown_arm};
ghost use Rattle.ir_text.specs.Reading.{Reads};
ghost use Rattle.ir_text.specs.Tokens.{is_mark};
ghost use Rattle.ir_text.specs.Trailing.{comma_item, trailing_at};
ghost use Rattle.ir_instr.specs.Scalars.{type_of};
ghost use Rattle.ir_instr.specs.Gathering.{behind};
ghost use Rattle.ir_text.specs.Named.{known_of};
ghost use Rattle.ir_instr.specs.Selecting as spec;
ghost use Rattle.ir_instr.specs.Results.{result_of};

use crate::parts::{Scalar, fixed_type, number, register, typed_operand};
use ir_text::cursor::Cursor;
use ir_text::fault::ReadEnd;
use ir_text::leaves::{mark, sees};
use ir_text::named::NamedTypes;
use ir_text::names::local;
use ir_text::tails::tail;
use ir_tree::instruction::{Arm, Instruction};
use ir_tree::nodes::NameId;
use ir_tree::table::Names;
use pv_base::list::List;

/// Reads `i1 C, T A, T B`, behind `%r = select`.
#[tactic(auto, using(ir_text::proofs::Later::later), unfolding(ir_tree::specs::Shown::shown))]
pub fn select(
    cursor: &mut Cursor<'_>,
    names: &mut Names,
    known: &NamedTypes,
    to: NameId,
) -> Result<Instruction, ReadEnd>
    ensures reads { (later : Table) → Grows names.new later → Reads (shown later) cursor.new result (spec.select_at (known_of later known.now) (name_at later to) cursor.old) }
    ensures result { IfOk result (λ i. result_of i ≡ Some to) }
    ensures grows { Grows names.old names.new }
{
    fixed_type(cursor, Scalar::Int(1))?;
    let condition = typed_operand(cursor, names, known, Scalar::Int(1))?;
    mark(cursor, b',')?;
    let scalar = register(cursor)?;
    let on_true = typed_operand(cursor, names, known, scalar)?;
    mark(cursor, b',')?;
    fixed_type(cursor, scalar)?;
    let on_false = typed_operand(cursor, names, known, scalar)?;
    let of = number(names, scalar)?;
    Ok(Instruction::Select {
        to,
        condition,
        of,
        on_true,
        on_false,
    })
}

/// Reads `[ A, %from ]`.
#[tactic(auto, using(ir_text::proofs::Later::later))]
fn arm(
    cursor: &mut Cursor<'_>,
    names: &mut Names,
    known: &NamedTypes,
    of: Scalar,
) -> Result<Arm, ReadEnd>
    ensures reads { (later : Table) → Grows names.new later → Reads (shown_arm later) cursor.new result (spec.arm_at (known_of later known.now) (type_of of) cursor.old) }
    ensures grows { Grows names.old names.new }
    ensures shorter { OnOk result (length cursor.new < length cursor.old) }
{
    mark(cursor, b'[')?;
    let value = typed_operand(cursor, names, known, of)?;
    mark(cursor, b',')?;
    let from = local(cursor, names)?;
    mark(cursor, b']')?;
    Ok(Arm { value, from })
}

/// Reads an arm behind a comma, or passes over what stands in its place: behind that no arm stands.
#[tactic(auto, using(ir_text::proofs::Later::later))]
fn further_arm(
    cursor: &mut Cursor<'_>,
    names: &mut Names,
    known: &NamedTypes,
    of: Scalar,
    may_stand: bool,
) -> Result<Option<Arm>, ReadEnd>
    ensures reads { (later : Table) → Grows names.new later → Reads (option_map (shown_arm later)) cursor.new result (comma_item (is_mark 91) (spec.arm_at (known_of later known.now) (type_of of)) may_stand cursor.old) }
    ensures grows { Grows names.old names.new }
    ensures shorter { OnOk result (length cursor.new < length cursor.old) }
{
    mark(cursor, b',')?;
    if may_stand && sees(cursor, b'[') {
        return Ok(Some(arm(cursor, names, known, of)?));
    }
    tail(cursor)?;
    Ok(None)
}

/// Reads the arms behind the first ones, and what is passed over behind them.
fn further_arms(
    cursor: &mut Cursor<'_>,
    names: &mut Names,
    known: &NamedTypes,
    of: Scalar,
    first: List<Arm>,
) -> Result<List<Arm>, ReadEnd>
    ensures reads { (later : Table) → Grows names.new later → Reads (map (shown_arm later)) cursor.new result (behind (map (shown_arm later) first) (trailing_at (is_mark 91) (spec.arm_at (known_of later known.now) (type_of of)) cursor.old)) }
    ensures grows { Grows names.old names.new }
{
    let mut arms = first;
    let mut may_stand = true;
    'arms: while sees(cursor, b',') {
        match further_arm(cursor, names, known, of, may_stand)? {
            Some(arm) => arms.push(arm)?,
            None => may_stand = false,
        }
    }
    Ok(arms)
}

/// Reads `T [ A, %from ], ..` and what is passed over behind it, behind `%r = phi`.
#[tactic(auto, using(ir_text::proofs::Later::later), unfolding(ir_tree::specs::Shown::shown))]
pub fn phi(
    cursor: &mut Cursor<'_>,
    names: &mut Names,
    known: &NamedTypes,
    to: NameId,
) -> Result<Instruction, ReadEnd>
    ensures reads { (later : Table) → Grows names.new later → Reads (shown later) cursor.new result (spec.phi_at (known_of later known.now) (name_at later to) cursor.old) }
    ensures result { IfOk result (λ i. result_of i ≡ Some to) }
    ensures grows { Grows names.old names.new }
{
    let scalar = register(cursor)?;
    let mut first = List::new(cursor.alloc());
    first.push(arm(cursor, names, known, scalar)?)?;
    let arms = further_arms(cursor, names, known, scalar, first)?;
    let of = number(names, scalar)?;
    Ok(Instruction::Phi { to, of, arms })
}
