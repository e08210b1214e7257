//! Changes of width and `freeze`, behind their word.

ghost use Rattle.std.specs.Prelude.{◌≡◌, Some, IfOk};
ghost use Rattle.ir_tree.specs.Table.{Table};
ghost use Rattle.ir_tree.specs.Naming.{Grows, name_at, type_at};
ghost use Rattle.ir_tree.specs.Shown.{shown};
ghost use Rattle.ir_text.specs.Reading.{Reads};
ghost use Rattle.ir_text.specs.Named.{known_of};
ghost use Rattle.ir_instr.specs.Casts as spec;
ghost use Rattle.ir_instr.specs.Results.{result_of};

use crate::flags::cast_flags;
use crate::parts::{integer_type, number, register, typed_operand};
use int_num::ops::CastOp;
use ir_text::cursor::Cursor;
use ir_text::fault::ReadEnd;
use ir_text::leaves::word;
use ir_text::named::NamedTypes;
use ir_tree::instruction::Instruction;
use ir_tree::nodes::NameId;
use ir_tree::table::Names;

/// Reads `T A`, behind `%r = freeze`.
#[tactic(auto, using(ir_text::proofs::Later::later), unfolding(ir_tree::specs::Shown::shown))]
pub fn freeze(
    cursor: &mut Cursor<'_>,
    names: &mut Names,
    known: &NamedTypes,
    to: NameId,
) -> Result<Instruction, ReadEnd>
    ensures reads { (later : Table) → Grows names.new later → Reads (shown later) cursor.new result (spec.freeze_at (known_of later known.now) (name_at later to) cursor.old) }
    ensures result { IfOk result (λ i. result_of i ≡ Some to) }
    ensures grows { Grows names.old names.new }
{
    let scalar = register(cursor)?;
    let value = typed_operand(cursor, names, known, scalar)?;
    let of = number(names, scalar)?;
    Ok(Instruction::Freeze { to, of, value })
}

/// Reads `FLAGS iN A to iM`, behind `%r =` and the word of a change of width.
#[tactic(auto, using(ir_text::proofs::Later::later), unfolding(ir_tree::specs::Shown::shown))]
pub fn cast(
    cursor: &mut Cursor<'_>,
    names: &mut Names,
    known: &NamedTypes,
    to: NameId,
    op: CastOp,
) -> Result<Instruction, ReadEnd>
    ensures reads { (later : Table) → Grows names.new later → Reads (shown later) cursor.new result (spec.cast_at (known_of later known.now) (name_at later to) op cursor.old) }
    ensures result { IfOk result (λ i. result_of i ≡ Some to) }
    ensures grows { Grows names.old names.new }
{
    let flags = cast_flags(cursor, op);
    let from = integer_type(cursor)?;
    let value = typed_operand(cursor, names, known, from)?;
    word(cursor, b"to")?;
    let into = integer_type(cursor)?;
    let of = number(names, from)?;
    let target = number(names, into)?;
    Ok(Instruction::Cast {
        to,
        op,
        flags,
        of,
        value,
        target,
    })
}
