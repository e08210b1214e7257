//! Operations on two integers, behind their word.

ghost use Rattle.std.specs.Prelude.{◌≡◌, Some, IfOk};
ghost use Rattle.ir_tree.specs.Table.{Table};
ghost use Rattle.ir_tree.specs.Naming.{Grows, name_at};
ghost use Rattle.ir_tree.specs.Shown.{shown};
ghost use Rattle.ir_text.specs.Reading.{Reads};
ghost use Rattle.ir_text.specs.Named.{known_of};
ghost use Rattle.ir_instr.specs.Arithmetic as spec;
ghost use Rattle.ir_instr.specs.Results.{result_of};

use crate::flags::binary_flags;
use crate::parts::{integer_type, number, typed_operand};
use int_num::ops::BinOp;
use ir_text::cursor::Cursor;
use ir_text::fault::ReadEnd;
use ir_text::leaves::mark;
use ir_text::named::NamedTypes;
use ir_tree::instruction::Instruction;
use ir_tree::nodes::NameId;
use ir_tree::table::Names;

/// Reads `FLAGS iN A, B`, behind `%r =` and the word of an operation.
#[tactic(auto, using(ir_text::proofs::Later::later), unfolding(ir_tree::specs::Shown::shown))]
pub fn binary(
    cursor: &mut Cursor<'_>,
    names: &mut Names,
    known: &NamedTypes,
    to: NameId,
    op: BinOp,
) -> Result<Instruction, ReadEnd>
    ensures reads { (later : Table) → Grows names.new later → Reads (shown later) cursor.new result (spec.binary_at (known_of later known.now) (name_at later to) op cursor.old) }
    ensures result { IfOk result (λ i. result_of i ≡ Some to) }
    ensures grows { Grows names.old names.new }
{
    let flags = binary_flags(cursor, op);
    let scalar = integer_type(cursor)?;
    let left = typed_operand(cursor, names, known, scalar)?;
    mark(cursor, b',')?;
    let right = typed_operand(cursor, names, known, scalar)?;
    let of = number(names, scalar)?;
    Ok(Instruction::Binary {
        to,
        op,
        flags,
        of,
        left,
        right,
    })
}
