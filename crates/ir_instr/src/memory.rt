//! `load` and `store`, behind their words.

ghost use Rattle.std.specs.Prelude.{◌≡◌, Some, None, IfOk, option_map};
ghost use Rattle.ir_tree.specs.Table.{Table};
ghost use Rattle.ir_tree.specs.Naming.{Grows, name_at, type_at};
ghost use Rattle.ir_tree.specs.Shown.{shown};
ghost use Rattle.ir_text.specs.Reading.{Reads};
ghost use Rattle.ir_text.specs.Named.{known_of};
ghost use Rattle.ir_text.specs.Reading.{next_is};
ghost use Rattle.ir_text.specs.Named.{layout_in};
ghost use Rattle.ir_text.specs.MemoryTypes.{AreLaid};
ghost use Rattle.ir_tree.specs.Shown.{shown_operand, shown_argument};
ghost use Rattle.ir_instr.specs.Memory as spec;
ghost use Rattle.ir_instr.specs.Results.{result_of};
ghost use Rattle.ir_instr.specs.Parts.{pointer_at};

use crate::parts::{Scalar, fixed_type, integer_argument, number, stored_type, typed_operand};
use ir_text::cursor::Cursor;
use ir_text::fault::ReadEnd;
use ir_text::layouts::TypeLayouts;
use ir_text::leaves::{is_mark, is_word, mark, sees};
use ir_text::memory_types::read_memory_type;
use ir_text::named::NamedTypes;
use ir_text::tails::{tail, tails};
use ir_tree::instruction::{Argument, Instruction, Operand};
use ir_tree::nodes::NameId;
use ir_tree::table::Names;

/// Reads `ptr P`.
pub fn pointer(
    cursor: &mut Cursor<'_>,
    names: &mut Names,
    known: &NamedTypes,
) -> Result<Operand, ReadEnd>
    ensures reads { (later : Table) → Grows names.new later → Reads (shown_operand later) cursor.new result (pointer_at (known_of later known.now) cursor.old) }
    ensures grows { Grows names.old names.new }
{
    fixed_type(cursor, Scalar::Pointer)?;
    typed_operand(cursor, names, known, Scalar::Pointer)
}

/// Reads `T, ptr P`, behind `%r = load`.
#[tactic(auto, using(ir_text::proofs::Later::later), unfolding(ir_tree::specs::Shown::shown))]
pub fn load(
    cursor: &mut Cursor<'_>,
    names: &mut Names,
    known: &NamedTypes,
    to: NameId,
) -> Result<Instruction, ReadEnd>
    ensures reads { (later : Table) → Grows names.new later → Reads (shown later) cursor.new result (spec.load_at (known_of later known.now) (name_at later to) cursor.old) }
    ensures result { IfOk result (λ i. result_of i ≡ Some to) }
    ensures grows { Grows names.old names.new }
{
    let scalar = stored_type(cursor)?;
    mark(cursor, b',')?;
    let pointer = pointer(cursor, names, known)?;
    let of = number(names, scalar)?;
    Ok(Instruction::Load { to, of, pointer })
}

/// Reads `T A, ptr P`, behind `store`.
#[tactic(auto, using(ir_text::proofs::Later::later), unfolding(ir_tree::specs::Shown::shown))]
pub fn store(
    cursor: &mut Cursor<'_>,
    names: &mut Names,
    known: &NamedTypes,
) -> Result<Instruction, ReadEnd>
    ensures reads { (later : Table) → Grows names.new later → Reads (shown later) cursor.new result (spec.store_at (known_of later known.now) cursor.old) }
    ensures result { IfOk result (λ i. result_of i ≡ None) }
    ensures grows { Grows names.old names.new }
{
    let scalar = stored_type(cursor)?;
    let value = typed_operand(cursor, names, known, scalar)?;
    mark(cursor, b',')?;
    let pointer = pointer(cursor, names, known)?;
    let of = number(names, scalar)?;
    Ok(Instruction::Store { of, value, pointer })
}

/// Whether one of the things comes next that are passed over behind an instruction.
#[tactic(auto, unfolding(ir_text::specs::Reading::next_is))]
pub fn sees_tail(cursor: &Cursor<'_>) -> bool
    ensures { result ≡ next_is spec.begins_tail cursor.now }
{
    match cursor.peek() {
        None => false,
        Some(lexeme) => {
            is_word(&lexeme, b"align")
                || is_word(&lexeme, b"section")
                || is_word(&lexeme, b"comdat")
                || is_mark(&lexeme, b'!')
        }
    }
}

/// Reads a count, and what is passed over behind it.
#[tactic(auto, using(ir_text::proofs::Later::later))]
fn counted(
    cursor: &mut Cursor<'_>,
    names: &mut Names,
    known: &NamedTypes,
) -> Result<Argument, ReadEnd>
    ensures reads { (later : Table) → Grows names.new later → Reads (λ a. Some (shown_argument later a)) cursor.new result (spec.counted (known_of later known.now) cursor.old) }
    ensures grows { Grows names.old names.new }
{
    let count = integer_argument(cursor, names, known)?;
    tails(cursor)?;
    Ok(count)
}

/// Reads a count, or what is passed over in its place, behind a comma.
#[tactic(auto, using(ir_text::proofs::Later::later))]
fn behind_comma(
    cursor: &mut Cursor<'_>,
    names: &mut Names,
    known: &NamedTypes,
) -> Result<Option<Argument>, ReadEnd>
    ensures reads { (later : Table) → Grows names.new later → Reads (option_map (shown_argument later)) cursor.new result (spec.behind_comma (known_of later known.now) cursor.old) }
    ensures grows { Grows names.old names.new }
{
    mark(cursor, b',')?;
    if sees_tail(cursor) {
        tail(cursor)?;
        tails(cursor)?;
        return Ok(None);
    }
    Ok(Some(counted(cursor, names, known)?))
}

/// Reads a count or none, and what is passed over.
fn count(
    cursor: &mut Cursor<'_>,
    names: &mut Names,
    known: &NamedTypes,
) -> Result<Option<Argument>, ReadEnd>
    ensures reads { (later : Table) → Grows names.new later → Reads (option_map (shown_argument later)) cursor.new result (spec.count_at (known_of later known.now) cursor.old) }
    ensures grows { Grows names.old names.new }
{
    match sees(cursor, b',') {
        true => behind_comma(cursor, names, known),
        false => Ok(None),
    }
}

/// Reads `T`, or `T, iN c`, and what is passed over behind it, behind `%r = alloca`.
#[tactic(auto, using(ir_text::proofs::Later::later), unfolding(ir_tree::specs::Shown::shown))]
pub fn alloca(
    cursor: &mut Cursor<'_>,
    names: &mut Names,
    known: &NamedTypes,
    layouts: &mut TypeLayouts,
    to: NameId,
) -> Result<Instruction, ReadEnd>
    requires { AreLaid (layout_in known.now) names.old layouts.old }
    ensures reads { (later : Table) → Grows names.new later → Reads (shown later) cursor.new result (spec.alloca_at (known_of later known.now) (name_at later to) cursor.old) }
    ensures result { IfOk result (λ i. result_of i ≡ Some to) }
    ensures grows { Grows names.old names.new }
    ensures laid { AreLaid (layout_in known.now) names.new layouts.new }
{
    let of = read_memory_type(cursor, names, known, layouts)?;
    names.is_table();
    let count = count(cursor, names, known)?;
    Ok(Instruction::Alloca { to, of, count })
}
