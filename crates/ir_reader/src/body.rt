//! The bodies of functions: blocks with labels, and their instructions.

ghost use Rattle.std.specs.Prelude.{◌≡◌, ◌<◌, length, map, fold, IfOk, OnOk, IfSome};
ghost use Rattle.ir_tree.specs.Table.{Table};
ghost use Rattle.ir_tree.specs.Naming.{Grows, name_at};
ghost use Rattle.ir_tree.specs.Shown.{shown, shown_block};
ghost use Rattle.ir_text.specs.Reading.{Reads, next_is};
ghost use Rattle.ir_text.specs.Named.{known_of, layout_in};
ghost use Rattle.ir_text.specs.MemoryTypes.{AreLaid};
ghost use Rattle.ir_instr.specs.Defined.{AreNames, AreTypes};
ghost use Rattle.ir_grammar.specs.Bodies as spec;
ghost use Rattle.ir_grammar.specs.Scopes.{result_of, after_instruction, after_block};
ghost use Rattle.ir_reader.specs.Scoping.{scope_at};
ghost use Rattle.ir_reader.specs.Behind.{behind};
ghost use Rattle.ir_text.specs.Repeated.{repeated_under};

use crate::names::new_label;
use crate::scope::Scope;
use ir_instr::instructions::instruction;
use ir_lex::token::TokenKind;
use ir_text::cursor::{Cursor, Lexeme};
use ir_text::fault::{Fault, ReadEnd};
use ir_text::layouts::TypeLayouts;
use ir_text::leaves::{is_mark, mark};
use ir_text::named::NamedTypes;
use ir_tree::instruction::Instruction;
use ir_tree::items::Block;
use ir_tree::nodes::NameId;
use ir_tree::table::Names;
use pv_base::list::List;
use pv_base::name::Name;
use pv_base::want::Memory;

/// The name of an instruction's result.
fn result_of(instruction: &Instruction) -> Option<NameId>
    ensures { result ≡ result_of instruction.now }
{
    match instruction {
        Instruction::Binary { to, .. }
        | Instruction::Cast { to, .. }
        | Instruction::Freeze { to, .. }
        | Instruction::Compare { to, .. }
        | Instruction::Select { to, .. }
        | Instruction::Phi { to, .. }
        | Instruction::Alloca { to, .. }
        | Instruction::Load { to, .. }
        | Instruction::Address { to, .. } => Some(*to),
        Instruction::Call { to, .. } => *to,
        _ => None,
    }
}

/// Notes what an instruction defines.
fn note_result(names: &Names, scope: &mut Scope, instruction: &Instruction) -> Result<(), Memory>
    requires names { AreNames names.now scope.old.defined }
    requires within { IfSome (result_of instruction.now) (λ k. k < length names.now.names) }
    ensures defines { OnOk result ((later : Table) → Grows names.now later → scope_at later scope.new ≡ after_instruction (scope_at later scope.old) (shown later instruction.now)) }
    ensures names { OnOk result (AreNames names.now scope.new.defined) }
{
    match result_of(instruction) {
        Some(name) => scope.define(names, name),
        None => Ok(()),
    }
}

/// Reads an instruction, and notes what it defines.
fn noted_instruction(
    cursor: &mut Cursor<'_>,
    names: &mut Names,
    known: &NamedTypes,
    layouts: &mut TypeLayouts,
    scope: &mut Scope,
) -> Result<Instruction, ReadEnd>
    requires names { AreNames names.old scope.old.defined }
    requires types { AreTypes names.old known.now }
    requires laid { AreLaid (layout_in known.now) names.old layouts.old }
    ensures reads { (later : Table) → Grows names.new later → Reads (shown later) cursor.new result (spec.step_at (known_of later known.now) (scope_at later scope.old) cursor.old) }
    ensures defines { IfOk result (λ i. (later : Table) → Grows names.new later → scope_at later scope.new ≡ after_instruction (scope_at later scope.old) (shown later i)) }
    ensures names { OnOk result (AreNames names.new scope.new.defined) }
    ensures laid { AreLaid (layout_in known.now) names.new layouts.new }
    ensures grows { Grows names.old names.new }
{
    let read = instruction(cursor, names, known, layouts, scope.next, &scope.defined)?;
    note_result(names, scope, &read)?;
    Ok(read)
}

/// Whether a token stands in a block, and neither begins another nor ends the body.
fn in_block(lexeme: &Lexeme<'_>) -> bool
    ensures { result ≡ spec.in_block lexeme.now }
{
    match lexeme.kind() {
        TokenKind::Label => false,
        _ => !is_mark(lexeme, b'}'),
    }
}

/// Whether an instruction of the block comes next.
#[tactic(auto, unfolding(ir_text::specs::Reading::next_is))]
fn sees_instruction(cursor: &Cursor<'_>) -> bool
    ensures { result ≡ next_is spec.in_block cursor.now }
{
    match cursor.peek() {
        None => false,
        Some(lexeme) => in_block(&lexeme),
    }
}

/// Reads the instructions of a block.
fn instructions(
    cursor: &mut Cursor<'_>,
    names: &mut Names,
    known: &NamedTypes,
    layouts: &mut TypeLayouts,
    scope: &mut Scope,
) -> Result<List<Instruction>, ReadEnd>
    requires names { AreNames names.old scope.old.defined }
    requires types { AreTypes names.old known.now }
    requires laid { AreLaid (layout_in known.now) names.old layouts.old }
    ensures reads { (later : Table) → Grows names.new later → Reads (map (shown later)) cursor.new result (spec.instructions_at (known_of later known.now) (scope_at later scope.old) cursor.old) }
    ensures defines { IfOk result (λ all. (later : Table) → Grows names.new later → scope_at later scope.new ≡ fold after_instruction (scope_at later scope.old) (map (shown later) all)) }
    ensures names { OnOk result (AreNames names.new scope.new.defined) }
    ensures laid { AreLaid (layout_in known.now) names.new layouts.new }
    ensures grows { Grows names.old names.new }
{
    let mut found = List::new(cursor.alloc());
    for turn in 0..cursor.len() {
        if !sees_instruction(cursor) {
            return Ok(found);
        }
        let read = noted_instruction(cursor, names, known, layouts, scope)?;
        found.push(read)?;
    }
    Ok(found)
}

/// Reads the instructions of a block, behind its label.
fn block_behind(
    cursor: &mut Cursor<'_>,
    names: &mut Names,
    known: &NamedTypes,
    layouts: &mut TypeLayouts,
    scope: &mut Scope,
    label: NameId,
) -> Result<Block, ReadEnd>
    requires names { AreNames names.old scope.old.defined }
    requires label { label < length names.old.names }
    requires types { AreTypes names.old known.now }
    requires laid { AreLaid (layout_in known.now) names.old layouts.old }
    ensures reads { (later : Table) → Grows names.new later → Reads (shown_block later) cursor.new result (spec.block_behind (known_of later known.now) (scope_at later scope.old) (name_at later label) cursor.old) }
    ensures defines { IfOk result (λ b. (later : Table) → Grows names.new later → scope_at later scope.new ≡ after_block (scope_at later scope.old) (shown_block later b)) }
    ensures names { OnOk result (AreNames names.new scope.new.defined) }
    ensures laid { AreLaid (layout_in known.now) names.new layouts.new }
    ensures grows { Grows names.old names.new }
{
    scope.define(names, label)?;
    let instructions = instructions(cursor, names, known, layouts, scope)?;
    Ok(Block {
        label,
        instructions,
    })
}

/// Reads a block with its label.
#[tactic(auto, using(ir_text::proofs::Later::later, crate::proofs::Keeping::keeping))]
fn block(
    cursor: &mut Cursor<'_>,
    names: &mut Names,
    known: &NamedTypes,
    layouts: &mut TypeLayouts,
    scope: &mut Scope,
) -> Result<Block, ReadEnd>
    requires names { AreNames names.old scope.old.defined }
    requires types { AreTypes names.old known.now }
    requires laid { AreLaid (layout_in known.now) names.old layouts.old }
    ensures reads { (later : Table) → Grows names.new later → Reads (shown_block later) cursor.new result (spec.block_at (known_of later known.now) (scope_at later scope.old) cursor.old) }
    ensures defines { IfOk result (λ b. (later : Table) → Grows names.new later → scope_at later scope.new ≡ after_block (scope_at later scope.old) (shown_block later b)) }
    ensures names { OnOk result (AreNames names.new scope.new.defined) }
    ensures laid { AreLaid (layout_in known.now) names.new layouts.new }
    ensures grows { Grows names.old names.new }
{
    names.is_table();
    let label = new_label(cursor, names, scope)?;
    block_behind(cursor, names, known, layouts, scope, label)
}

/// Whether a label comes next.
#[tactic(auto, unfolding(ir_text::specs::Reading::next_is))]
fn sees_label(cursor: &Cursor<'_>) -> bool
    ensures { result ≡ next_is spec.is_label cursor.now }
{
    match cursor.peek() {
        None => false,
        Some(lexeme) => match lexeme.kind() {
            TokenKind::Label => true,
            _ => false,
        },
    }
}

/// The name of a number.
#[tactic(auto, using(ir_text::proofs::Later::named))]
fn numbered(names: &mut Names, number: u64) -> Result<NameId, Memory>
    ensures shows { IfOk result (λ k. (later : Table) → Grows names.new later → name_at later k ≡ Name.Numbered number) }
    ensures within { IfOk result (λ k. k < length names.new.names) }
    ensures grows { Grows names.old names.new }
{
    names.number(Name::Numbered(number))
}

/// Reads the label of the entry block, or gives it the next number.
fn entry_label(cursor: &mut Cursor<'_>, names: &mut Names, scope: &Scope) -> Result<NameId, ReadEnd>
    requires { AreNames names.old scope.now.defined }
    ensures reads { (later : Table) → Grows names.new later → Reads (name_at later) cursor.new result (spec.entry_label_at (scope_at later scope.now) cursor.old) }
    ensures within { IfOk result (λ k. k < length names.new.names) }
    ensures grows { Grows names.old names.new }
{
    if sees_label(cursor) {
        return new_label(cursor, names, scope);
    }
    Ok(numbered(names, scope.next)?)
}

/// Reads the entry block.
#[tactic(auto, using(ir_text::proofs::Later::later, crate::proofs::Keeping::keeping))]
fn entry(
    cursor: &mut Cursor<'_>,
    names: &mut Names,
    known: &NamedTypes,
    layouts: &mut TypeLayouts,
    scope: &mut Scope,
) -> Result<Block, ReadEnd>
    requires names { AreNames names.old scope.old.defined }
    requires types { AreTypes names.old known.now }
    requires laid { AreLaid (layout_in known.now) names.old layouts.old }
    ensures reads { (later : Table) → Grows names.new later → Reads (shown_block later) cursor.new result (spec.entry_at (known_of later known.now) (scope_at later scope.old) cursor.old) }
    ensures defines { IfOk result (λ b. (later : Table) → Grows names.new later → scope_at later scope.new ≡ after_block (scope_at later scope.old) (shown_block later b)) }
    ensures names { OnOk result (AreNames names.new scope.new.defined) }
    ensures laid { AreLaid (layout_in known.now) names.new layouts.new }
    ensures grows { Grows names.old names.new }
{
    names.is_table();
    let label = entry_label(cursor, names, scope)?;
    block_behind(cursor, names, known, layouts, scope, label)
}

/// Reads the blocks behind these.
fn others(
    cursor: &mut Cursor<'_>,
    names: &mut Names,
    known: &NamedTypes,
    layouts: &mut TypeLayouts,
    scope: &mut Scope,
    mut found: List<Block>,
) -> Result<List<Block>, ReadEnd>
    requires names { AreNames names.old scope.old.defined }
    requires types { AreTypes names.old known.now }
    requires laid { AreLaid (layout_in known.now) names.old layouts.old }
    ensures reads { (later : Table) → Grows names.new later → Reads (map (shown_block later)) cursor.new result (behind (map (shown_block later) found) (repeated_under spec.is_label (spec.block_at (known_of later known.now)) after_block (scope_at later scope.old) cursor.old)) }
    ensures laid { AreLaid (layout_in known.now) names.new layouts.new }
    ensures grows { Grows names.old names.new }
{
    for turn in 0..cursor.len() {
        if !sees_label(cursor) {
            return Ok(found);
        }
        let read = block(cursor, names, known, layouts, scope)?;
        found.push(read)?;
    }
    Ok(found)
}

/// Reads the blocks of a function up to the closing brace, the entry block first.
#[tactic(auto, using(ir_text::proofs::Later::later, crate::proofs::Keeping::keeping))]
pub fn body(
    cursor: &mut Cursor<'_>,
    names: &mut Names,
    known: &NamedTypes,
    layouts: &mut TypeLayouts,
    scope: &mut Scope,
) -> Result<List<Block>, ReadEnd>
    requires names { AreNames names.old scope.old.defined }
    requires types { AreTypes names.old known.now }
    requires laid { AreLaid (layout_in known.now) names.old layouts.old }
    ensures reads { (later : Table) → Grows names.new later → Reads (map (shown_block later)) cursor.new result (spec.body_at (known_of later known.now) (scope_at later scope.old) cursor.old) }
    ensures laid { AreLaid (layout_in known.now) names.new layouts.new }
    ensures grows { Grows names.old names.new }
{
    let mut found = List::new(cursor.alloc());
    let first = entry(cursor, names, known, layouts, scope)?;
    found.push(first)?;
    let blocks = others(cursor, names, known, layouts, scope, found)?;
    mark(cursor, b'}')?;
    Ok(blocks)
}
