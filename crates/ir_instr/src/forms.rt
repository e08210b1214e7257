//! Instructions by their first words.

ghost use Rattle.std.specs.Prelude.{◌≡◌, ◌∷◌, Some, None, Ok, IfOk, drop, option_map};
ghost use Rattle.ir_tree.specs.Table.{Table};
ghost use Rattle.ir_tree.specs.Naming.{Grows, name_at};
ghost use Rattle.ir_tree.specs.Shown.{shown};
ghost use Rattle.ir_tree.specs.declared.instruction.Instruction.TheVariants as instruction;
ghost use Rattle.ir_text.specs.MemoryTypes.{AreLaid};
ghost use Rattle.ir_text.specs.Named.{known_of, layout_in};
ghost use Rattle.ir_text.specs.Reading.{Reads};
ghost use Rattle.ir_instr.specs.Defined.{AreTypes};
ghost use Rattle.ir_instr.specs.Dispatch.{tailed, plain_at, needs_result};
ghost use Rattle.ir_instr.specs.Instructions as spec;
ghost use Rattle.ir_instr.specs.Results.{result_of};
ghost use Rattle.ir_instr.specs.Words.{meaning_of, operations, casts};

use crate::addresses::address;
use crate::arithmetic::binary;
use crate::calls::{call, words_to_opcode};
use crate::casts::{cast, freeze};
use crate::comparing::compare;
use crate::control::{jump_or_branch, return_behind};
use crate::memory::{alloca, load, store};
use crate::selecting::{phi, select};
use crate::switching::switch;
use crate::words;
use crate::words::{is_opcode, is_resultless};
use ir_lex::token::{Cause, TokenKind};
use ir_text::cursor::{Cursor, Lexeme};
use ir_text::fault::{Fault, ReadEnd};
use ir_text::layouts::TypeLayouts;
use ir_text::leaves::{bad, is_word};
use ir_text::named::NamedTypes;
use ir_text::tails::tails;
use ir_tree::instruction::Instruction;
use ir_tree::nodes::NameId;
use ir_tree::table::Names;

/// Passes over what stands behind an instruction that was read.
fn finished(
    cursor: &mut Cursor<'_>,
    read: Result<Instruction, ReadEnd>,
) -> Result<Instruction, ReadEnd>
    ensures reads { (later : Table) (o : _) → Reads (shown later) cursor.old read o → Reads (shown later) cursor.new result (tailed o) }
    ensures result { (to : _) → IfOk read (λ i. result_of i ≡ to) → IfOk result (λ i. result_of i ≡ to) }
{
    let found = match read {
        Ok(found) => found,
        Err(end) => return Err(end),
    };
    tails(cursor)?;
    Ok(found)
}

/// Reads `call` and what is behind it; `first` is the first of the markers before it.
#[tactic(auto, unfolding(crate::specs::Instructions::marked_call))]
fn marked_call(
    cursor: &mut Cursor<'_>,
    names: &mut Names,
    known: &NamedTypes,
    to: Option<NameId>,
    first: &Lexeme<'_>,
) -> Result<Instruction, ReadEnd>
    ensures reads { (later : Table) → Grows names.new later → Reads (shown later) cursor.new result (spec.marked_call (known_of later known.now) (option_map (name_at later) to) first.now cursor.old) }
    ensures result { IfOk result (λ i. result_of i ≡ to) }
    ensures grows { Grows names.old names.new }
{
    let lexeme = match cursor.next() {
        Some(lexeme) => lexeme,
        None => return Err(ReadEnd::Bad(Fault::Ended)),
    };
    if !is_word(&lexeme, b"call") {
        return Err(bad(cursor.alloc(), first, Cause::Instruction));
    }
    let read = call(cursor, names, known, to);
    finished(cursor, read)
}

/// Reads a call from its first token on, which stays till then: words that begin no instruction may stand before `call`.
fn call_from(
    cursor: &mut Cursor<'_>,
    names: &mut Names,
    known: &NamedTypes,
    to: Option<NameId>,
    first: &Lexeme<'_>,
) -> Result<Instruction, ReadEnd>
    ensures reads { (later : Table) → Grows names.new later → Reads (shown later) cursor.new result (spec.call_from (known_of later known.now) (option_map (name_at later) to) first.now cursor.old) }
    ensures result { IfOk result (λ i. result_of i ≡ to) }
    ensures grows { Grows names.old names.new }
{
    words_to_opcode(cursor)?;
    marked_call(cursor, names, known, to, first)
}

/// Reads an instruction that has a result and names no type of memory, from its word on.
#[tactic(auto, using(crate::proofs::Openings::some_tokens))]
fn plain(
    cursor: &mut Cursor<'_>,
    names: &mut Names,
    known: &NamedTypes,
    to: NameId,
    first: &Lexeme<'_>,
) -> Result<Instruction, ReadEnd>
    requires { cursor.old ≡ first.now ∷ drop 1 cursor.old }
    ensures reads { (later : Table) → Grows names.new later → Reads (shown later) cursor.new result (plain_at (known_of later known.now) (name_at later to) first.now (drop 1 cursor.old)) }
    ensures result { IfOk result (λ i. result_of i ≡ Some to) }
    ensures grows { Grows names.old names.new }
{
    let text = first.bytes();
    if text == b"freeze".as_slice() {
        cursor.skip();
        let read = freeze(cursor, names, known, to);
        return finished(cursor, read);
    }
    if text == b"icmp".as_slice() {
        cursor.skip();
        let read = compare(cursor, names, known, to);
        return finished(cursor, read);
    }
    if text == b"select".as_slice() {
        cursor.skip();
        let read = select(cursor, names, known, to);
        return finished(cursor, read);
    }
    if text == b"phi".as_slice() {
        cursor.skip();
        return phi(cursor, names, known, to);
    }
    if text == b"load".as_slice() {
        cursor.skip();
        let read = load(cursor, names, known, to);
        return finished(cursor, read);
    }
    if is_resultless(text) {
        return Err(bad(cursor.alloc(), first, Cause::Instruction));
    }
    call_from(cursor, names, known, Some(to), first)
}

/// Reads an instruction that has a result and is no operation and no change of width, from its word on.
fn other(
    cursor: &mut Cursor<'_>,
    names: &mut Names,
    known: &NamedTypes,
    layouts: &mut TypeLayouts,
    to: NameId,
    first: &Lexeme<'_>,
) -> Result<Instruction, ReadEnd>
    requires first { cursor.old ≡ first.now ∷ drop 1 cursor.old }
    requires types { AreTypes names.old known.now }
    requires laid { AreLaid (layout_in known.now) names.old layouts.old }
    ensures reads { (later : Table) → Grows names.new later → Reads (shown later) cursor.new result (spec.other_at (known_of later known.now) (name_at later to) first.now (drop 1 cursor.old)) }
    ensures result { IfOk result (λ i. result_of i ≡ Some to) }
    ensures grows { Grows names.old names.new }
    ensures laid { AreLaid (layout_in known.now) names.new layouts.new }
{
    names.is_table();
    let text = first.bytes();
    if text == b"alloca".as_slice() {
        cursor.skip();
        return alloca(cursor, names, known, layouts, to);
    }
    if text == b"getelementptr".as_slice() {
        cursor.skip();
        return address(cursor, names, known, layouts, to);
    }
    plain(cursor, names, known, to, first)
}

/// Reads a change of width, or another instruction that has a result and is no operation, from its word on.
#[tactic(auto, using(crate::proofs::Openings::some_tokens))]
fn cast_or_other(
    cursor: &mut Cursor<'_>,
    names: &mut Names,
    known: &NamedTypes,
    layouts: &mut TypeLayouts,
    to: NameId,
    first: &Lexeme<'_>,
) -> Result<Instruction, ReadEnd>
    requires first { cursor.old ≡ first.now ∷ drop 1 cursor.old }
    requires types { AreTypes names.old known.now }
    requires laid { AreLaid (layout_in known.now) names.old layouts.old }
    ensures reads { (later : Table) → Grows names.new later → Reads (shown later) cursor.new result (spec.cast_or_other (known_of later known.now) (meaning_of casts first.now.text) (name_at later to) first.now (drop 1 cursor.old)) }
    ensures result { IfOk result (λ i. result_of i ≡ Some to) }
    ensures grows { Grows names.old names.new }
    ensures laid { AreLaid (layout_in known.now) names.new layouts.new }
{
    names.is_table();
    match words::cast(first.bytes()) {
        Some(op) => {
            cursor.skip();
            let read = cast(cursor, names, known, to, op);
            finished(cursor, read)
        }
        None => other(cursor, names, known, layouts, to, first),
    }
}

/// Reads an operation, or another instruction that has a result, from its word on.
#[tactic(auto, using(crate::proofs::Openings::some_tokens))]
fn binary_or_other(
    cursor: &mut Cursor<'_>,
    names: &mut Names,
    known: &NamedTypes,
    layouts: &mut TypeLayouts,
    to: NameId,
    first: &Lexeme<'_>,
) -> Result<Instruction, ReadEnd>
    requires first { cursor.old ≡ first.now ∷ drop 1 cursor.old }
    requires types { AreTypes names.old known.now }
    requires laid { AreLaid (layout_in known.now) names.old layouts.old }
    ensures reads { (later : Table) → Grows names.new later → Reads (shown later) cursor.new result (spec.binary_or_other (known_of later known.now) (meaning_of operations first.now.text) (name_at later to) first.now (drop 1 cursor.old)) }
    ensures result { IfOk result (λ i. result_of i ≡ Some to) }
    ensures grows { Grows names.old names.new }
    ensures laid { AreLaid (layout_in known.now) names.new layouts.new }
{
    names.is_table();
    match words::operation(first.bytes()) {
        Some(op) => {
            cursor.skip();
            let read = binary(cursor, names, known, to, op);
            finished(cursor, read)
        }
        None => cast_or_other(cursor, names, known, layouts, to, first),
    }
}

/// Reads an instruction behind the name of its result.
#[tactic(auto, unfolding(crate::specs::Instructions::resulting_at))]
pub fn resulting(
    cursor: &mut Cursor<'_>,
    names: &mut Names,
    known: &NamedTypes,
    layouts: &mut TypeLayouts,
    to: NameId,
) -> Result<Instruction, ReadEnd>
    requires types { AreTypes names.old known.now }
    requires laid { AreLaid (layout_in known.now) names.old layouts.old }
    ensures reads { (later : Table) → Grows names.new later → Reads (shown later) cursor.new result (spec.resulting_at (known_of later known.now) (name_at later to) cursor.old) }
    ensures result { IfOk result (λ i. result_of i ≡ Some to) }
    ensures grows { Grows names.old names.new }
    ensures laid { AreLaid (layout_in known.now) names.new layouts.new }
{
    let first = match cursor.peek() {
        Some(first) => first,
        None => return Err(ReadEnd::Bad(Fault::Ended)),
    };
    match first.kind() {
        TokenKind::Word => binary_or_other(cursor, names, known, layouts, to, &first),
        _ => Err(bad(cursor.alloc(), &first, Cause::Instruction)),
    }
}

/// Whether a word begins an instruction with a result, but for `call`.
fn needs_result(text: &[u8]) -> bool
    ensures { result ≡ needs_result text.now }
{
    if text == b"call".as_slice() {
        return false;
    }
    is_opcode(text)
}

/// Passes over what stands behind `unreachable`.
#[tactic(auto, unfolding(ir_tree::specs::Shown::shown))]
fn unreachable(cursor: &mut Cursor<'_>) -> Result<Instruction, ReadEnd>
    ensures reads { (later : Table) → Reads (shown later) cursor.new result (tailed (Ok (instruction.Unreachable, cursor.old))) }
    ensures result { IfOk result (λ i. result_of i ≡ None) }
{
    tails(cursor)?;
    Ok(Instruction::Unreachable)
}

/// Reads an instruction without a result, from its word on.
#[tactic(auto, using(crate::proofs::Openings::some_tokens))]
fn effect_of(
    cursor: &mut Cursor<'_>,
    names: &mut Names,
    known: &NamedTypes,
    first: &Lexeme<'_>,
) -> Result<Instruction, ReadEnd>
    requires { cursor.old ≡ first.now ∷ drop 1 cursor.old }
    ensures reads { (later : Table) → Grows names.new later → Reads (shown later) cursor.new result (spec.effect_of (known_of later known.now) first.now (drop 1 cursor.old)) }
    ensures result { IfOk result (λ i. result_of i ≡ None) }
    ensures grows { Grows names.old names.new }
{
    let text = first.bytes();
    if text == b"store".as_slice() {
        cursor.skip();
        let read = store(cursor, names, known);
        return finished(cursor, read);
    }
    if text == b"ret".as_slice() {
        cursor.skip();
        let read = return_behind(cursor, names, known);
        return finished(cursor, read);
    }
    if text == b"br".as_slice() {
        cursor.skip();
        let read = jump_or_branch(cursor, names, known);
        return finished(cursor, read);
    }
    if text == b"switch".as_slice() {
        cursor.skip();
        let read = switch(cursor, names, known);
        return finished(cursor, read);
    }
    if text == b"unreachable".as_slice() {
        cursor.skip();
        return unreachable(cursor);
    }
    if needs_result(text) {
        return Err(bad(cursor.alloc(), first, Cause::Instruction));
    }
    call_from(cursor, names, known, None, first)
}

/// Reads an instruction without a result.
#[tactic(auto, unfolding(crate::specs::Instructions::effect_at))]
pub fn effect(
    cursor: &mut Cursor<'_>,
    names: &mut Names,
    known: &NamedTypes,
) -> Result<Instruction, ReadEnd>
    ensures reads { (later : Table) → Grows names.new later → Reads (shown later) cursor.new result (spec.effect_at (known_of later known.now) cursor.old) }
    ensures result { IfOk result (λ i. result_of i ≡ None) }
    ensures grows { Grows names.old names.new }
{
    let first = match cursor.peek() {
        Some(first) => first,
        None => return Err(ReadEnd::Bad(Fault::Ended)),
    };
    match first.kind() {
        TokenKind::Word => effect_of(cursor, names, known, &first),
        _ => Err(bad(cursor.alloc(), &first, Cause::Instruction)),
    }
}
