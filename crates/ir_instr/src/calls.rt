//! `call`, behind its word.

ghost use Rattle.std.specs.Prelude.{◌≡◌, [], true, ◌||◌, ◌<◌, length, false, IfOk, OnOk, map, option_map};
ghost use Rattle.ir_tree.specs.Table.{Table};
ghost use Rattle.ir_tree.specs.Naming.{Grows, name_at, type_at};
ghost use Rattle.ir_tree.specs.Shown.{shown, shown_argument, shown_callee};
ghost use Rattle.ir_text.specs.Reading.{Reads, ReadsUnder, token_by};
ghost use Rattle.ir_text.specs.Lists.{after_comma, list_at, listed_at};
ghost use Rattle.ir_text.specs.Passed.{may_pass, stops, words_at};
ghost use Rattle.ir_text.specs.Repeated.{repeated};
ghost use Rattle.ir_text.specs.Tokens.{is_mark, is_points};
ghost use Rattle.ir_text.specs.Named.{known_of};
ghost use Rattle.ir_instr.specs.Words.{opcodes};
ghost use Rattle.ir_instr.specs.Calls as spec;
ghost use Rattle.ir_instr.specs.Gathering.{behind};
ghost use Rattle.ir_instr.specs.Results.{result_of};
ghost use Rattle.ir_instr.specs.Scalars.{result_of_type};

use crate::control::result_type;
use crate::parts::{Scalar, number, register, typed_operand};
use crate::words::OPCODES;
use ir_lex::token::{Cause, TokenKind};
use ir_text::cursor::{Cursor, Lexeme};
use ir_text::fault::{Fault, ReadEnd};
use ir_text::leaves::{bad, eat, is_mark, is_refused, mark, sees, word};
use ir_text::named::NamedTypes;
use ir_text::names::number_of;
use ir_text::passed::{Stops, after_string, group, may_pass, sees_integer, some_integer, words};
use ir_tree::instruction::{Argument, Callee, Instruction};
use ir_tree::nodes::{NameId, TypeId};
use ir_tree::table::Names;
use pv_base::bytes::Bytes;
use pv_base::list::List;
use pv_base::want::Memory;

/// Whether a token stands behind the value of an argument.
fn ends_value(lexeme: &Lexeme<'_>) -> bool
    ensures { result ≡ (is_mark 44 lexeme.now || is_mark 41 lexeme.now) }
{
    is_mark(lexeme, b',') || is_mark(lexeme, b')')
}

/// Passes over a number that belongs to the word before it: it is no value, since neither `,` nor `)` stands behind it.
fn number_of_word(cursor: &mut Cursor<'_>) -> Result<(), ReadEnd>
    ensures { Reads (λ x. x) cursor.new result (spec.number_of_word cursor.old) }
{
    if !sees_integer(cursor) {
        return Ok(());
    }
    let behind = match cursor.peek_second() {
        Some(behind) => behind,
        None => return Err(ReadEnd::Bad(Fault::Ended)),
    };
    if ends_value(&behind) {
        return Ok(());
    }
    cursor.skip();
    Ok(())
}

/// Passes over what belongs to an attribute: a group in parentheses, or a number.
fn after_attribute(cursor: &mut Cursor<'_>) -> Result<(), ReadEnd>
    ensures { Reads (λ x. x) cursor.new result (spec.after_attribute cursor.old) }
{
    if eat(cursor, b'(') {
        return group(cursor);
    }
    number_of_word(cursor)
}

/// Passes over what belongs to a token between an argument's type and its value.
fn attribute(cursor: &mut Cursor<'_>, lexeme: &Lexeme<'_>) -> Result<(), ReadEnd>
    ensures { Reads (λ x. x) cursor.new result (spec.attribute_by lexeme.now.kind lexeme.now cursor.old) }
{
    match lexeme.kind() {
        TokenKind::Word => {
            if is_refused(lexeme) {
                Err(bad(cursor.alloc(), lexeme, Cause::Operand))
            } else {
                after_attribute(cursor)
            }
        }
        TokenKind::Text => after_string(cursor),
        _ => {
            if is_mark(lexeme, b'#') {
                some_integer(cursor)
            } else {
                Err(bad(cursor.alloc(), lexeme, Cause::Operand))
            }
        }
    }
}

/// Whether a token is an attribute, and no value.
fn is_attribute(lexeme: &Lexeme<'_>) -> bool
    ensures { result ≡ may_pass spec.begins_value lexeme.now }
{
    let value = Stops {
        words: &[
            b"true",
            b"false",
            b"null",
            b"zeroinitializer",
            b"getelementptr",
            b"c",
        ],
        types: false,
    };
    may_pass(&value, lexeme)
}

/// Passes over the attributes of an argument, between its type and its value.
fn attributes(cursor: &mut Cursor<'_>) -> Result<(), ReadEnd>
    ensures { Reads (λ x. x) cursor.new result (spec.attributes_at cursor.old) }
{
    while let Some(lexeme) = cursor.peek() {
        if !is_attribute(&lexeme) {
            return Ok(());
        }
        cursor.skip();
        attribute(cursor, &lexeme)?;
    }
    Ok(())
}

/// Reads an argument: `T A`, with attributes between them.
#[tactic(auto, using(ir_text::proofs::Later::later))]
fn argument(
    cursor: &mut Cursor<'_>,
    names: &mut Names,
    known: &NamedTypes,
) -> Result<Argument, ReadEnd>
    ensures reads { (later : Table) → Grows names.new later → Reads (shown_argument later) cursor.new result (spec.argument_at (known_of later known.now) cursor.old) }
    ensures grows { Grows names.old names.new }
    ensures shorter { OnOk result (length cursor.new < length cursor.old) }
{
    let scalar = register(cursor)?;
    attributes(cursor)?;
    let value = typed_operand(cursor, names, known, scalar)?;
    let of = number(names, scalar)?;
    Ok(Argument { of, value })
}

/// Reads an argument behind a comma.
#[tactic(auto, using(ir_text::proofs::Later::later))]
fn further_argument(
    cursor: &mut Cursor<'_>,
    names: &mut Names,
    known: &NamedTypes,
) -> Result<Argument, ReadEnd>
    ensures reads { (later : Table) → Grows names.new later → Reads (shown_argument later) cursor.new result (after_comma (spec.argument_at (known_of later known.now)) cursor.old) }
    ensures grows { Grows names.old names.new }
    ensures shorter { OnOk result (length cursor.new < length cursor.old) }
{
    mark(cursor, b',')?;
    argument(cursor, names, known)
}

/// Reads the arguments behind the first ones.
fn further_arguments(
    cursor: &mut Cursor<'_>,
    names: &mut Names,
    known: &NamedTypes,
    first: List<Argument>,
) -> Result<List<Argument>, ReadEnd>
    ensures reads { (later : Table) → Grows names.new later → Reads (map (shown_argument later)) cursor.new result (behind (map (shown_argument later) first) (repeated (is_mark 44) (after_comma (spec.argument_at (known_of later known.now))) cursor.old)) }
    ensures grows { Grows names.old names.new }
{
    let mut arguments = first;
    'arguments: while sees(cursor, b',') {
        let argument = further_argument(cursor, names, known)?;
        arguments.push(argument)?;
    }
    Ok(arguments)
}

/// Reads one argument or more.
#[tactic(auto, using(ir_text::proofs::Later::later))]
fn some_arguments(
    cursor: &mut Cursor<'_>,
    names: &mut Names,
    known: &NamedTypes,
) -> Result<List<Argument>, ReadEnd>
    ensures reads { (later : Table) → Grows names.new later → Reads (map (shown_argument later)) cursor.new result (listed_at (spec.argument_at (known_of later known.now)) cursor.old) }
    ensures grows { Grows names.old names.new }
{
    let mut first = List::new(cursor.alloc());
    first.push(argument(cursor, names, known)?)?;
    further_arguments(cursor, names, known, first)
}

/// Reads the arguments up to the parenthesis behind them.
#[tactic(auto, using(ir_text::proofs::Later::later), unfolding(ir_text::specs::Lists::list_at))]
fn arguments(
    cursor: &mut Cursor<'_>,
    names: &mut Names,
    known: &NamedTypes,
) -> Result<List<Argument>, ReadEnd>
    ensures reads { (later : Table) → Grows names.new later → Reads (map (shown_argument later)) cursor.new result (list_at 41 (spec.argument_at (known_of later known.now)) cursor.old) }
    ensures grows { Grows names.old names.new }
{
    if sees(cursor, b')') {
        mark(cursor, b')')?;
        return Ok(List::new(cursor.alloc()));
    }
    let arguments = some_arguments(cursor, names, known)?;
    mark(cursor, b')')?;
    Ok(arguments)
}

/// Whether a token is `...`.
fn is_points(lexeme: &Lexeme<'_>) -> bool
    ensures { result ≡ is_points lexeme.now }
{
    match lexeme.kind() {
        TokenKind::Punct => lexeme.bytes() == b"...".as_slice(),
        _ => false,
    }
}

/// Reads `...`.
#[tactic(auto, unfolding(ir_text::specs::Reading::token_by))]
fn points(cursor: &mut Cursor<'_>) -> Result<(), ReadEnd>
    ensures { Reads (λ x. x) cursor.new result (token_by spec.points cursor.old) }
{
    match cursor.next() {
        None => Err(ReadEnd::Bad(Fault::Ended)),
        Some(lexeme) => {
            if is_points(&lexeme) {
                Ok(())
            } else {
                Err(bad(cursor.alloc(), &lexeme, Cause::Operand))
            }
        }
    }
}

/// Reads `(ptr, ...)`, the one function type that may be written.
fn written(cursor: &mut Cursor<'_>) -> Result<bool, ReadEnd>
    ensures { Reads (λ x. x) cursor.new result (spec.written_at cursor.old) }
{
    mark(cursor, b'(')?;
    word(cursor, b"ptr")?;
    mark(cursor, b',')?;
    points(cursor)?;
    mark(cursor, b')')?;
    Ok(true)
}

/// Reads the function type where it is written, and says whether it is.
fn variadic(cursor: &mut Cursor<'_>) -> Result<bool, ReadEnd>
    ensures { Reads (λ x. x) cursor.new result (spec.variadic_at cursor.old) }
{
    match sees(cursor, b'(') {
        true => written(cursor),
        false => Ok(false),
    }
}

/// Reads what is called: `@f`, or `%p` where no function type is written.
#[tactic(auto, using(ir_text::proofs::Later::later), unfolding(ir_text::specs::Reading::token_by))]
fn callee(cursor: &mut Cursor<'_>, names: &mut Names, is_written: bool) -> Result<Callee, ReadEnd>
    ensures reads { ReadsUnder names.new shown_callee cursor.new result (token_by (spec.called is_written) cursor.old) }
    ensures grows { Grows names.old names.new }
{
    match cursor.next() {
        None => Err(ReadEnd::Bad(Fault::Ended)),
        Some(lexeme) => match (lexeme.kind(), is_written) {
            (TokenKind::GlobalName, _) => {
                Ok(Callee::Function(number_of(cursor, &lexeme, names)?))
            }
            (TokenKind::LocalName, false) => {
                Ok(Callee::Pointer(number_of(cursor, &lexeme, names)?))
            }
            _ => Err(bad(cursor.alloc(), &lexeme, Cause::Name)),
        },
    }
}

/// Reads the type of a call's answer: with a result, a register's.
fn answer_type(cursor: &mut Cursor<'_>, to: Option<NameId>) -> Result<Option<Scalar>, ReadEnd>
    ensures { (later : Table) → Reads result_of_type cursor.new result (token_by (spec.answer_type (option_map (name_at later) to)) cursor.old) }
{
    match to {
        Some(_) => Ok(Some(register(cursor)?)),
        None => result_type(cursor),
    }
}

/// The number of a type of a result.
fn result_number(names: &mut Names, of: Option<Scalar>) -> Result<TypeId, Memory>
    ensures shows { IfOk result (λ k. (later : Table) → Grows names.new later → type_at later k ≡ result_of_type of) }
    ensures grows { Grows names.old names.new }
{
    match of {
        Some(of) => number(names, of),
        None => names.void(),
    }
}

/// Refuses operand bundles, which begin with `[`.
#[tactic(auto, unfolding(ir_text::specs::Reading::token_by))]
fn bundle(cursor: &mut Cursor<'_>) -> Result<(), ReadEnd>
    ensures { Reads (λ x. x) cursor.new result (token_by spec.bundle cursor.old) }
{
    match cursor.next() {
        None => Err(ReadEnd::Bad(Fault::Ended)),
        Some(lexeme) => {
            let what = Bytes::from_slice(cursor.alloc(), b"operand bundles")?;
            Err(bad(cursor.alloc(), &lexeme, Cause::OutOfProfile(what)))
        }
    }
}

/// Reads nothing where no operand bundles stand.
fn unbundled(cursor: &mut Cursor<'_>) -> Result<(), ReadEnd>
    ensures { Reads (λ x. x) cursor.new result (spec.unbundled cursor.old) }
{
    match sees(cursor, b'[') {
        true => bundle(cursor),
        false => Ok(()),
    }
}

/// Passes over words up to one that begins an instruction, or another token.
pub fn words_to_opcode(cursor: &mut Cursor<'_>) -> Result<(), ReadEnd>
    ensures { Reads (λ x. x) cursor.new result (words_at (stops opcodes false) cursor.old) }
{
    let opcodes = Stops {
        words: OPCODES,
        types: false,
    };
    words(cursor, &opcodes)
}

/// Passes over words up to one that begins a type, or another token.
fn words_to_type(cursor: &mut Cursor<'_>) -> Result<(), ReadEnd>
    ensures { Reads (λ x. x) cursor.new result (words_at (stops [] true) cursor.old) }
{
    let types = Stops {
        words: &[],
        types: true,
    };
    words(cursor, &types)
}

/// Reads `WORDS T @f(T A, ..) WORDS`, with a written function type behind T, behind `call`.
#[tactic(auto, using(ir_text::proofs::Later::later), unfolding(ir_tree::specs::Shown::shown))]
pub fn call(
    cursor: &mut Cursor<'_>,
    names: &mut Names,
    known: &NamedTypes,
    to: Option<NameId>,
) -> Result<Instruction, ReadEnd>
    ensures reads { (later : Table) → Grows names.new later → Reads (shown later) cursor.new result (spec.call_at (known_of later known.now) (option_map (name_at later) to) cursor.old) }
    ensures result { IfOk result (λ i. result_of i ≡ to) }
    ensures grows { Grows names.old names.new }
{
    words_to_type(cursor)?;
    let scalar = answer_type(cursor, to)?;
    let variadic = variadic(cursor)?;
    let callee = callee(cursor, names, variadic)?;
    mark(cursor, b'(')?;
    let arguments = arguments(cursor, names, known)?;
    words_to_opcode(cursor)?;
    unbundled(cursor)?;
    let of = result_number(names, scalar)?;
    Ok(Instruction::Call {
        to,
        of,
        variadic,
        callee,
        arguments,
    })
}
