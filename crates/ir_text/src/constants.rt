//! Constants of one token.

ghost use Rattle.std.specs.Prelude.{◌≡◌, ◌<◌, ◌≤◌, length, IfOk, OnOk};
ghost use Rattle.int_num.specs.Integer.{IsWidth};
ghost use Rattle.ir_tree.specs.Table.{Table};
ghost use Rattle.ir_tree.specs.Naming.{Grows, constant_at, type_at};
ghost use Rattle.ir_text.specs.Reading.{Reads, meant};
ghost use Rattle.ir_lex.specs.Spelling.{integer_of};
ghost use Rattle.ir_tree.specs.Trees.{NameC};
ghost use Rattle.ir_text.specs.Leaves.{spelled_name};
ghost use Rattle.ir_text.specs.Constants as spec;

use crate::cursor::{Cursor, Lexeme};
use crate::fault::ReadEnd;
use crate::leaves::bad;
use crate::names::number_of;
use int_num::int::Int;
use ir_lex::token::{Cause, Integer, TokenKind};
use ir_tree::nodes::{ConstantId, TypeId, TypeNode};
use ir_tree::table::Names;

/// The width of an integer at a type of this node.
fn node_width(node: &TypeNode) -> u32
    ensures width { result ≡ spec.node_width node.now }
    ensures range { IsWidth result }
{
    match node {
        TypeNode::Int(width) => {
            if *width >= 1 && *width <= 64 {
                *width
            } else {
                64
            }
        }
        _ => 64,
    }
}

/// The width of an integer at a type: the type's own, and 64 where it is no integer type.
#[tactic(auto, using(crate::proofs::Widths::width_later))]
pub fn width_of(names: &Names, of: TypeId) -> u32
    requires { of < length names.now.types }
    ensures width { (later : Table) → Grows names.now later → result ≡ spec.width_of (type_at later of) }
    ensures range { IsWidth result }
{
    match names.type_node(of) {
        Some(node) => node_width(node),
        None => 64,
    }
}

/// The integer of a width, if it is from -2^(N-1) to 2^N - 1.
#[tactic(auto, unfolding(crate::specs::Constants::integer_in))]
pub fn integer_in(width: u32, written: Integer) -> Option<Int>
    requires { IsWidth width }
    ensures { result ≡ spec.integer_in width written }
{
    if written.negative && written.magnitude != 0 {
        if written.magnitude <= 1u128 << (width - 1) {
            let bits = (1u128 << width) - written.magnitude;
            return Some(Int::new(width, bits as u64));
        }
        return None;
    }
    if written.magnitude < 1u128 << width {
        return Some(Int::new(width, written.magnitude as u64));
    }
    None
}

/// `true`, `false`, `null` or `zeroinitializer`.
#[tactic(auto, unfolding(crate::specs::Constants::word_constant))]
fn word_constant(
    cursor: &Cursor<'_>,
    names: &mut Names,
    lexeme: &Lexeme<'_>,
) -> Result<ConstantId, ReadEnd>
    ensures reads { (later : Table) (rest : _) → Grows names.new later → Reads (constant_at later) rest result (meant (spec.word_constant lexeme.now.text) lexeme.now rest) }
    ensures within { IfOk result (λ k. k < length names.new.constants) }
    ensures grows { Grows names.old names.new }
{
    let text = lexeme.bytes();
    if text == b"true".as_slice() {
        return Ok(names.integer(Int::new(1, 1))?);
    }
    if text == b"false".as_slice() {
        return Ok(names.integer(Int::new(1, 0))?);
    }
    if text == b"null".as_slice() {
        return Ok(names.null()?);
    }
    if text == b"zeroinitializer".as_slice() {
        return Ok(names.zero()?);
    }
    Err(bad(cursor.alloc(), lexeme, Cause::Operand))
}

/// An integer at a width.
fn integer(
    cursor: &Cursor<'_>,
    names: &mut Names,
    lexeme: &Lexeme<'_>,
    width: u32,
) -> Result<ConstantId, ReadEnd>
    requires kind { lexeme.now.kind ≡ TokenKind.Integer }
    requires width { IsWidth width }
    ensures reads { (later : Table) (rest : _) → Grows names.new later → Reads (constant_at later) rest result (meant (spec.some_constant (spec.integer_in width (integer_of lexeme.now.text))) lexeme.now rest) }
    ensures within { IfOk result (λ k. k < length names.new.constants) }
    ensures grows { Grows names.old names.new }
{
    match integer_in(width, lexeme.integer()) {
        Some(value) => Ok(names.integer(value)?),
        None => Err(bad(cursor.alloc(), lexeme, Cause::Number)),
    }
}

/// `@name`
#[tactic(auto, using(crate::proofs::Later::later))]
fn global(
    cursor: &Cursor<'_>,
    names: &mut Names,
    lexeme: &Lexeme<'_>,
) -> Result<ConstantId, ReadEnd>
    requires { lexeme.now.kind ≡ TokenKind.GlobalName }
    ensures reads { (later : Table) (rest : _) → Grows names.new later → Reads (constant_at later) rest result (meant (Ok (NameC (spelled_name lexeme.now))) lexeme.now rest) }
    ensures within { IfOk result (λ k. k < length names.new.constants) }
    ensures grows { Grows names.old names.new }
{
    let name = number_of(cursor, lexeme, names)?;
    Ok(names.name_of(name)?)
}

/// A constant of one token, at a width.
pub fn simple_constant(
    cursor: &Cursor<'_>,
    names: &mut Names,
    lexeme: &Lexeme<'_>,
    width: u32,
) -> Result<ConstantId, ReadEnd>
    requires { IsWidth width }
    ensures reads { (later : Table) (rest : _) → Grows names.new later → Reads (constant_at later) rest result (meant (spec.simple_constant width lexeme.now) lexeme.now rest) }
    ensures within { IfOk result (λ k. k < length names.new.constants) }
    ensures grows { Grows names.old names.new }
{
    match lexeme.kind() {
        TokenKind::Integer => integer(cursor, names, lexeme, width),
        TokenKind::Word => word_constant(cursor, names, lexeme),
        TokenKind::GlobalName => global(cursor, names, lexeme),
        _ => Err(bad(cursor.alloc(), lexeme, Cause::Operand)),
    }
}
