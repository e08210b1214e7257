//! `switch`, behind its word.

ghost use Rattle.std.specs.Prelude.{◌≡◌, ◌<◌, ◌∷◌, [], false, not, nat_eq, IfOk, OnOk, OnErr, length, map};
ghost use Rattle.std.specs.List.{list_any};
ghost use Rattle.ir_tree.specs.Table.{Table};
ghost use Rattle.ir_tree.specs.Naming.{Grows, constant_at};
ghost use Rattle.ir_tree.specs.Shown.{shown, shown_case};
ghost use Rattle.ir_text.specs.Reading.{Reads, next_is};
ghost use Rattle.ir_text.specs.Tokens.{is_mark};
ghost use Rattle.ir_text.specs.Named.{known_of};
ghost use Rattle.ir_instr.specs.Control as spec;
ghost use Rattle.ir_instr.specs.Scalars.{type_of};
ghost use Rattle.ir_instr.specs.Switching.{node_bits, cases_at};
ghost use Rattle.ir_instr.specs.Results.{result_of};
ghost use Rattle.ir_text.specs.Constants.{width_of};
ghost use Rattle.int_num.specs.Integer.{IsWidth};

use crate::parts::{Scalar, fixed_type, integer_type, number, target, typed_operand};
use indexmap::IndexSet;
use ir_lex::token::Cause;
use ir_text::cursor::Cursor;
use ir_text::fault::{Fault, ReadEnd};
use ir_text::leaves::{bad, is_mark, mark};
use ir_text::named::NamedTypes;
use ir_text::operands::read_constant;
use ir_tree::instruction::{Case, Instruction};
use ir_tree::nodes::{ConstantId, ConstantNode};
use ir_tree::table::Names;
use pv_base::list::List;
use pv_base::want::Memory;
use std::alloc::Global;
use std::marker::Model;

/// The bits of the cases of a switch, the last one first, each found by hashing it.
#[derive(Drop)]
struct CaseBits {
    bits: IndexSet<u64>,
}

impl Model for CaseBits {
    ghost use Rattle.std.specs.Prelude.{List, ℕ, reverse};

    ghost Value = { List ℕ };

    ghost view = { λ c. reverse c.bits.keys };
}

impl CaseBits {
    fn new(alloc: Global) -> CaseBits
        ensures { result ≡ [] }
    {
        CaseBits {
            bits: IndexSet::new(alloc),
        }
    }

    /// Whether a case has these bits.
    fn contains(&self, bits: u64) -> bool
        ensures { result ≡ list_any (nat_eq bits) self.now }
    {
        self.bits.contains(&bits)
    }

    /// Adds the bits of one more case.
    fn push(&mut self, bits: u64) -> Result<(), Memory>
        requires { list_any (nat_eq bits) self.old ≡ false }
        ensures ok { OnOk result (self.new ≡ bits ∷ self.old) }
        ensures err { OnErr result (self.new ≡ self.old) }
    {
        match self.bits.insert(bits) {
            Ok(_) => Ok(()),
            Err(_) => Err(Memory),
        }
    }
}

/// The bits of a constant's node, which only a number has.
fn bits_of_node(node: &ConstantNode) -> Option<u64>
    ensures { result ≡ node_bits node.now }
{
    match node {
        ConstantNode::Integer(value) => Some(value.bits()),
        ConstantNode::Zero => Some(0),
        _ => None,
    }
}

/// The bits of a constant, which only a number has.
fn bits_of(names: &Names, value: ConstantId) -> Option<u64>
    requires { value < length names.now.constants }
    ensures { (later : Table) → Grows names.now later → result ≡ spec.bits_of (constant_at later value) }
{
    match names.constant_node(value) {
        Some(node) => bits_of_node(node),
        None => None,
    }
}

/// The width of the integers at a type.
fn width_of(of: Scalar) -> u32
    ensures width { result ≡ width_of (type_of of) }
    ensures range { IsWidth result }
{
    match of {
        Scalar::Int(width) if width >= 1 && width <= 64 => width,
        _ => 64,
    }
}

/// Notes the bits of a case's value, and says whether a case before has them.
fn is_met(earlier: &mut CaseBits, bits: Option<u64>) -> Result<bool, Memory>
    ensures met { IfOk result (λ met. met ≡ spec.met_before earlier.old bits) }
    ensures noted { IfOk result (λ met. met ≡ false → earlier.new ≡ spec.with_bits earlier.old bits) }
{
    let bits = match bits {
        Some(bits) => bits,
        None => return Ok(false),
    };
    if earlier.contains(bits) {
        return Ok(true);
    }
    earlier.push(bits)?;
    Ok(false)
}

/// Reads the value of a case, which is none of those before.
fn case_value(
    cursor: &mut Cursor<'_>,
    names: &mut Names,
    known: &NamedTypes,
    of: Scalar,
    earlier: &mut CaseBits,
) -> Result<ConstantId, ReadEnd>
    ensures reads { (later : Table) → Grows names.new later → Reads (constant_at later) cursor.new result (spec.case_value_at (known_of later known.now) (type_of of) earlier.old cursor.old) }
    ensures noted { IfOk result (λ k. (later : Table) → Grows names.new later → earlier.new ≡ spec.with_bits earlier.old (spec.bits_of (constant_at later k))) }
    ensures grows { Grows names.old names.new }
    ensures shorter { OnOk result (length cursor.new < length cursor.old) }
{
    let first = match cursor.peek() {
        Some(first) => first,
        None => return Err(ReadEnd::Bad(Fault::Ended)),
    };
    let value = read_constant(cursor, names, known, width_of(of))?;
    let bits = bits_of(names, value);
    match is_met(earlier, bits)? {
        true => Err(bad(cursor.alloc(), &first, Cause::Duplicate)),
        false => Ok(value),
    }
}

/// Reads `iN c, label %to`.
#[tactic(auto, using(ir_text::proofs::Later::later))]
fn case(
    cursor: &mut Cursor<'_>,
    names: &mut Names,
    known: &NamedTypes,
    of: Scalar,
    earlier: &mut CaseBits,
) -> Result<Case, ReadEnd>
    ensures reads { (later : Table) → Grows names.new later → Reads (shown_case later) cursor.new result (spec.case_at (known_of later known.now) (type_of of) earlier.old cursor.old) }
    ensures noted { IfOk result (λ c. (later : Table) → Grows names.new later → earlier.new ≡ spec.with_case earlier.old (shown_case later c)) }
    ensures grows { Grows names.old names.new }
    ensures shorter { OnOk result (length cursor.new < length cursor.old) }
{
    fixed_type(cursor, of)?;
    let value = case_value(cursor, names, known, of, earlier)?;
    mark(cursor, b',')?;
    let to = target(cursor, names)?;
    Ok(Case { value, to })
}

/// Whether a case comes next.
#[tactic(auto, unfolding(ir_text::specs::Reading::next_is))]
fn sees_case(cursor: &Cursor<'_>) -> bool
    ensures { result ≡ next_is (λ t. not (is_mark 93 t)) cursor.now }
{
    match cursor.peek() {
        None => false,
        Some(lexeme) => !is_mark(&lexeme, b']'),
    }
}

/// Reads cases up to a `]`.
fn cases(
    cursor: &mut Cursor<'_>,
    names: &mut Names,
    known: &NamedTypes,
    of: Scalar,
) -> Result<List<Case>, ReadEnd>
    ensures reads { (later : Table) → Grows names.new later → Reads (map (shown_case later)) cursor.new result (cases_at (known_of later known.now) (type_of of) cursor.old) }
    ensures grows { Grows names.old names.new }
{
    let mut earlier = CaseBits::new(cursor.alloc());
    let mut cases = List::new(cursor.alloc());
    'cases: while sees_case(cursor) {
        let case = case(cursor, names, known, of, &mut earlier)?;
        cases.push(case)?;
    }
    Ok(cases)
}

/// Reads `iN A, label %default [ iN c, label %to .. ]`, behind `switch`.
#[tactic(auto, using(ir_text::proofs::Later::later), unfolding(ir_tree::specs::Shown::shown))]
pub fn switch(
    cursor: &mut Cursor<'_>,
    names: &mut Names,
    known: &NamedTypes,
) -> Result<Instruction, ReadEnd>
    ensures reads { (later : Table) → Grows names.new later → Reads (shown later) cursor.new result (spec.switch_at (known_of later known.now) cursor.old) }
    ensures result { IfOk result (λ i. result_of i ≡ None) }
    ensures grows { Grows names.old names.new }
{
    let scalar = integer_type(cursor)?;
    let value = typed_operand(cursor, names, known, scalar)?;
    mark(cursor, b',')?;
    let default = target(cursor, names)?;
    mark(cursor, b'[')?;
    let cases = cases(cursor, names, known, scalar)?;
    mark(cursor, b']')?;
    let of = number(names, scalar)?;
    Ok(Instruction::Switch {
        of,
        value,
        default,
        cases,
    })
}
