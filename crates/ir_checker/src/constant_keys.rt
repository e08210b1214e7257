//! Keys of constants: two constants are the same exactly where their keys are, so that the constants of a table are not compared in pairs.
ghost use Rattle.std.specs.Prelude.{◌≡◌, ℕ, ◌+◌, ◌≤◌, ◌<◌, [], map, length, slice_get, Some, IfOk, OnOk};
ghost use Rattle.ir_rules.specs.Classes.{class_at};
ghost use Rattle.ir_checker.specs.ConstantKeys.{constant_key, elements_key};
ghost use Rattle.ir_checker.specs.declared.constant_keys.ConstantKey.{ConstantKey};

use indexmap::IndexSet;
use ir_rules::classes::class_at;
use ir_rules::parts::Parts;
use ir_tree::nodes::{ConstantNode, Element, NameId};
use pv_base::bytes::Bytes;
use pv_base::want::Memory;
use std::alloc::Global;
use std::marker::Model;

/// The elements of a constant, by the classes of their types and of the constants themselves.
#[derive(Drop, PartialEq, Eq, Hash)]
pub struct ElementsKey {
    pub types: Parts,
    pub values: Parts,
}

/// A constant by its outermost level, with the classes of the types and constants in it.
#[derive(Drop, PartialEq, Eq, Hash)]
pub enum ConstantKey {
    Integer {
        width: u32,
        bits: u64,
    },
    /// `null`
    Null,
    /// `zeroinitializer`
    Zero,
    /// `c".."`, by its bytes
    Text(Bytes),
    /// `[ T c, .. ]`
    Array(ElementsKey),
    /// `{ T c, .. }`, or the packed `<{ T c, .. }>`
    Struct {
        packed: bool,
        fields: ElementsKey,
    },
    /// `@name`
    Name(NameId),
    /// `getelementptr (of, ptr base, iN index, ..)`
    Address {
        of: usize,
        base: usize,
        indices: ElementsKey,
    },
}

/// Keys by number, in the order in which they came.
#[derive(Drop)]
pub struct ConstantKeys {
    keys: IndexSet<ConstantKey>,
}

impl Model for ConstantKeys {
    ghost use Rattle.std.specs.Prelude.{List};
    ghost use Rattle.ir_checker.specs.declared.constant_keys.ConstantKey.{ConstantKey};

    ghost Value = { List ConstantKey };

    ghost view = { λ k. k.keys.keys };
}

impl ConstantKeys {
    /// No keys.
    pub fn new(alloc: Global) -> ConstantKeys
        ensures { result ≡ [] }
    {
        ConstantKeys {
            keys: IndexSet::new(alloc),
        }
    }

    /// The number of a key, a new one where it has none.
    pub fn number(&mut self, key: ConstantKey) -> Result<usize, Memory>
        ensures known { IfOk result (λ k. slice_get self.new k ≡ Some key) }
        ensures only { IfOk result (λ k. (j : ℕ) → slice_get self.new j ≡ Some key → j ≡ k) }
        ensures kept { OnOk result ((j : ℕ) (x : ConstantKey) → slice_get self.old j ≡ Some x → slice_get self.new j ≡ Some x) }
        ensures within { IfOk result (λ k. k < length self.new) }
        ensures len { OnOk result (length self.new ≤ length self.old + 1) }
    {
        let number = match self.keys.insert_full(key) {
            Ok((number, _)) => number,
            Err(_) => return Err(Memory),
        };
        Ok(number)
    }
}

fn type_parts(alloc: Global, classes: &[usize], elements: &[Element]) -> Result<Parts, Memory>
    ensures { IfOk result (λ p. p ≡ map (λ e. class_at classes.now e.of) elements.now) }
{
    let numbers = elements
        .iter()
        .map(|e| class_at(classes, e.of))
        .collect(alloc)?;
    Ok(Parts::from_vec(numbers))
}

fn value_parts(alloc: Global, kinds: &[usize], elements: &[Element]) -> Result<Parts, Memory>
    ensures { IfOk result (λ p. p ≡ map (λ e. class_at kinds.now e.value) elements.now) }
{
    let numbers = elements
        .iter()
        .map(|e| class_at(kinds, e.value))
        .collect(alloc)?;
    Ok(Parts::from_vec(numbers))
}

fn elements_key(
    alloc: Global,
    classes: &[usize],
    kinds: &[usize],
    elements: &[Element],
) -> Result<ElementsKey, Memory>
    ensures { IfOk result (λ k. k ≡ elements_key (class_at classes.now) (class_at kinds.now) elements.now) }
{
    let types = type_parts(alloc, classes, elements)?;
    let values = value_parts(alloc, kinds, elements)?;
    Ok(ElementsKey { types, values })
}

/// The key of a constant, where the types and the constants in it have classes.
pub fn constant_key(
    alloc: Global,
    classes: &[usize],
    kinds: &[usize],
    node: &ConstantNode,
) -> Result<ConstantKey, Memory>
    ensures { IfOk result (λ k. k ≡ constant_key (class_at classes.now) (class_at kinds.now) node.now) }
{
    let key = match node {
        ConstantNode::Integer(number) => ConstantKey::Integer {
            width: number.width(),
            bits: number.bits(),
        },
        ConstantNode::Null => ConstantKey::Null,
        ConstantNode::Zero => ConstantKey::Zero,
        ConstantNode::Text(bytes) => ConstantKey::Text(bytes.copy()?),
        ConstantNode::Array(elements) => {
            ConstantKey::Array(elements_key(alloc, classes, kinds, elements.as_slice())?)
        }
        ConstantNode::Struct { packed, fields } => ConstantKey::Struct {
            packed: *packed,
            fields: elements_key(alloc, classes, kinds, fields.as_slice())?,
        },
        ConstantNode::Name(name) => ConstantKey::Name(*name),
        ConstantNode::Address { of, base, indices } => ConstantKey::Address {
            of: class_at(classes, *of),
            base: class_at(kinds, *base),
            indices: elements_key(alloc, classes, kinds, indices.as_slice())?,
        },
    };
    Ok(key)
}
