//! Keys of types: two types are the same exactly where their keys are, so that the types of a table are not compared in pairs.
ghost use Rattle.std.specs.Prelude.{◌≡◌, ℕ, ◌+◌, ◌≤◌, ◌<◌, [], map, length, slice_get, Some, IfOk, OnOk};
ghost use Rattle.ir_rules.specs.Classes.{class_at};
ghost use Rattle.ir_rules.specs.TypeKeys.{type_key};
ghost use Rattle.ir_rules.specs.declared.type_keys.TypeKey.{TypeKey};

use crate::classes::class_at;
use crate::parts::Parts;
use indexmap::IndexSet;
use ir_tree::nodes::{NameId, TypeId, TypeNode};
use pv_base::want::Memory;
use std::alloc::Global;
use std::marker::Model;

/// A type by its outermost level, with the classes of the types in it.
#[derive(Drop, PartialEq, Eq, Hash)]
pub enum TypeKey {
    /// `iN`, by its width
    Int(u32),
    /// `ptr`
    Ptr,
    /// `void`
    Void,
    /// `[count x of]`
    Array { count: u128, of: usize },
    /// `{ T, .. }`, or the packed `<{ T, .. }>`
    Struct { packed: bool, fields: Parts },
    /// `%name`
    Named(NameId),
}

/// Keys by number, in the order in which they came.
#[derive(Drop)]
pub struct TypeKeys {
    keys: IndexSet<TypeKey>,
}

impl Model for TypeKeys {
    ghost use Rattle.std.specs.Prelude.{List};
    ghost use Rattle.ir_rules.specs.declared.type_keys.TypeKey.{TypeKey};

    ghost Value = { List TypeKey };

    ghost view = { λ k. k.keys.keys };
}

impl TypeKeys {
    /// No keys.
    pub fn new(alloc: Global) -> TypeKeys
        ensures { result ≡ [] }
    {
        TypeKeys {
            keys: IndexSet::new(alloc),
        }
    }

    /// The number of a key, a new one where it has none.
    pub fn number(&mut self, key: TypeKey) -> Result<usize, Memory>
        ensures known { IfOk result (λ k. slice_get self.new k ≡ Some key) }
        ensures only { IfOk result (λ k. (j : ℕ) → slice_get self.new j ≡ Some key → j ≡ k) }
        ensures kept { OnOk result ((j : ℕ) (x : TypeKey) → slice_get self.old j ≡ Some x → slice_get self.new j ≡ Some x) }
        ensures within { IfOk result (λ k. k < length self.new) }
        ensures len { OnOk result (length self.new ≤ length self.old + 1) }
    {
        let number = match self.keys.insert_full(key) {
            Ok((number, _)) => number,
            Err(_) => return Err(Memory),
        };
        Ok(number)
    }
}

fn field_classes(alloc: Global, classes: &[usize], fields: &[TypeId]) -> Result<Parts, Memory>
    ensures { IfOk result (λ p. p ≡ map (class_at classes.now) fields.now) }
{
    let numbers = fields.iter().map(|k| class_at(classes, *k)).collect(alloc)?;
    Ok(Parts::from_vec(numbers))
}

/// The key of a type, where the types in it have classes.
pub fn type_key(alloc: Global, classes: &[usize], node: &TypeNode) -> Result<TypeKey, Memory>
    ensures { IfOk result (λ k. k ≡ type_key (class_at classes.now) node.now) }
{
    let key = match node {
        TypeNode::Int(width) => TypeKey::Int(*width),
        TypeNode::Ptr => TypeKey::Ptr,
        TypeNode::Void => TypeKey::Void,
        TypeNode::Array { count, of } => TypeKey::Array {
            count: *count,
            of: class_at(classes, *of),
        },
        TypeNode::Struct { packed, fields } => TypeKey::Struct {
            packed: *packed,
            fields: field_classes(alloc, classes, fields.as_slice())?,
        },
        TypeNode::Named(name) => TypeKey::Named(*name),
    };
    Ok(key)
}
