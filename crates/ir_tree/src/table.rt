//! Names, types and constants, numbered in order of appearance.
ghost use Rattle.std.specs.Prelude.{◌≡◌, ℕ, ◌<◌, ◌++◌, ◌∷◌, Some, IfOk, OnOk, OnErr, slice_get, option_copied, length, All};
ghost use Rattle.ir_tree.specs.Table.{Table, TypeWithin, ConstantWithin, IsTable, with_name};
ghost use Rattle.ir_tree.specs.Trees.{IntV, PtrV, VoidV, ArrayV, StructV, NamedV};
ghost use Rattle.ir_tree.specs.Trees.{IntegerC, NullC, ZeroC, TextC, ArrayC, StructC, NameC, AddressC};
ghost use Rattle.ir_tree.specs.Naming.{Grows, Shows, ShowsConstant, ElementsWithin, type_at, types_at, constant_at, elements_at, name_at};

use crate::nodes::{ConstantId, ConstantNode, Element, NameId, TypeId, TypeNode};
use indexmap::IndexSet;
use int_num::int::Int;
use pv_base::bytes::Bytes;
use pv_base::list::List;
use pv_base::name::Name;
use pv_base::want::Memory;
use std::alloc::Global;
use std::marker::Model;

/// How many numbers a list has.
const NUMBERS: usize = 4294967296;

/// The names, types and constants of a module. Each call that adds one answers its number, and `Memory` where memory or
/// the 2^32 numbers are used up; the table is then unchanged.
pub struct Names {
    names: IndexSet<Name>,
    types: List<TypeNode>,
    constants: List<ConstantNode>,
}

impl Drop for Names {
    fn drop(self) {
        let Names {
            names: _,
            types: _,
            constants: _,
        } = self;
    }
}

impl Model for Names {
    ghost use Rattle.ir_tree.specs.Table.{Table, IsTable};

    ghost Value = { Table };

    ghost view = { λ n. record { names = n.names.keys; types = n.types; constants = n.constants } };

    ghost invariant = { λ n. IsTable (record { names = n.names.keys; types = n.types; constants = n.constants }) };
}

impl Names {
    ghost use Rattle.std.specs.Prelude.{[]};

    pub fn new(alloc: Global) -> Names
        ensures { result ≡ record { names = []; types = []; constants = [] } }
    {
        Names {
            names: IndexSet::new(alloc),
            types: List::new(alloc),
            constants: List::new(alloc),
        }
    }

    /// The number of a name, a new one where it has none.
    pub fn number(&mut self, name: Name) -> Result<NameId, Memory>
        ensures known { IfOk result (λ k. slice_get self.new.names k ≡ Some name) }
        ensures only { IfOk result (λ k. (j : ℕ) → slice_get self.new.names j ≡ Some name → j ≡ k) }
        ensures table { OnOk result (self.new ≡ record self.old { names = with_name self.old.names name }) }
        ensures grows { Grows self.old self.new }
        ensures err { OnErr result (self.new ≡ self.old) }
    {
        if self.names.len() >= NUMBERS {
            return Err(Memory);
        }
        let number = match self.names.insert_full(name) {
            Ok((number, _)) => number,
            Err(_) => return Err(Memory),
        };
        Ok(number as u32)
    }

    /// No name has two numbers, and what stands in a type or a constant has a smaller number.
    pub fn is_table(&self)
        ensures { IsTable self.now }
    {
        let _ = &self.names;
    }

    /// How many names there are.
    pub fn name_count(&self) -> usize
        ensures { result ≡ length self.now.names }
    {
        self.names.len()
    }

    /// How many types there are.
    pub fn type_count(&self) -> usize
        ensures { result ≡ length self.now.types }
    {
        self.types.len()
    }

    /// How many constants there are.
    pub fn constant_count(&self) -> usize
        ensures { result ≡ length self.now.constants }
    {
        self.constants.len()
    }

    pub fn name(&self, number: NameId) -> Option<&Name>
        ensures { option_copied result ≡ slice_get self.now.names number }
    {
        self.names.get_index(number as usize)
    }

    pub fn type_node(&self, number: TypeId) -> Option<&TypeNode>
        ensures { option_copied result ≡ slice_get self.now.types number }
    {
        self.types.as_slice().get(number as usize)
    }

    pub fn constant_node(&self, number: ConstantId) -> Option<&ConstantNode>
        ensures { option_copied result ≡ slice_get self.now.constants number }
    {
        self.constants.as_slice().get(number as usize)
    }

    /// The number of a new type.
    fn add_type(&mut self, node: TypeNode) -> Result<TypeId, Memory>
        requires { TypeWithin (length self.old.names) (length self.old.types) node }
        ensures known { IfOk result (λ k. slice_get self.new.types k ≡ Some node) }
        ensures last { IfOk result (λ k. k ≡ length self.old.types) }
        ensures within { IfOk result (λ k. k < length self.new.types) }
        ensures table { OnOk result (self.new ≡ record self.old { types = self.old.types ++ node ∷ [] }) }
        ensures grows { Grows self.old self.new }
        ensures err { OnErr result (self.new ≡ self.old) }
    {
        let number = self.types.len();
        if number >= NUMBERS {
            return Err(Memory);
        }
        self.types.push(node)?;
        Ok(number as u32)
    }

    /// The number of a new constant.
    fn add_constant(&mut self, node: ConstantNode) -> Result<ConstantId, Memory>
        requires { ConstantWithin (length self.old.names) (length self.old.types) (length self.old.constants) node }
        ensures known { IfOk result (λ k. slice_get self.new.constants k ≡ Some node) }
        ensures last { IfOk result (λ k. k ≡ length self.old.constants) }
        ensures within { IfOk result (λ k. k < length self.new.constants) }
        ensures table { OnOk result (self.new ≡ record self.old { constants = self.old.constants ++ node ∷ [] }) }
        ensures grows { Grows self.old self.new }
        ensures err { OnErr result (self.new ≡ self.old) }
    {
        let number = self.constants.len();
        if number >= NUMBERS {
            return Err(Memory);
        }
        self.constants.push(node)?;
        Ok(number as u32)
    }

    /// `iN`
    pub fn int(&mut self, width: u32) -> Result<TypeId, Memory>
        ensures shows { IfOk result (λ k. Shows self.new k (λ later. IntV width)) }
        ensures grows { Grows self.old self.new }
        ensures err { OnErr result (self.new ≡ self.old) }
    {
        self.add_type(TypeNode::Int(width))
    }

    /// `ptr`
    pub fn pointer(&mut self) -> Result<TypeId, Memory>
        ensures shows { IfOk result (λ k. Shows self.new k (λ later. PtrV)) }
        ensures grows { Grows self.old self.new }
        ensures err { OnErr result (self.new ≡ self.old) }
    {
        self.add_type(TypeNode::Ptr)
    }

    /// `void`
    pub fn void(&mut self) -> Result<TypeId, Memory>
        ensures shows { IfOk result (λ k. Shows self.new k (λ later. VoidV)) }
        ensures grows { Grows self.old self.new }
        ensures err { OnErr result (self.new ≡ self.old) }
    {
        self.add_type(TypeNode::Void)
    }

    /// `[count x of]`
    pub fn array(&mut self, count: u128, of: TypeId) -> Result<TypeId, Memory>
        requires { of < length self.old.types }
        ensures shows { IfOk result (λ k. Shows self.new k (λ later. ArrayV count (type_at later of))) }
        ensures grows { Grows self.old self.new }
        ensures err { OnErr result (self.new ≡ self.old) }
    {
        self.add_type(TypeNode::Array { count, of })
    }

    /// `{ T, .. }`, or the packed `<{ T, .. }>`
    pub fn structure(&mut self, packed: bool, fields: List<TypeId>) -> Result<TypeId, Memory>
        requires { All (λ k. k < length self.old.types) fields }
        ensures shows { IfOk result (λ k. Shows self.new k (λ later. StructV packed (types_at later fields))) }
        ensures grows { Grows self.old self.new }
        ensures err { OnErr result (self.new ≡ self.old) }
    {
        self.add_type(TypeNode::Struct { packed, fields })
    }

    /// `%name`, by the name's number
    pub fn named(&mut self, name: NameId) -> Result<TypeId, Memory>
        requires { name < length self.old.names }
        ensures shows { IfOk result (λ k. Shows self.new k (λ later. NamedV (name_at later name))) }
        ensures grows { Grows self.old self.new }
        ensures err { OnErr result (self.new ≡ self.old) }
    {
        self.add_type(TypeNode::Named(name))
    }

    /// An integer of a width, `true` and `false` among them
    pub fn integer(&mut self, value: Int) -> Result<ConstantId, Memory>
        ensures shows { IfOk result (λ k. ShowsConstant self.new k (λ later. IntegerC value)) }
        ensures grows { Grows self.old self.new }
        ensures err { OnErr result (self.new ≡ self.old) }
    {
        self.add_constant(ConstantNode::Integer(value))
    }

    /// `null`
    pub fn null(&mut self) -> Result<ConstantId, Memory>
        ensures shows { IfOk result (λ k. ShowsConstant self.new k (λ later. NullC)) }
        ensures grows { Grows self.old self.new }
        ensures err { OnErr result (self.new ≡ self.old) }
    {
        self.add_constant(ConstantNode::Null)
    }

    /// `zeroinitializer`
    pub fn zero(&mut self) -> Result<ConstantId, Memory>
        ensures shows { IfOk result (λ k. ShowsConstant self.new k (λ later. ZeroC)) }
        ensures grows { Grows self.old self.new }
        ensures err { OnErr result (self.new ≡ self.old) }
    {
        self.add_constant(ConstantNode::Zero)
    }

    /// `c".."`, by its bytes
    pub fn text(&mut self, bytes: Bytes) -> Result<ConstantId, Memory>
        ensures shows { IfOk result (λ k. ShowsConstant self.new k (λ later. TextC bytes)) }
        ensures grows { Grows self.old self.new }
        ensures err { OnErr result (self.new ≡ self.old) }
    {
        self.add_constant(ConstantNode::Text(bytes))
    }

    /// `[ T c, .. ]`
    pub fn array_of(&mut self, elements: List<Element>) -> Result<ConstantId, Memory>
        requires { ElementsWithin self.old elements }
        ensures shows { IfOk result (λ k. ShowsConstant self.new k (λ later. ArrayC (elements_at later elements))) }
        ensures grows { Grows self.old self.new }
        ensures err { OnErr result (self.new ≡ self.old) }
    {
        self.add_constant(ConstantNode::Array(elements))
    }

    /// `{ T c, .. }`, or the packed `<{ T c, .. }>`
    pub fn structure_of(
        &mut self,
        packed: bool,
        fields: List<Element>,
    ) -> Result<ConstantId, Memory>
        requires { ElementsWithin self.old fields }
        ensures shows { IfOk result (λ k. ShowsConstant self.new k (λ later. StructC packed (elements_at later fields))) }
        ensures grows { Grows self.old self.new }
        ensures err { OnErr result (self.new ≡ self.old) }
    {
        self.add_constant(ConstantNode::Struct { packed, fields })
    }

    /// `@name`, by the name's number
    pub fn name_of(&mut self, name: NameId) -> Result<ConstantId, Memory>
        requires { name < length self.old.names }
        ensures shows { IfOk result (λ k. ShowsConstant self.new k (λ later. NameC (name_at later name))) }
        ensures grows { Grows self.old self.new }
        ensures err { OnErr result (self.new ≡ self.old) }
    {
        self.add_constant(ConstantNode::Name(name))
    }

    /// `getelementptr (of, ptr base, iN index, ..)`
    pub fn address(
        &mut self,
        of: TypeId,
        base: ConstantId,
        indices: List<Element>,
    ) -> Result<ConstantId, Memory>
        requires of { of < length self.old.types }
        requires base { base < length self.old.constants }
        requires indices { ElementsWithin self.old indices }
        ensures shows { IfOk result (λ k. ShowsConstant self.new k (λ later. AddressC (type_at later of) (constant_at later base) (elements_at later indices))) }
        ensures grows { Grows self.old self.new }
        ensures err { OnErr result (self.new ≡ self.old) }
    {
        self.add_constant(ConstantNode::Address { of, base, indices })
    }
}
