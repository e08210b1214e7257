//! A module: its names, types and items, with what is found once of them.
ghost use Rattle.std.specs.Prelude.{◌≡◌, ◌<◌, length, All, IfOk, IfSome, Some, IsSome, option_map};
ghost use Rattle.ir_tree.specs.Filling.{NamedWithin};
ghost use Rattle.ir_tree.specs.Bounds.{IsLayout};
ghost use Rattle.ir_tree.specs.Layouts.{opened};
ghost use Rattle.ir_tree.specs.Naming.{type_at};
ghost use Rattle.ir_tree.specs.Modules.{layout_in, offset_in, types_of};

use crate::items::{Function, Global, NamedType};
use crate::layout::Layout;
use crate::layouts::Layouts;
use crate::nodes::TypeId;
use crate::table::Names;
use pv_base::list::List;
use pv_base::want::Memory;
use std::alloc::Global as Allocator;
use std::marker::Model;

/// A module. Its lists are in text order, and the numbers in them are of its table.
pub struct Module {
    names: Names,
    types: List<NamedType>,
    globals: List<Global>,
    functions: List<Function>,
    layouts: Layouts,
}

impl Drop for Module {
    fn drop(self) {
        let Module {
            names: _,
            types: _,
            globals: _,
            functions: _,
            layouts: _,
        } = self;
    }
}

impl Model for Module {
    ghost use Rattle.ir_tree.specs.Filling.{IsFound};
    ghost use Rattle.ir_tree.specs.Modules.{Items};

    ghost Value = { Items };

    ghost view = { λ m. record { names = m.names; types = m.types; globals = m.globals; functions = m.functions } };

    ghost invariant = { λ m. IsFound m.names m.types m.layouts };
}

impl Module {
    /// The module of these parts, with the layouts of its types, which take memory.
    pub fn new(
        alloc: Allocator,
        names: Names,
        types: List<NamedType>,
        globals: List<Global>,
        functions: List<Function>,
    ) -> Result<Module, Memory>
        requires { All (NamedWithin names) types }
        ensures { IfOk result (λ m. m ≡ record { names = names; types = types; globals = globals; functions = functions }) }
    {
        let layouts = Layouts::new(alloc, &names, types.as_slice())?;
        Ok(Module {
            names,
            types,
            globals,
            functions,
            layouts,
        })
    }

    pub fn names(&self) -> &Names
        ensures { result.now ≡ self.now.names }
    {
        &self.names
    }

    pub fn types(&self) -> &[NamedType]
        ensures { result.now ≡ self.now.types }
    {
        self.types.as_slice()
    }

    pub fn globals(&self) -> &[Global]
        ensures { result.now ≡ self.now.globals }
    {
        self.globals.as_slice()
    }

    pub fn functions(&self) -> &[Function]
        ensures { result.now ≡ self.now.functions }
    {
        self.functions.as_slice()
    }

    fn layout(&self, of: TypeId) -> Option<Layout>
        requires { of < length self.now.names.types }
        ensures { result ≡ layout_in self.now of }
    {
        self.layouts.of(of)
    }

    fn layout_at(&self, of: TypeId) -> Option<Layout>
        ensures { result ≡ layout_in self.now of }
    {
        match self.names.type_node(of) {
            Some(_) => self.layouts.of(of),
            None => Some(Layout { size: 8, align: 8 }),
        }
    }

    fn is_bounded(&self, of: TypeId)
        ensures { IfSome (layout_in self.now of) IsLayout }
    {
        match self.names.type_node(of) {
            Some(_) => (),
            None => (),
        }
    }

    fn opened(&self, of: TypeId) -> Option<TypeId>
        ensures { option_map (type_at self.now.names) result ≡ opened (types_of self.now) (type_at self.now.names of) }
    {
        self.names.is_table();
        match self.names.type_node(of) {
            Some(node) => self.layouts.opened(node, of),
            None => Some(of),
        }
    }

    fn place(&self, of: TypeId, index: u32) -> Option<u64>
        ensures { result ≡ offset_in self.now of index }
    {
        self.names.is_table();
        match self.names.type_node(of) {
            Some(node) => self.layouts.place(node, of, index),
            None => None,
        }
    }
}

/// The layout of a type; `None` where it has none. It takes no memory, and only looks up.
pub fn layout(tree: &Module, of: TypeId) -> Option<Layout>
    requires { of < length tree.now.names.types }
    ensures { result ≡ layout_in tree.now of }
{
    tree.layout(of)
}

/// The same of any number: one that the table lacks is taken for `ptr`.
pub fn layout_at(tree: &Module, of: TypeId) -> Option<Layout>
    ensures { result ≡ layout_in tree.now of }
{
    tree.layout_at(of)
}

/// A layout has a size below 2^63 and an alignment of 1 to 8.
pub fn layout_is_bounded(tree: &Module, of: TypeId)
    ensures { IfSome (layout_in tree.now of) IsLayout }
{
    tree.is_bounded(of);
}

/// The offset in bytes of a field of a struct, which may be named. It takes no memory, and only looks up.
pub fn field_offset(tree: &Module, of: TypeId, index: u32) -> u64
    requires type_in { of < length tree.now.names.types }
    requires field { IsSome (offset_in tree.now of index) }
    ensures { Some result ≡ offset_in tree.now of index }
{
    match tree.place(of, index) {
        Some(place) => place,
        None => unreachable!(),
    }
}

/// The same offset; `None` where the type is no struct with that field, or has no layout.
pub fn field_place(tree: &Module, of: TypeId, index: u32) -> Option<u64>
    ensures { result ≡ offset_in tree.now of index }
{
    tree.place(of, index)
}

/// The number of a type, or where it is a name the number of the type that it names; `None` where a name has no type. It
/// takes no memory, and only looks up.
pub fn opened(tree: &Module, of: TypeId) -> Option<TypeId>
    ensures { option_map (type_at tree.now.names) result ≡ opened (types_of tree.now) (type_at tree.now.names of) }
{
    tree.opened(of)
}
