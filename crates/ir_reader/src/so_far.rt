//! Items, and what was read of a module.

ghost use Rattle.std.specs.Prelude.{◌≡◌, ◌<◌, ◌≤◌, ◌+◌, [], length, map, IfOk, OnOk};
ghost use Rattle.pv_base.specs.Limits.{live_limit};
ghost use Rattle.ir_tree.specs.Table.{Table};
ghost use Rattle.ir_tree.specs.Naming.{Grows};
ghost use Rattle.ir_tree.specs.Shown.{shown_named, shown_global, shown_function};
ghost use Rattle.ir_grammar.specs.Modules as grammar;
ghost use Rattle.ir_reader.specs.Gathered.{item_of, so_far_at, ItemWithin, SoFarWithin};

use crate::global::PlacedGlobal;
use ir_instr::defined::Defined;
use ir_tree::items::{Function, Global, NamedType};
use ir_tree::table::Names;
use pv_base::list::List;
use pv_base::want::Memory;
use std::alloc::Global as Allocator;

/// An item of a text.
#[derive(Drop)]
pub enum Item {
    NamedType(NamedType),
    Global(PlacedGlobal),
    Function(Function),
    /// One that is passed over.
    Passed,
}

/// What was read of a module: its globals and functions, in text order, and what later items are held against.
#[derive(Drop)]
pub struct SoFar {
    pub globals: List<Global>,
    pub functions: List<Function>,
    /// The names of its named types.
    pub types: Defined,
    /// The names of its globals and functions, which are one set.
    pub values: Defined,
    /// How many bytes its globals take.
    pub size: u64,
}

impl SoFar {
    /// Before the first item.
    pub fn new(alloc: Allocator) -> SoFar
        ensures { result ≡ record { globals = []; functions = []; types = []; values = []; size = 0 } }
    {
        SoFar {
            globals: List::new(alloc),
            functions: List::new(alloc),
            types: Defined::new(alloc),
            values: Defined::new(alloc),
            size: 0,
        }
    }

    fn add_type(&mut self, names: &Names, named: NamedType) -> Result<(), Memory>
        requires so_far { SoFarWithin names.now self.old }
        requires name { named.name < length names.now.names }
        ensures adds { OnOk result ((later : Table) → Grows names.now later → so_far_at later self.new ≡ grammar.with_item (so_far_at later self.old) (grammar.TypeItem (shown_named later named))) }
        ensures within { OnOk result (SoFarWithin names.now self.new) }
    {
        names.is_table();
        self.types.push(named.name)?;
        Ok(())
    }

    fn add_global(&mut self, names: &Names, placed: PlacedGlobal) -> Result<(), Memory>
        requires so_far { SoFarWithin names.now self.old }
        requires name { placed.global.name < length names.now.names }
        requires size { self.old.size + placed.bytes ≤ live_limit }
        ensures adds { OnOk result ((later : Table) → Grows names.now later → so_far_at later self.new ≡ grammar.with_item (so_far_at later self.old) (grammar.GlobalItem (shown_global later placed.global) placed.bytes)) }
        ensures within { OnOk result (SoFarWithin names.now self.new) }
    {
        names.is_table();
        self.globals.push(placed.global)?;
        self.values.push(placed.global.name)?;
        self.size += placed.bytes;
        Ok(())
    }

    fn add_function(&mut self, names: &Names, function: Function) -> Result<(), Memory>
        requires so_far { SoFarWithin names.now self.old }
        requires name { function.name < length names.now.names }
        ensures adds { OnOk result ((later : Table) → Grows names.now later → so_far_at later self.new ≡ grammar.with_item (so_far_at later self.old) (grammar.FunctionItem (shown_function later function))) }
        ensures within { OnOk result (SoFarWithin names.now self.new) }
    {
        names.is_table();
        let name = function.name;
        self.functions.push(function)?;
        self.values.push(name)?;
        Ok(())
    }

    /// Adds an item behind those before it.
    pub fn add(&mut self, names: &Names, item: Item) -> Result<(), Memory>
        requires so_far { SoFarWithin names.now self.old }
        requires item { ItemWithin names.now self.old.size item }
        ensures adds { OnOk result ((later : Table) → Grows names.now later → so_far_at later self.new ≡ grammar.with_item (so_far_at later self.old) (item_of later item)) }
        ensures within { OnOk result (SoFarWithin names.now self.new) }
    {
        match item {
            Item::NamedType(named) => self.add_type(names, named),
            Item::Global(placed) => self.add_global(names, placed),
            Item::Function(function) => self.add_function(names, function),
            Item::Passed => Ok(()),
        }
    }
}
