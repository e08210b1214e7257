//! What a function has defined so far, as far as its text was read.

ghost use Rattle.std.specs.Prelude.{◌≡◌, ◌<◌, length, map, IfOk, OnOk};
ghost use Rattle.ir_tree.specs.Table.{Table};
ghost use Rattle.ir_tree.specs.Naming.{Grows, name_at};
ghost use Rattle.ir_instr.specs.Defined.{AreNames};
ghost use Rattle.ir_grammar.specs.Scopes as spec;
ghost use Rattle.ir_reader.specs.Scoping.{scope_at};

use ir_instr::defined::Defined;
use ir_tree::nodes::NameId;
use ir_tree::table::Names;
use pv_base::name::Name;
use pv_base::want::Memory;
use std::alloc::Global;

/// The number that the next unnamed argument, block or result takes, and the names of those before it.
#[derive(Drop)]
pub struct Scope {
    pub next: u64,
    pub defined: Defined,
}

/// The counter behind a name: a number moves it.
fn counted(next: u64, name: &Name) -> Result<u64, Memory>
    ensures { IfOk result (λ n. n ≡ spec.counted next name.now) }
{
    match name {
        Name::Named(_) => Ok(next),
        Name::Numbered(_) => match next.checked_add(1) {
            Some(next) => Ok(next),
            None => Err(Memory),
        },
    }
}

impl Scope {
    ghost use Rattle.std.specs.Prelude.{[]};

    /// Before the parameters.
    pub fn new(alloc: Global) -> Scope
        ensures { result ≡ record { next = 0; defined = [] } }
    {
        Scope {
            next: 0,
            defined: Defined::new(alloc),
        }
    }

    /// Notes a name that is defined. A count of 2^64 is taken for want of memory; no text reaches it.
    pub fn define(&mut self, names: &Names, name: NameId) -> Result<(), Memory>
        requires names { AreNames names.now self.old.defined }
        requires name { name < length names.now.names }
        ensures defines { OnOk result ((later : Table) → Grows names.now later → scope_at later self.new ≡ spec.defining (scope_at later self.old) (name_at later name)) }
        ensures names { OnOk result (AreNames names.now self.new.defined) }
    {
        names.is_table();
        match names.name(name) {
            Some(spelled) => {
                self.next = counted(self.next, spelled)?;
                self.defined.push(name)
            }
            None => Ok(()),
        }
    }

    /// Counts a parameter without a name.
    pub fn count(&mut self) -> Result<(), Memory>
        ensures counts { OnOk result ((later : Table) → scope_at later self.new ≡ spec.after_name (scope_at later self.old) None) }
        ensures same { OnOk result (self.new.defined ≡ self.old.defined) }
    {
        match self.next.checked_add(1) {
            Some(next) => {
                self.next = next;
                Ok(())
            }
            None => Err(Memory),
        }
    }
}
