//! The named types of a whole text.

ghost use Rattle.std.specs.Prelude.{◌≡◌, [], Some, OnOk, OnErr, IfSome, if◌then◌else◌};
ghost use Rattle.pv_base.specs.declared.name.Name.{Name};
ghost use Rattle.ir_tree.specs.Bounds.{IsLayout};
ghost use Rattle.ir_tree.specs.Table.{same_name};
ghost use Rattle.ir_text.specs.Named.{body_in, layout_in, HasLayouts};

use indexmap::IndexMap;
use ir_tree::layout::Layout;
use ir_tree::nodes::TypeId;
use pv_base::name::Name;
use pv_base::want::Memory;
use std::alloc::Global;
use std::marker::Model;

/// What the whole text says of a named type: its body, unless there is a fault in it, and its layout. Where the body is
/// faulty a layout of no size takes its place, so that a use gives no fault: that is met in the body.
#[derive(Clone, Copy)]
pub struct NamedBody {
    pub of: Option<TypeId>,
    pub layout: Option<Layout>,
}

/// The named types of a whole text, by their names.
#[derive(Drop)]
pub struct NamedTypes {
    bodies: IndexMap<Name, NamedBody>,
}

impl Model for NamedTypes {
    ghost use Rattle.std.specs.Prelude.{List};
    ghost use Rattle.pv_base.specs.declared.name.Name.{Name};
    ghost use Rattle.ir_text.specs.declared.named.NamedBody.{NamedBody};
    ghost use Rattle.ir_text.specs.Named.{HasLayouts};

    ghost Value = { List (Name × NamedBody) };

    ghost view = { λ n. n.bodies.entries };

    ghost invariant = { λ n. HasLayouts n.bodies.entries };
}

impl NamedTypes {
    pub fn new(alloc: Global) -> NamedTypes
        ensures { result ≡ [] }
    {
        NamedTypes {
            bodies: IndexMap::new(alloc),
        }
    }

    /// Each layout of a name has a size below 2^63 and an alignment of 1 to 8.
    pub fn is_bounded(&self)
        ensures { HasLayouts self.now }
    {
        let _ = &self.bodies;
    }

    /// Says what the text says of a name, in place of what was said of it before.
    pub fn insert(&mut self, name: Name, body: NamedBody) -> Result<(), Memory>
        requires { IfSome body.layout IsLayout }
        ensures ok { OnOk result ((q : Name) → body_in self.new q ≡ (if same_name name q then Some body else body_in self.old q)) }
        ensures err { OnErr result (self.new ≡ self.old) }
    {
        match self.bodies.insert(name, body) {
            Ok(_) => Ok(()),
            Err(_) => Err(Memory),
        }
    }

    /// What the text says of a name.
    pub fn body(&self, name: &Name) -> Option<NamedBody>
        ensures { result ≡ body_in self.now name.now }
    {
        self.bodies.get(name).copied()
    }

    /// The layout of a name; `None` where it has none.
    pub fn layout(&self, name: &Name) -> Option<Layout>
        ensures { result ≡ layout_in self.now name.now }
    {
        match self.body(name) {
            Some(body) => body.layout,
            None => None,
        }
    }
}
