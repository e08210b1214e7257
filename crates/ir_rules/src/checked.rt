//! A module that meets the rules.
ghost use Rattle.std.specs.Prelude.{◌≡◌};

use ir_tree::whole::Module;
use std::marker::Model;

/// A module in which no place has a fault: it can be run. Contracts see it as the items of the module.
#[derive(Drop)]
pub struct Checked {
    module: Module,
}

impl Model for Checked {
    ghost use Rattle.ir_tree.specs.Modules.{Items};
    ghost use Rattle.ir_rules.specs.Checked.{IsChecked};

    ghost Value = { Items };

    ghost view = { λ c. c.module };

    ghost invariant = { λ c. IsChecked c.module };
}

impl Checked {
    ghost use Rattle.std.specs.Prelude.{◌≡◌};
    ghost use Rattle.ir_rules.specs.Checked.{IsChecked};

    /// The module, sealed. It takes no memory.
    pub fn seal(tree: Module) -> Checked
        requires { IsChecked tree }
        ensures { result ≡ tree }
    {
        Checked { module: tree }
    }

    pub fn module(&self) -> &Module
        ensures value { result.now ≡ self.now }
        ensures checked { IsChecked self.now }
    {
        &self.module
    }
}
