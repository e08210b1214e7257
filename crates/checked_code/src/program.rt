//! A program that can be run.
ghost use Rattle.std.specs.Prelude.{◌≡◌, IfOk};

use ir_code::code::Code;
use ir_rules::checked::Checked;
use ir_tree::whole::Module;
use pv_base::want::Memory;
use std::alloc::Global;
use std::marker::Model;

/// A checked module with its code. Contracts see it as the items of the module.
#[derive(Drop)]
pub struct Program {
    alloc: Global,
    checked: Checked,
    code: Code,
}

impl Model for Program {
    ghost use Rattle.ir_tree.specs.Modules.{Items};
    ghost use Rattle.checked_code.specs.Starting.{IsProgram};

    ghost Value = { Items };

    ghost view = { λ p. p.checked };

    ghost invariant = { λ p. IsProgram p.checked p.code };
}

impl Program {
    ghost use Rattle.ir_code.specs.Coding.{code_of};
    ghost use Rattle.ir_code.specs.Fitting.{CodeFits};
    ghost use Rattle.ir_rules.specs.Checked.{IsChecked};
    ghost use Rattle.checked_code.specs.Starting.{Starts};

    /// The module with its code, in time linear in the module but for looking names up.
    pub fn new(alloc: Global, checked: Checked) -> Result<Program, Memory>
        ensures { IfOk result (λ p. p ≡ checked) }
    {
        let code = Code::new(alloc, checked.module())?;
        Ok(Program {
            alloc,
            checked,
            code,
        })
    }

    /// Where the program was given its memory.
    pub fn alloc(&self) -> Global {
        self.alloc
    }

    pub fn module(&self) -> &Module
        ensures value { result.now ≡ self.now }
        ensures checked { IsChecked self.now }
    {
        self.checked.module()
    }

    /// The checked module.
    pub fn checked(&self) -> &Checked
        ensures { result.now ≡ self.now }
    {
        &self.checked
    }

    /// The checked module, given back. It takes no memory.
    pub fn into_checked(self) -> Checked
        ensures { result ≡ self }
    {
        let Program {
            alloc: _,
            checked,
            code: _,
        } = self;
        checked
    }

    /// The code of the module.
    pub fn code(&self) -> &Code
        ensures value { result.now ≡ code_of self.now }
        ensures fits { CodeFits result.now }
    {
        &self.code
    }

    /// There is a function at which the program begins.
    #[tactic(auto, using(crate::proofs::Starting::starts))]
    pub fn starts(&self)
        ensures { Starts (code_of self.now) }
    {
        self.module().names().is_table();
    }
}
