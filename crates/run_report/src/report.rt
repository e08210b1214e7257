//! The report of a run.
ghost use Rattle.std.specs.Prelude.{◌≡◌, ◌++◌, OnOk, IfOk};
ghost use Rattle.ir_tree.specs.Written.{shown_module};
ghost use Rattle.run_report.specs.Report.{end_line, global_line, global_lines, report_text};

use crate::bytes::put_bytes;
use crate::put::{put_global, put_number, put_signed, put_site};
use int_num::sign::signed;
use ir_tree::whole::Module;
use pv_base::bytes::Bytes;
use pv_base::want::Memory;
use seq_machine::state::{End, GlobalBytes, Outcome};
use std::alloc::Global;

fn put_end(to: &mut Bytes, tree: &Module, end: End, steps: u64) -> Result<(), Memory>
    ensures { OnOk result (to.new ≡ to.old ++ end_line (shown_module tree.now) end steps) }
{
    match end {
        End::Ended(value) => {
            to.append(b"ended ")?;
            put_signed(to, signed(value))?;
            to.append(b" steps ")?;
        }
        End::Trapped(trap, site) => {
            to.append(b"trapped ")?;
            to.append(trap.word().as_bytes())?;
            to.append(b" ")?;
            put_site(to, tree, site)?;
            to.append(b" steps ")?;
        }
        End::Spent => {
            to.append(b"spent ")?;
        }
    }
    put_number(to, steps)?;
    to.append(b"\n")
}

fn put_line(to: &mut Bytes, tree: &Module, global: &GlobalBytes) -> Result<(), Memory>
    ensures { OnOk result (to.new ≡ to.old ++ global_line (shown_module tree.now) global.now) }
{
    to.append(b"global ")?;
    put_global(to, tree, global.global)?;
    to.append(b" ")?;
    put_bytes(to, global.bytes.as_slice())?;
    to.append(b"\n")
}

fn put_globals(to: &mut Bytes, tree: &Module, globals: &[GlobalBytes]) -> Result<(), Memory>
    ensures { OnOk result (to.new ≡ to.old ++ global_lines (shown_module tree.now) globals.now) }
{
    for global in globals {
        put_line(to, tree, global)?;
    }
    Ok(())
}

/// Appends the report of a run of the module: the line of its end, and then one for each global of the outcome. It takes
/// time linear in the globals' bytes.
#[tactic(auto, unfolding(crate::specs::Report::report_text))]
pub fn put_report(to: &mut Bytes, tree: &Module, outcome: &Outcome) -> Result<(), Memory>
    ensures { OnOk result (to.new ≡ to.old ++ report_text (shown_module tree.now) outcome.now) }
{
    put_end(to, tree, outcome.end, outcome.steps)?;
    put_globals(to, tree, outcome.globals.as_slice())
}

/// The report of a run of the module.
pub fn report_text(alloc: Global, tree: &Module, outcome: &Outcome) -> Result<Bytes, Memory>
    ensures { IfOk result (λ text. text ≡ report_text (shown_module tree.now) outcome.now) }
{
    let mut text = Bytes::new(alloc);
    put_report(&mut text, tree, outcome)?;
    Ok(text)
}
