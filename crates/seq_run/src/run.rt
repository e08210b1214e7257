//! Whole runs.
ghost use Rattle.std.specs.Prelude.{◌≡◌, ◌≤◌, IfOk};
ghost use Rattle.ir_code.specs.Coding.{code_of};
ghost use Rattle.seq_run.specs.Outcomes.{outcome_of_run};

use crate::outcome::outcome;
use crate::start::start;
use checked_code::program::Program;
use pv_base::want::Memory;
use seq_machine::run::run_from;
use seq_machine::state::Outcome;

/// Runs the program on an input: it takes steps until one ends the run or traps, or `n` were taken.
pub fn run(program: &Program, input: &[u8], n: u64) -> Result<Outcome, Memory>
    ensures run { IfOk result (λ o. o ≡ outcome_of_run program.now input.now n) }
    ensures bounded { IfOk result (λ o. o.steps ≤ n) }
{
    let mut state = start(program)?;
    let end = run_from(program.code(), &mut state, input, n)?;
    outcome(program, state, end)
}
