//! The commands, up to their answers.
ghost use Rattle.std.specs.Prelude.{◌≡◌, ◌≤◌, ◌++◌, codes, IfOk};
ghost use Rattle.ir_tree.specs.Written.{shown_module};
ghost use Rattle.code_laws.specs.Runs.{module_outcome};
ghost use Rattle.plain_commands.specs.Answers.{ReadsFile, refuses};
ghost use Rattle.plain_commands.specs.Texts.{Answers};
ghost use Rattle.plain_commands.specs.Commands.{RunsModule, RunsLoaded, ChecksLoaded, TellsRun, TellsCheck, RunReads, CheckReads, ran, status_of, wanted_run, wanted_check};

use crate::answer::{Answer, refuse};
use crate::loading::{Loaded, load, tell_names};
use crate::status::{ENDED, READ_FAULT, REFUSED, SPENT, TOO_LONG, TRAPPED};
use checked_code::program::Program;
use pv_base::bytes::Bytes;
use pv_base::limits::FILE_LIMIT;
use pv_base::outside::{FileEnd, Files};
use pv_base::want::Memory;
use run_report::refusals::accepted_text;
use run_report::report::report_text;
use seq_machine::state::End;
use seq_run::run::run;
use std::alloc::Global;

/// A refusal that names a file.
fn refuse_file(alloc: Global, status: u8, what: &[u8], name: &str) -> Result<Answer, Memory>
    ensures { IfOk result (λ a. a ≡ refuses status (what.now ++ name.now ++ codes "\n")) }
{
    let mut line = Bytes::from_slice(alloc, what)?;
    line.append(name.as_bytes())?;
    line.append(b"\n")?;
    Ok(refuse(alloc, status, line))
}

/// The whole text of a file of at most so many bytes, or what is answered in its place.
fn read_file<F: Files>(
    alloc: Global,
    files: &mut F,
    name: &str,
    limit: usize,
) -> Result<Result<Bytes, Answer>, Memory>
    ensures content { F.content files.new ≡ F.content files.old }
    ensures later { F.faults files.old ≤ F.faults files.new }
    ensures ends { IfOk result (ReadsFile (F.content files.old name.now) limit name.now (F.faults files.old) (F.faults files.new)) }
{
    let mut text = Bytes::new(alloc);
    match files.read(name, limit, &mut text) {
        Ok(()) => Ok(Ok(text)),
        Err(FileEnd::Memory) => Err(Memory),
        Err(FileEnd::Failed) => {
            let answer = refuse_file(alloc, READ_FAULT, b"fault reading ", name)?;
            Ok(Err(answer))
        }
        Err(FileEnd::TooLong) => {
            let answer = refuse_file(alloc, TOO_LONG, b"too long ", name)?;
            Ok(Err(answer))
        }
    }
}

fn status_of(end: End) -> u8
    ensures { result ≡ status_of end }
{
    match end {
        End::Ended(_) => ENDED,
        End::Trapped(_, _) => TRAPPED,
        End::Spent => SPENT,
    }
}

/// What the run of a program on an input is answered.
fn run_answer(program: &Program, input: &[u8], budget: u64) -> Result<Answer, Memory>
    ensures { IfOk result (λ a. a ≡ ran (shown_module program.now) (module_outcome (shown_module program.now) input.now budget)) }
{
    tell_names(program.module());
    let outcome = run(program, input, budget)?;
    let report = report_text(program.alloc(), program.module(), &outcome)?;
    Ok(Answer::new(status_of(outcome.end), outcome.output, report))
}

/// Reads the input and runs the program on it.
fn run_program<F: Files>(
    alloc: Global,
    files: &mut F,
    program: &Program,
    input: &str,
    budget: u64,
) -> Result<Answer, Memory>
    ensures content { F.content files.new ≡ F.content files.old }
    ensures later { F.faults files.old ≤ F.faults files.new }
    ensures answers { IfOk result (RunsModule (F.content files.old) input.now budget (shown_module program.now) (F.faults files.old) (F.faults files.new)) }
{
    let text = match read_file(alloc, files, input, FILE_LIMIT)? {
        Ok(text) => text,
        Err(answer) => return Ok(answer),
    };
    run_answer(program, text.as_slice(), budget)
}

/// Runs what a module's text was taken for.
fn run_loaded<F: Files>(
    alloc: Global,
    files: &mut F,
    loaded: Loaded,
    input: &str,
    budget: u64,
) -> Result<Answer, Memory>
    ensures content { F.content files.new ≡ F.content files.old }
    ensures later { F.faults files.old ≤ F.faults files.new }
    ensures answers { IfOk result (RunsLoaded (F.content files.old) input.now budget loaded (F.faults files.old) (F.faults files.new)) }
{
    match loaded {
        Loaded::Refused(line) => Ok(refuse(alloc, REFUSED, line)),
        Loaded::Accepted(checked) => {
            let program = Program::new(alloc, checked)?;
            run_program(alloc, files, &program, input, budget)
        }
    }
}

/// `run MODULE INPUT --budget N`
pub fn run_command<F: Files>(
    alloc: Global,
    files: &mut F,
    module: &str,
    input: &str,
    budget: u64,
) -> Result<Answer, Memory>
    ensures content { F.content files.new ≡ F.content files.old }
    ensures later { F.faults files.old ≤ F.faults files.new }
    ensures answers { IfOk result (Answers (TellsRun (F.content files.old) «module».now input.now) (λ t. wanted_run t «module».now input.now budget) (RunReads «module».now input.now) (F.faults files.old) (F.faults files.new)) }
{
    let text = match read_file(alloc, files, module, FILE_LIMIT)? {
        Ok(text) => text,
        Err(answer) => return Ok(answer),
    };
    let loaded = load(alloc, text.as_slice())?;
    run_loaded(alloc, files, loaded, input, budget)
}

/// What the check of a module's text is answered.
fn check_loaded(alloc: Global, loaded: Loaded) -> Result<Answer, Memory>
    ensures { IfOk result (ChecksLoaded loaded) }
{
    match loaded {
        Loaded::Refused(line) => Ok(refuse(alloc, REFUSED, line)),
        Loaded::Accepted(checked) => {
            let out = accepted_text(alloc, checked.module())?;
            Ok(Answer::new(ENDED, out, Bytes::new(alloc)))
        }
    }
}

/// `check MODULE`
pub fn check_command<F: Files>(alloc: Global, files: &mut F, module: &str) -> Result<Answer, Memory>
    ensures content { F.content files.new ≡ F.content files.old }
    ensures later { F.faults files.old ≤ F.faults files.new }
    ensures answers { IfOk result (Answers (TellsCheck (F.content files.old) «module».now) (λ t. wanted_check t «module».now) (CheckReads «module».now) (F.faults files.old) (F.faults files.new)) }
{
    let text = match read_file(alloc, files, module, FILE_LIMIT)? {
        Ok(text) => text,
        Err(answer) => return Ok(answer),
    };
    let loaded = load(alloc, text.as_slice())?;
    check_loaded(alloc, loaded)
}
