//! The command line as `clap` has it.
ghost use Rattle.std.specs.Prelude.{◌≡◌, true, IfOk};
ghost use Rattle.clap.specs.Words.{app_of, new_app, with_rule, with_subcommand};
ghost use Rattle.command_words.specs.CommandLine.{needs_subcommand, whole_app, positional_rule, option_rule, run_app, check_app};

use clap::{Arg, ArgAction, Command};
use std::alloc::{AllocError, Global};

/// What `privateer --help` says below the commands.
const STATUSES: &str = "Exit status:
  0  the run ended, or the command did its work
  1  the run stopped at a trap
  2  the run took all the steps of its budget
  3  the module is refused
  4  these words are refused
  5  a file could not be read
  6  the output or the report could not be written
  7  memory was refused
  8  a file is longer than 4194304 bytes";

fn named<'a>(alloc: Global, name: &'a str, about: &'a str) -> Command<'a>
    ensures { app_of result ≡ new_app name.entry.now }
{
    Command::new(alloc, name).about(about)
}

fn whole<'a>(alloc: Global, name: &'a str, about: &'a str) -> Command<'a>
    ensures { app_of result ≡ needs_subcommand (new_app name.entry.now) }
{
    Command::new(alloc, name)
        .about(about)
        .after_help(STATUSES)
        .subcommand_required(true)
}

/// The command with one more positional word, which has to be there.
fn positional<'a>(
    alloc: Global,
    command: Command<'a>,
    id: &'a str,
    help: &'a str,
) -> Result<Command<'a>, AllocError>
    ensures { IfOk result (λ c. app_of c ≡ with_rule (app_of command.entry) (positional_rule id.entry.now)) }
{
    command.arg(
        Arg::new(alloc, id)
            .required(true)
            .action(ArgAction::Set)
            .help(help),
    )
}

/// The command with one more option `--id`, whose one value is called `N`.
fn option<'a>(
    alloc: Global,
    command: Command<'a>,
    id: &'a str,
    required: bool,
    help: &'a str,
) -> Result<Command<'a>, AllocError>
    ensures { IfOk result (λ c. app_of c ≡ with_rule (app_of command.entry) (option_rule id.entry.now required)) }
{
    command.arg(
        Arg::new(alloc, id)
            .long(id)
            .value_name("N")
            .required(required)
            .action(ArgAction::Set)
            .help(help),
    )
}

fn subcommand<'a>(command: Command<'a>, sub: Command<'a>) -> Result<Command<'a>, AllocError>
    ensures { IfOk result (λ c. (app_of sub.entry).top.is_plain ≡ true → app_of c ≡ with_subcommand (app_of command.entry) (app_of sub.entry).top) }
{
    command.subcommand(sub)
}

fn run_command<'a>(alloc: Global) -> Result<Command<'a>, AllocError>
    ensures { IfOk result (λ c. app_of c ≡ run_app) }
{
    let command = named(
        alloc,
        "run",
        "Runs the function main of a module, and reports how it ended",
    );
    let command = positional(
        alloc,
        command,
        "MODULE",
        "The file of the module, textual LLVM IR",
    )?;
    let command = positional(
        alloc,
        command,
        "INPUT",
        "The file that the module reads as its input",
    )?;
    let command = option(
        alloc,
        command,
        "budget",
        true,
        "The most steps to take, 1 to 1000000000000",
    )?;
    Ok(command)
}

fn check_command<'a>(alloc: Global) -> Result<Command<'a>, AllocError>
    ensures { IfOk result (λ c. app_of c ≡ check_app) }
{
    let command = named(
        alloc,
        "check",
        "Reads and checks a module, and counts what it holds",
    );
    let command = positional(
        alloc,
        command,
        "MODULE",
        "The file of the module, textual LLVM IR",
    )?;
    Ok(command)
}

/// The whole command line.
pub fn command_line<'a>(alloc: Global) -> Result<Command<'a>, AllocError>
    ensures { IfOk result (λ c. app_of c ≡ whole_app) }
{
    let command = whole(
        alloc,
        "privateer",
        "Runs programs in textual LLVM IR, on a machine that is proved",
    );
    let run = run_command(alloc)?;
    let command = subcommand(command, run)?;
    let check = check_command(alloc)?;
    let command = subcommand(command, check)?;
    Ok(command)
}
