//! What the words of a command line ask.
ghost use Rattle.std.specs.Prelude.{◌≡◌, IfOk, map};
ghost use Rattle.clap.specs.Words.{found_of, rows_of};
ghost use Rattle.command_words.specs.CommandLine.{whole_app};
ghost use Rattle.command_words.specs.Requests.{asks, asked_of, asked_of_texts, asked_in, asked_run, lacking, whole_commands, run_of, check_of};
ghost use Rattle.command_words.specs.PlainLines.{ReadsPlain, now_of};

use crate::command_line::command_line;
use crate::numerals::{Numeral, numbers};
use crate::taken::taken;
use crate::texts::words_as_texts;
use crate::usage::usage_words;
use crate::values::value_of;
use clap::ArgMatches;
use pv_base::bytes::Bytes;
use pv_base::want::Memory;
use std::alloc::Global;

/// The most steps that a budget may allow.
pub const BUDGET_LIMIT: u64 = 1_000_000_000_000;

/// What the words ask.
#[derive(Drop)]
pub enum Request {
    /// Nothing: a word is not UTF-8, or a number is none within its limit. The line says which.
    Usage {
        line: Bytes,
    },
    /// Nothing: `clap` refuses the words, or they ask for help. The text is that of `clap`.
    Refused {
        text: Bytes,
    },
    /// `run MODULE INPUT --budget N`
    Run {
        module: String,
        input: String,
        budget: u64,
    },
    /// `check MODULE`
    Check {
        module: String,
    },
}

/// What words ask that lack what their command needs: no parse gives them, and they are answered as want of memory.
fn lacking() -> Result<Request, Memory>
    ensures { IfOk result (λ r. asks r ≡ lacking) }
{
    Err(Memory)
}

fn run_request(alloc: Global, module: &str, input: &str, budget: &str) -> Result<Request, Memory>
    ensures { IfOk result (λ r. asks r ≡ asked_run «module».now input.now budget.now) }
{
    let budget = Numeral::new("--budget", 1, BUDGET_LIMIT, budget);
    match numbers(alloc, &[budget])? {
        Err(line) => Ok(Request::Usage { line }),
        Ok(values) => match values.as_slice() {
            [budget] => {
                let module = String::from_str(alloc, module)?;
                let input = String::from_str(alloc, input)?;
                let budget = *budget;
                Ok(Request::Run {
                    module,
                    input,
                    budget,
                })
            }
            _ => lacking(),
        },
    }
}

fn run_from(
    alloc: Global,
    module: Option<&str>,
    input: Option<&str>,
    budget: Option<&str>,
) -> Result<Request, Memory>
    ensures { IfOk result (λ r. asks r ≡ run_of (now_of «module».entry) (now_of input.entry) (now_of budget.entry)) }
{
    match (module, input, budget) {
        (Some(module), Some(input), Some(budget)) => run_request(alloc, module, input, budget),
        _ => lacking(),
    }
}

fn check_from(alloc: Global, module: Option<&str>) -> Result<Request, Memory>
    ensures { IfOk result (λ r. asks r ≡ check_of (now_of «module».entry)) }
{
    match module {
        Some(module) => {
            let module = String::from_str(alloc, module)?;
            Ok(Request::Check { module })
        }
        None => lacking(),
    }
}

/// What a command asks, by its name.
#[tactic(auto, using(crate::proofs::ReadLemmas::asked_lemmas))]
fn read_matches(alloc: Global, name: &str, matches: &ArgMatches) -> Result<Request, Memory>
    ensures { IfOk result (λ r. asks r ≡ asked_in whole_commands name.now (rows_of (found_of matches.now))) }
{
    match name {
        "run" => {
            let module = value_of(matches, "MODULE");
            let input = value_of(matches, "INPUT");
            let budget = value_of(matches, "budget");
            run_from(alloc, module, input, budget)
        }
        "check" => check_from(alloc, value_of(matches, "MODULE")),
        _ => lacking(),
    }
}

fn read_texts<'a>(alloc: Global, words: &'a [&'a str]) -> Result<Request, Memory>
    ensures { IfOk result (λ r. asks r ≡ asked_of_texts whole_app whole_commands (map (λ s. s.now) words.entry.now)) }
{
    let command = command_line(alloc)?;
    match taken(alloc, command, words)? {
        Ok(matches) => match matches.subcommand() {
            Some((name, inner)) => read_matches(alloc, name, inner),
            None => lacking(),
        },
        Err(text) => Ok(Request::Refused { text }),
    }
}

fn read_exactly(alloc: Global, words: &[Bytes]) -> Result<Request, Memory>
    ensures { IfOk result (λ r. asks r ≡ asked_of words.now) }
{
    match words_as_texts(alloc, words)? {
        None => {
            let line = usage_words(alloc)?;
            Ok(Request::Usage { line })
        }
        Some(all) => read_texts(alloc, all.as_slice()),
    }
}

/// Reads the words of a command line, the program's name first: as `clap` takes them, and those of a plain command line
/// as they stand.
pub fn read_request(alloc: Global, words: &[Bytes]) -> Result<Request, Memory>
    ensures asked { IfOk result (λ r. asks r ≡ asked_of words.now) }
    ensures plain { IfOk result (λ r. ReadsPlain words.now (asks r)) }
{
    read_exactly(alloc, words)
}
