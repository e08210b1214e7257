//! Why a module is refused, and what an accepted one holds.
ghost use Rattle.std.specs.Prelude.{◌≡◌, ◌++◌, ◌+◌, ◌<◌, ◌^◌, OnOk, IfOk, IfSome, decimal, count_by, sum_by, length, codes};
ghost use Rattle.ir_tree.specs.Written.{shown_module};
ghost use Rattle.run_report.specs.Refusals.{cause_text, refused_module, rule_word, place_text, refused_check, is_defined, function_size, block_size, accepted_text};

use crate::put::{put_global, put_number, put_site};
use ir_lex::token::{Cause, ReadError};
use ir_rules::fault::{CheckCause, CheckError, CheckSite};
use ir_tree::items::{Block, Function};
use ir_tree::whole::Module;
use pv_base::bytes::Bytes;
use pv_base::want::Memory;
use std::alloc::Global;

/// The word that is outside the language.
fn put_outside(to: &mut Bytes, word: &Bytes) -> Result<(), Memory>
    ensures { OnOk result (to.new ≡ to.old ++ (codes "out-of-profile " ++ word.now)) }
{
    to.append(b"out-of-profile ")?;
    to.append(word.as_slice())
}

fn put_cause(to: &mut Bytes, cause: &Cause) -> Result<(), Memory>
    ensures { OnOk result (to.new ≡ to.old ++ cause_text cause.now) }
{
    match cause {
        Cause::Token => to.append(b"token"),
        Cause::Name => to.append(b"name"),
        Cause::BadType => to.append(b"bad-type"),
        Cause::Width => to.append(b"width"),
        Cause::Operand => to.append(b"operand"),
        Cause::Instruction => to.append(b"instruction"),
        Cause::Duplicate => to.append(b"duplicate"),
        Cause::OutOfProfile(word) => put_outside(to, word),
        Cause::Layout => to.append(b"layout"),
        Cause::End => to.append(b"end"),
        Cause::Number => to.append(b"number"),
        Cause::TooLong => to.append(b"too-long"),
    }
}

/// The line of a module whose text is refused.
#[tactic(auto, unfolding(crate::specs::Refusals::refused_module))]
pub fn refused_module(alloc: Global, error: &ReadError) -> Result<Bytes, Memory>
    ensures { IfOk result (λ line. line ≡ refused_module error.now) }
{
    let mut line = Bytes::from_slice(alloc, b"refused module line ")?;
    put_number(&mut line, u64::from(error.line))?;
    line.append(b" ")?;
    put_cause(&mut line, &error.cause)?;
    line.append(b"\n")?;
    Ok(line)
}

fn rule_word(cause: CheckCause) -> &'static [u8]
    ensures { result.now ≡ rule_word cause }
{
    match cause {
        CheckCause::UnknownName => b"unknown-name",
        CheckCause::TypeDiffers => b"type-differs",
        CheckCause::Terminator => b"terminator",
        CheckCause::EntryHasPreds => b"entry-has-preds",
        CheckCause::PhiEdges => b"phi-edges",
        CheckCause::AllocaPlace => b"alloca-place",
        CheckCause::External => b"external",
        CheckCause::NoMain => b"no-main",
        CheckCause::MainType => b"main-type",
    }
}

fn put_place(to: &mut Bytes, tree: &Module, at: CheckSite) -> Result<(), Memory>
    ensures { OnOk result (to.new ≡ to.old ++ place_text (shown_module tree.now) at) }
{
    match at {
        CheckSite::Global(global) => {
            to.append(b" ")?;
            put_global(to, tree, global)
        }
        CheckSite::At(site) => {
            to.append(b" ")?;
            put_site(to, tree, site)
        }
        CheckSite::Whole => Ok(()),
    }
}

/// The line of a module that breaks a rule.
#[tactic(auto, unfolding(crate::specs::Refusals::refused_check))]
pub fn refused_check(alloc: Global, tree: &Module, error: CheckError) -> Result<Bytes, Memory>
    ensures { IfOk result (λ line. line ≡ refused_check (shown_module tree.now) error) }
{
    let mut line = Bytes::from_slice(alloc, b"refused check ")?;
    line.append(rule_word(error.cause))?;
    put_place(&mut line, tree, error.at)?;
    line.append(b"\n")?;
    Ok(line)
}

/// The sum of two counts. A sum of 2^64 or more would count more items than memory holds, and is answered as want of it.
fn sum_of(count: u64, more: u64) -> Result<u64, Memory>
    ensures { IfOk result (λ n. n ≡ count + more) }
{
    match count.checked_add(more) {
        Some(sum) => Ok(sum),
        None => Err(Memory),
    }
}

fn count_defined(functions: &[Function]) -> u64
    ensures { result ≡ count_by is_defined functions.now }
{
    let mut count = 0usize;
    for function in functions {
        if !function.declared {
            count += 1;
        }
    }
    count as u64
}

fn function_size(blocks: &[Block]) -> Result<u64, Memory>
    ensures { IfOk result (λ n. n ≡ sum_by block_size blocks.now) }
{
    let mut count = 0u64;
    for block in blocks {
        count = sum_of(count, block.instructions.len() as u64)?;
    }
    Ok(count)
}

fn count_instructions(functions: &[Function]) -> Result<u64, Memory>
    ensures { IfOk result (λ n. n ≡ sum_by function_size functions.now) }
{
    let mut count = 0u64;
    for function in functions {
        let size = function_size(function.blocks.as_slice())?;
        count = sum_of(count, size)?;
    }
    Ok(count)
}

/// How many functions the module defines.
#[tactic(auto, using(crate::proofs::Written::defined_same))]
fn functions_defined(tree: &Module) -> u64
    ensures { result ≡ count_by is_defined (shown_module tree.now).functions }
{
    count_defined(tree.functions())
}

#[tactic(auto, using(crate::proofs::Written::globals_same))]
fn count_globals(tree: &Module) -> u64
    ensures { result ≡ length (shown_module tree.now).globals }
{
    tree.globals().len() as u64
}

/// How many instructions the functions of the module have.
#[tactic(auto, using(crate::proofs::Written::sizes_same))]
fn module_size(tree: &Module) -> Result<u64, Memory>
    ensures { IfOk result (λ n. n ≡ sum_by function_size (shown_module tree.now).functions) }
{
    count_instructions(tree.functions())
}

/// The line of a module that is accepted.
#[tactic(auto, unfolding(crate::specs::Refusals::accepted_text))]
pub fn accepted_text(alloc: Global, tree: &Module) -> Result<Bytes, Memory>
    ensures { IfOk result (λ line. line ≡ accepted_text (shown_module tree.now)) }
{
    let mut line = Bytes::from_slice(alloc, b"accepted functions ")?;
    put_number(&mut line, functions_defined(tree))?;
    line.append(b" globals ")?;
    put_number(&mut line, count_globals(tree))?;
    line.append(b" instructions ")?;
    let instructions = module_size(tree)?;
    put_number(&mut line, instructions)?;
    line.append(b"\n")?;
    Ok(line)
}
