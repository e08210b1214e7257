//! Whole texts that are read, and written out again.
use crate::refusals::refusal;
use ir_printer::print::print_module;
use ir_reader::whole::{TextEnd, read_module};
use std::alloc::Global;
use std::process::Abort;
use std::test::Fail;

/// The canonical text of a text, or the line and the cause of its first fault.
pub(crate) fn read(rt: &impl Abort, alloc: Global, text: &[u8]) -> Result<String, Fail> {
    assert!(rt; text.len() < 8_000_000);
    match read_module(alloc, text) {
        Ok(module) => {
            let text = print_module(alloc, &module)?;
            Ok(String::from_utf8_lossy(alloc, text.as_slice())?)
        }
        Err(TextEnd::Bad(error)) => refusal(alloc, &error),
        Err(TextEnd::Memory) => Err("memory was refused")?,
    }
}

/// Whether a module is read of a text.
pub(crate) fn is_read(rt: &impl Abort, alloc: Global, text: &[u8]) -> bool {
    assert!(rt; text.len() < 8_000_000);
    read_module(alloc, text).is_ok()
}

/// Whether a text is read as the module that it is the canonical text of.
pub(crate) fn is_canonical(rt: &impl Abort, alloc: Global, text: &str) -> Result<bool, Fail> {
    let told = read(rt, alloc, text.as_bytes())?;
    Ok(told.as_str() == text)
}

/// The first text that is read otherwise than what stands behind it says, or whose canonical text is not read as itself: what is
/// read of it. Nothing where none is.
pub(crate) fn first_misread(
    rt: &impl Abort,
    alloc: Global,
    rows: &[(&str, &str)],
) -> Result<String, Fail> {
    for (text, wanted) in rows {
        let told = read(rt, alloc, text.as_bytes())?;
        if told.as_str() != *wanted {
            return Ok(format!(in alloc; "{text}: {told}")?);
        }
        if is_read(rt, alloc, text.as_bytes()) && !is_canonical(rt, alloc, told.as_str())? {
            return Ok(told);
        }
    }
    Ok(String::new(alloc))
}

/// The same of texts with their names, between these pieces of a text.
pub(crate) fn first_misread_between(
    rt: &impl Abort,
    alloc: Global,
    before: &str,
    rows: &[(&str, &str)],
    behind: &str,
) -> Result<String, Fail> {
    for (text, wanted) in rows {
        let whole = format!(in alloc; "{before}{text}{behind}")?;
        let told = read(rt, alloc, whole.as_bytes())?;
        if told.as_str() != *wanted {
            return Ok(format!(in alloc; "{whole}: {told}")?);
        }
        if is_read(rt, alloc, whole.as_bytes()) && !is_canonical(rt, alloc, told.as_str())? {
            return Ok(told);
        }
    }
    Ok(String::new(alloc))
}
