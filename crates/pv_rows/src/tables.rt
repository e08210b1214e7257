//! Tables of modules, each with what its run is to answer.
use crate::calls::run;
use std::alloc::Global;
use std::test::Fail;

/// What a line says by this key.
fn value<'a>(line: &'a str, key: &str) -> Option<&'a str> {
    let rest = line.strip_prefix(key)?;
    if rest.is_empty() {
        return Some(rest);
    }
    rest.strip_prefix(" ")
}

/// What all lines of a module say by this key, with a line break between two.
fn said(alloc: Global, module: &str, key: &str) -> Result<String, Fail> {
    let mut text = String::new(alloc);
    let mut is_first = true;
    for line in module.lines() {
        if let Some(value) = value(line, key) {
            if !is_first {
                text.push_str("\n")?;
            }
            text.push_str(value)?;
            is_first = false;
        }
    }
    Ok(text)
}

/// What a module says of its own run, and what the run answers. The lines `; budget N`, `; input TEXT`, `; status N`, `; out LINE` and
/// `; report LINE` say it.
fn row(alloc: Global, module: &str) -> Result<(String, String), Fail> {
    let status = said(alloc, module, "; status")?;
    let out = said(alloc, module, "; out")?;
    let report = said(alloc, module, "; report")?;
    let wanted = format!(in alloc; "{status} {out}|{report}\n")?;
    let input = said(alloc, module, "; input")?;
    let budget = said(alloc, module, "; budget")?;
    let told = run(alloc, module.as_bytes(), input.as_str(), budget.as_str())?;
    Ok((told, wanted))
}

/// The first row of a table that answers something else, as it is and as it is to be. Lines `;;` stand between the rows.
pub(crate) fn first_difference(
    alloc: Global,
    table: &str,
) -> Result<Option<(String, String)>, Fail> {
    for module in table.split(";;\n") {
        let (told, wanted) = row(alloc, module)?;
        if told.as_str() != wanted.as_str() {
            return Ok(Some((told, wanted)));
        }
    }
    Ok(None)
}
