//! Single instructions that are read, in a function of their own.
use crate::modules::{is_canonical, read};
use std::alloc::Global;
use std::process::Abort;
use std::test::Fail;

/// The first text that is read as another instruction than that behind it, or whose reading does not end at the next
/// instruction, or whose canonical text is not read as itself: what is written of its function. Nothing where all are read so.
/// The counter stands at 3.
pub(crate) fn first_misread(
    rt: &impl Abort,
    alloc: Global,
    rows: &[(&str, &str)],
) -> Result<String, Fail> {
    for (text, canonical) in rows {
        let whole = format!(in alloc; "define void @f(i8, i8) {{\n  {text}\n  ret void\n}}\n")?;
        let told = read(rt, alloc, whole.as_bytes())?;
        let wanted = format!(in alloc;
            "define void @f(i8 %0, i8 %1) {{\n2:\n  {canonical}\n  ret void\n}}\n"
        )?;
        if told.as_str() != wanted.as_str() || !is_canonical(rt, alloc, wanted.as_str())? {
            return Ok(told);
        }
    }
    Ok(String::new(alloc))
}

/// The first text that is not refused with the line and the cause behind it: what is read of it. Nothing where all are refused
/// so.
pub(crate) fn first_let_through(
    rt: &impl Abort,
    alloc: Global,
    rows: &[(&str, &str)],
) -> Result<String, Fail> {
    for (text, wanted) in rows {
        let whole = format!(in alloc; "define void @f(i8, i8) {{ {text}")?;
        let told = read(rt, alloc, whole.as_bytes())?;
        if told.as_str() != *wanted {
            return Ok(format!(in alloc; "{text}: {told}")?);
        }
    }
    Ok(String::new(alloc))
}
