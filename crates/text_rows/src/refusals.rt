//! The line and the cause of a text that is refused.
use ir_lex::token::{Cause, ReadError};
use std::alloc::Global;
use std::test::Fail;

fn cause<'a>(cause: &'a Cause) -> &'a str {
    match cause {
        Cause::Token => "token",
        Cause::Name => "name",
        Cause::BadType => "bad-type",
        Cause::Width => "width",
        Cause::Operand => "operand",
        Cause::Instruction => "instruction",
        Cause::Duplicate => "duplicate",
        Cause::OutOfProfile(_) => "out-of-profile",
        Cause::Layout => "layout",
        Cause::End => "end",
        Cause::Number => "number",
        Cause::TooLong => "too-long",
    }
}

/// The word that is outside the language, with a blank before it, and else nothing.
fn outside(alloc: Global, cause: &Cause) -> Result<String, Fail> {
    let mut told = String::new(alloc);
    if let Cause::OutOfProfile(word) = cause {
        told.push_str(" ")?;
        told.push_str(String::from_utf8_lossy(alloc, word.as_slice())?.as_str())?;
    }
    Ok(told)
}

/// The line, the cause and the word that is outside the language.
pub(crate) fn refusal(alloc: Global, error: &ReadError) -> Result<String, Fail> {
    let (line, word) = (error.line, cause(&error.cause));
    let outside = outside(alloc, &error.cause)?;
    Ok(format!(in alloc; "{line} {word}{outside}")?)
}
