//! Texts that are to be numbers.
ghost use Rattle.std.specs.Prelude.{◌≡◌, IfOk, MatchResult, map, Ok, Err, Some, None};
ghost use Rattle.command_words.specs.Numbers.{numeral, numeral_of, number_in, numbers_of, refusal_of};

use crate::number::within;
use crate::usage::usage_number;
use pv_base::bytes::Bytes;
use pv_base::want::Memory;
use std::alloc::Global;

/// A text that is to be a number from `low` to `high`, and the name that a refusal of it prints.
#[derive(Clone, Copy)]
pub struct Numeral<'a> {
    pub name: &'a str,
    pub low: u64,
    pub high: u64,
    pub text: &'a str,
}

impl<'a> Numeral<'a> {
    pub fn new(name: &'a str, low: u64, high: u64, text: &'a str) -> Numeral<'a>
        ensures { numeral_of result ≡ numeral name.entry.now low high text.entry.now }
    {
        Numeral {
            name,
            low,
            high,
            text,
        }
    }
}

/// The number within its limits, or the line that refuses its text.
fn number_or_usage(alloc: Global, numeral: Numeral) -> Result<Result<u64, Bytes>, Memory>
    ensures { IfOk result (λ r. MatchResult r (λ n. number_in (numeral_of numeral.entry) ≡ Some n) (λ line. (number_in (numeral_of numeral.entry) ≡ None) × (line ≡ refusal_of (numeral_of numeral.entry)))) }
{
    match within(numeral.low, numeral.high, numeral.text.as_bytes()) {
        Some(n) => Ok(Ok(n)),
        None => {
            let line = usage_number(alloc, numeral.name, numeral.text)?;
            Ok(Err(line))
        }
    }
}

/// The numbers in their order, or the line that refuses the first text that is none within its limits.
pub fn numbers(alloc: Global, all: &[Numeral]) -> Result<Result<Vec<u64>, Bytes>, Memory>
    ensures { IfOk result (λ r. MatchResult r (λ values. numbers_of (map numeral_of all.now) ≡ Ok values.items) (λ line. numbers_of (map numeral_of all.now) ≡ Err line)) }
{
    let mut values = Vec::new(alloc);
    for numeral in all {
        match number_or_usage(alloc, *numeral)? {
            Ok(value) => values.push(value)?,
            Err(line) => return Ok(Err(line)),
        }
    }
    Ok(Ok(values))
}
