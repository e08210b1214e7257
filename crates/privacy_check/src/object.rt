//! An access to a range of one object's codes.
ghost use Rattle.std.specs.Prelude.{◌≡◌, ◌≤◌, ◌+◌, ◌<◌, ◌↔◌, ℕ, IsTrue, All, length, is_none, if◌then◌else◌};
ghost use Rattle.std.specs.Result.{result_unwrap_or};
ghost use Rattle.privacy_check.specs.Shadows.{after, next_code, first_bad, passed, in_range, object_after, told};

use crate::access::{Access, BadCode};
use shadow_codes::codes::{Code, on_read, on_write};

// An access to the `len` codes from `offset` on: the first byte that it may not pass, or the codes after it.
pub fn touch_range(
    access: Access,
    codes: &mut [Code],
    offset: u64,
    len: u64,
    beta: Code,
) -> Result<(), BadCode>
    requires within { offset + len ≤ length codes.old }
    requires stamps { All (λ c. c ≤ beta) (in_range offset len codes.old) }
    requires stamp { 3 ≤ beta }
    ensures answer { result ≡ told (object_after access beta offset len codes.old) }
    ensures codes { codes.new ≡ result_unwrap_or (object_after access beta offset len codes.old) codes.old }
{
    let start = offset as usize;
    let end = start + len as usize;
    let range = &codes[start..end];
    if let Some(bad) = first_refused(access, range, beta) {
        let code = range[bad];
        return Err(BadCode {
            offset: offset + bad as u64,
            code,
        });
    }
    mark(access, &mut codes[start..end], beta);
    Ok(())
}

// Whether the `len` codes from `offset` on are there, and none is above the stamp.
pub fn has_range(codes: &[Code], offset: u64, len: u64, beta: Code) -> bool
    ensures within { IsTrue result → offset + len ≤ length codes.now }
    ensures stamps { IsTrue result → All (λ c. c ≤ beta) (in_range offset len codes.now) }
    ensures whole { offset + len ≤ length codes.now → All (λ c. c ≤ beta) (in_range offset len codes.now) → IsTrue result }
{
    let size = codes.len() as u64;
    if offset > size || len > size - offset {
        return false;
    }
    let start = offset as usize;
    all_at_most(&codes[start..start + len as usize], beta)
}

// Whether no code is above the stamp.
fn all_at_most(codes: &[Code], beta: Code) -> bool
    ensures { IsTrue result ↔ All (λ c. c ≤ beta) codes.now }
{
    codes.iter().all(|code| *code <= beta)
}

// The first code that the access may not pass.
fn first_refused(access: Access, codes: &[Code], beta: Code) -> Option<usize>
    requires stamps { All (λ c. c ≤ beta) codes.now }
    requires stamp { 3 ≤ beta }
    ensures { result ≡ first_bad access beta codes.now }
{
    codes
        .iter()
        .position(|code| step(access, *code, beta).is_none())
}

// The codes after an access that passes.
fn mark(access: Access, codes: &mut [Code], beta: Code)
    requires stamps { All (λ c. c ≤ beta) codes.old }
    requires stamp { 3 ≤ beta }
    ensures { codes.new ≡ passed access beta codes.old }
{
    for code in codes.iter_mut() {
        *code = next(access, *code, beta);
    }
}

// The code after an access, or the same code where it may not pass.
fn next(access: Access, code: Code, beta: Code) -> Code
    requires known { code ≤ beta }
    requires stamp { 3 ≤ beta }
    ensures { result ≡ next_code access beta code }
{
    step(access, code, beta).unwrap_or(code)
}

// The code after an access, where it may pass.
fn step(access: Access, code: Code, beta: Code) -> Option<Code>
    requires known { code ≤ beta }
    requires stamp { 3 ≤ beta }
    ensures { result ≡ after access beta code }
{
    match access {
        Access::Read => on_read(code, beta),
        Access::Write => on_write(code, beta),
    }
}
