//! Transitions of one code, and loops over the codes of an object.
ghost use Rattle.std.specs.Prelude.{◌≡◌, ◌≤◌, length, map};
ghost use Rattle.shadow_codes.specs.Codes.{read_code, write_code, reset_code, clashes, first_clash_of, greatest_of, stamps};

use crate::lanes::{front_without_clash, greatest_in_lanes, lanes_of, reset_lanes};

/// The code of one private byte.
pub type Code = u16;

/// Neither written by this worker in the span, nor read in this period.
pub const UNTOUCHED: Code = 0;
/// Written by this worker in an earlier period of the span.
pub const OLD_WRITE: Code = 1;
/// Read in this period, before any write by this worker.
pub const READ_LIVE_IN: Code = 2;
/// The stamp of a period's first turn.
pub const FIRST_STAMP: Code = 3;

/// The code after a read by the turn with stamp `beta`, or None where the read may not pass: the byte has a value that
/// another turn of this worker wrote.
pub fn on_read(code: Code, beta: Code) -> Option<Code>
    requires stamp { 3 ≤ beta }
    requires known { code ≤ beta }
    ensures { result ≡ read_code beta code }
{
    match code {
        UNTOUCHED | READ_LIVE_IN => Some(READ_LIVE_IN),
        OLD_WRITE => None,
        stamp if stamp == beta => Some(beta),
        _ => None,
    }
}

/// The code after a write by the turn with stamp `beta`, or None where the write may not pass: this worker read the
/// byte's value from before the period.
pub fn on_write(code: Code, beta: Code) -> Option<Code>
    requires stamp { 3 ≤ beta }
    requires known { code ≤ beta }
    ensures { result ≡ write_code beta code }
{
    if code == READ_LIVE_IN {
        None
    } else {
        Some(beta)
    }
}

/// The codes with which the next period begins: writes become old, reads are forgotten.
pub fn reset(codes: &mut [Code])
    ensures { codes.new ≡ map reset_code codes.old }
{
    let whole = lanes_of(codes.len());
    reset_lanes(codes, whole);
    reset_each(&mut codes[whole..]);
}

// The same, code by code.
fn reset_each(codes: &mut [Code])
    ensures { codes.new ≡ map reset_code codes.old }
{
    for code in codes.iter_mut() {
        *code = after_period(*code);
    }
}

// The code with which the next period begins.
fn after_period(code: Code) -> Code
    ensures { result ≡ reset_code code }
{
    match code {
        UNTOUCHED | READ_LIVE_IN => UNTOUCHED,
        _ => OLD_WRITE,
    }
}

/// The first byte that one worker read from before the period and the other wrote in the span.
pub fn first_clash(reads: &[Code], writes: &[Code]) -> Option<usize>
    requires { length reads.now ≡ length writes.now }
    ensures { result ≡ first_clash_of reads.now writes.now }
{
    let front = front_without_clash(reads, writes);
    match clash_in(&reads[front..], &writes[front..]) {
        Some(behind) => Some(front + behind),
        None => None,
    }
}

// The first clash, byte by byte.
fn clash_in(reads: &[Code], writes: &[Code]) -> Option<usize>
    requires { length reads.now ≡ length writes.now }
    ensures { result ≡ first_clash_of reads.now writes.now }
{
    reads
        .iter()
        .zip(writes.iter())
        .position(|(read, write)| is_clash(*read, *write))
}

// Whether one worker's code of a byte says read, and the other's says written.
fn is_clash(read: Code, write: Code) -> bool
    ensures { result ≡ clashes read write }
{
    read == READ_LIVE_IN && (write == OLD_WRITE || write >= FIRST_STAMP)
}

/// The greatest stamp among the codes, or 0 where there is none.
pub fn greatest(codes: &[Code]) -> Code
    ensures { result ≡ greatest_of (stamps codes.now) }
{
    let whole = lanes_of(codes.len());
    let front = greatest_each(&greatest_in_lanes(codes, whole));
    let behind = greatest_each(&codes[whole..]);
    front.max(behind)
}

// The greatest stamp, code by code.
#[tactic(auto, using(crate::proofs::Greatest::greatest_more))]
fn greatest_each(codes: &[Code]) -> Code
    ensures { result ≡ greatest_of (stamps codes.now) }
{
    let mut most = 0;
    for code in codes {
        if *code >= FIRST_STAMP && *code > most {
            most = *code;
        }
    }
    most
}
