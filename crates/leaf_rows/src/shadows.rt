//! Every shadow code at one stamp, loops over codes at lengths round a lane's, and calls on a shadow of one object of size 4.
use privacy_check::access::{Access, BadCode};
use privacy_check::shadow::Shadow;
use pv_base::list::List;
use pv_base::place::Place;
use pv_base::want::Memory;
use shadow_codes::codes::{
    Code, READ_LIVE_IN, UNTOUCHED, first_clash, greatest, on_read, on_write, reset,
};
use std::alloc::Global;
use std::process::Abort;

/// A code, and what it is after a read and after a write at stamp 4.
const CODES: &[(Code, Option<Code>, Option<Code>)] = &[
    (0, Some(2), Some(4)),
    (1, None, Some(4)),
    (2, Some(2), None),
    (3, None, Some(4)),
    (4, Some(4), Some(4)),
];

/// The first code that is another after a read or a write, or is no code at stamp 4.
fn first_other(rows: &[(Code, Option<Code>, Option<Code>)]) -> Option<Code> {
    for (code, read, written) in rows {
        if *code > 4 || on_read(*code, 4) != *read || on_write(*code, 4) != *written {
            return Some(*code);
        }
    }
    None
}

/// What codes are after a reset.
fn reset_of(mut codes: [Code; 5]) -> [Code; 5] {
    reset(&mut codes);
    codes
}

#[test]
fn codes_change_by_reads_writes_and_resets(rt: HostRuntime) {
    assert_eq!(rt; first_other(CODES), None);
    assert_eq!(rt; reset_of([0, 1, 2, 3, 65_535]), [0, 1, 0, 1, 1]);
}

/// What is found of so many codes of which one may be set: the clash, and the greatest stamps of the reads and of the writes.
type Found = (Option<usize>, Code, Code);

/// What is found of codes that nothing read and that are only read, but for one that is read and written by stamp 40,000.
fn found(rt: &impl Abort, alloc: Global, len: usize, hit: Option<usize>) -> Result<Found, Memory> {
    let mut reads = vec![in alloc; UNTOUCHED; len]?;
    let mut writes = vec![in alloc; READ_LIVE_IN; len]?;
    if let Some(at) = hit {
        set(reads.as_mut_slice(), at, 2);
        set(writes.as_mut_slice(), at, 40_000);
    }
    assert!(rt; reads.len() == writes.len());
    Ok((
        first_clash(reads.as_slice(), writes.as_slice()),
        greatest(reads.as_slice()),
        greatest(writes.as_slice()),
    ))
}

/// Sets a code where there is one.
fn set(codes: &mut [Code], at: usize, code: Code) {
    if at < codes.len() {
        codes[at] = code;
    }
}

/// Lengths, where a hit is, and the greatest stamp of the writes.
const HITS: &[(usize, Option<usize>, Code)] = &[
    (0, None, 0),
    (1, None, 0),
    (1, Some(0), 40_000),
    (31, None, 0),
    (31, Some(0), 40_000),
    (31, Some(30), 40_000),
    (32, None, 0),
    (32, Some(0), 40_000),
    (32, Some(31), 40_000),
    (33, None, 0),
    (33, Some(0), 40_000),
    (33, Some(32), 40_000),
    (1000, None, 0),
    (1000, Some(0), 40_000),
    (1000, Some(999), 40_000),
];

/// The first row of which something else is found, or for which memory is refused.
fn first_missed(
    rt: &impl Abort,
    alloc: Global,
    rows: &[(usize, Option<usize>, Code)],
) -> Option<usize> {
    for row in 0..rows.len() {
        let (len, hit, most) = rows[row];
        match found(rt, alloc, len, hit) {
            Ok(found) => {
                if found != (hit, 0, most) {
                    return Some(row);
                }
            }
            Err(_) => return Some(row),
        }
    }
    None
}

#[test]
fn one_hit_is_found_at_each_length(rt: HostRuntime) {
    assert_eq!(rt; first_missed(&rt, rt.alloc(), HITS), None);
}

/// An access: its offset, length and stamp, its answer, and the codes after it.
type Call = (Access, u64, u64, Code, Result<(), BadCode>, [Code; 4]);

/// The first call whose answer is another, or that leaves other codes.
fn first_other_answer(rt: &impl Abort, shadow: &mut Shadow, calls: &[Call]) -> Option<usize> {
    for number in 0..calls.len() {
        let (access, offset, len, beta, answer, codes) = calls[number];
        let at = Place { name: 0, offset };
        if touch(rt, shadow, access, at, len, beta) != answer || !has_codes(shadow, codes) {
            return Some(number);
        }
    }
    None
}

/// Whether the object of name 0 has these codes.
fn has_codes(shadow: &Shadow, codes: [Code; 4]) -> bool {
    match shadow.codes(0) {
        Some(found) => found == codes.as_slice(),
        None => false,
    }
}

/// An access that may be asked for.
fn touch(
    rt: &impl Abort,
    shadow: &mut Shadow,
    access: Access,
    at: Place,
    len: u64,
    beta: Code,
) -> Result<(), BadCode> {
    assert!(rt; beta >= 3 && shadow.may_access(at, len, beta));
    match access {
        Access::Read => shadow.read(at, len, beta),
        Access::Write => shadow.write(at, len, beta),
    }
}

/// The calls of each period.
const PERIODS: &[&[Call]] = &[
    &[
        (Access::Write, 0, 2, 3, Ok(()), [3, 3, 0, 0]),
        (Access::Read, 1, 2, 3, Ok(()), [3, 3, 2, 0]),
        (
            Access::Write,
            2,
            1,
            4,
            Err(BadCode { offset: 2, code: 2 }),
            [3, 3, 2, 0],
        ),
        (
            Access::Read,
            0,
            1,
            4,
            Err(BadCode { offset: 0, code: 3 }),
            [3, 3, 2, 0],
        ),
    ],
    &[
        (
            Access::Read,
            0,
            1,
            3,
            Err(BadCode { offset: 0, code: 1 }),
            [1, 1, 0, 0],
        ),
        (Access::Read, 2, 1, 3, Ok(()), [1, 1, 2, 0]),
        (
            Access::Write,
            0,
            4,
            3,
            Err(BadCode { offset: 2, code: 2 }),
            [1, 1, 2, 0],
        ),
    ],
];

/// The same with the least and the greatest stamp, and with writes that are old in two periods.
const STAMPS: &[&[Call]] = &[
    &[
        (Access::Write, 0, 1, 3, Ok(()), [3, 0, 0, 0]),
        (Access::Write, 2, 1, 65_534, Ok(()), [3, 0, 65_534, 0]),
        (Access::Write, 0, 1, 65_535, Ok(()), [65_535, 0, 65_534, 0]),
        (Access::Read, 0, 2, 65_535, Ok(()), [65_535, 2, 65_534, 0]),
        (
            Access::Read,
            1,
            2,
            65_535,
            Err(BadCode {
                offset: 2,
                code: 65_534,
            }),
            [65_535, 2, 65_534, 0],
        ),
        (
            Access::Write,
            0,
            2,
            65_535,
            Err(BadCode { offset: 1, code: 2 }),
            [65_535, 2, 65_534, 0],
        ),
    ],
    &[
        (
            Access::Read,
            0,
            1,
            3,
            Err(BadCode { offset: 0, code: 1 }),
            [1, 0, 1, 0],
        ),
        (Access::Write, 0, 1, 3, Ok(()), [3, 0, 1, 0]),
        (Access::Read, 0, 2, 3, Ok(()), [3, 2, 1, 0]),
    ],
    &[
        (
            Access::Read,
            2,
            1,
            3,
            Err(BadCode { offset: 2, code: 1 }),
            [1, 0, 1, 0],
        ),
        (
            Access::Read,
            0,
            1,
            65_535,
            Err(BadCode { offset: 0, code: 1 }),
            [1, 0, 1, 0],
        ),
        (Access::Write, 1, 2, 3, Ok(()), [1, 3, 3, 0]),
    ],
];

/// One object, of name 0.
fn one_object(alloc: Global) -> Result<Shadow, Memory> {
    let sizes = List::from_slice(alloc, &[(0u32, 4u64)])?;
    Shadow::new(alloc, &sizes)
}

/// Whether the objects of a new shadow have these names.
fn has_names(alloc: Global, names: &[u32]) -> bool {
    match names_of_one(alloc) {
        Ok(found) => found.as_slice() == names,
        Err(_) => false,
    }
}

/// The names of the objects of a new shadow.
fn names_of_one(alloc: Global) -> Result<List<u32>, Memory> {
    let shadow = one_object(alloc)?;
    shadow.names(alloc)
}

/// The first period, with the number of the first call in it, whose answer is another; the one behind the last where memory is
/// refused.
fn first_other_period(
    rt: &impl Abort,
    alloc: Global,
    periods: &[&[Call]],
) -> Option<(usize, usize)> {
    let mut shadow = match one_object(alloc) {
        Ok(shadow) => shadow,
        Err(_) => return Some((periods.len(), 0)),
    };
    for period in 0..periods.len() {
        if let Some(call) = first_other_answer(rt, &mut shadow, periods[period]) {
            return Some((period, call));
        }
        shadow.end_period();
    }
    None
}

#[test]
fn a_shadow_refuses_reads_of_old_writes_and_writes_of_what_was_read(rt: HostRuntime) {
    assert_eq!(rt; first_other_period(&rt, rt.alloc(), PERIODS), None);
    assert_eq!(rt; first_other_period(&rt, rt.alloc(), STAMPS), None);
    assert!(rt; has_names(rt.alloc(), &[0]));
}
