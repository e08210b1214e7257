//! Texts of profiles with what they say, or with their first fault.
use profile_lines::profile::{Profile, ProfileCause};
use profile_reader::{ProfileEnd, read_profile};
use std::alloc::Global;

/// A line, counted from 1, and what is wrong with it.
type Fault = (u32, ProfileCause);

/// The fault that stands for a refusal of memory, in a line that no text has.
const NO_MEMORY: Fault = (0, ProfileCause::Head);

/// What is read of a text: the sizes of its first loop, where it has one, or its first fault.
fn read(alloc: Global, text: &[u8]) -> Result<Option<[usize; 7]>, Fault> {
    if text.len() > 1_000_000 {
        return Err((0, ProfileCause::TooLong));
    }
    match read_profile(alloc, text) {
        Ok(profile) => Ok(sizes(&profile)),
        Err(ProfileEnd::Bad(error)) => Err((error.line, error.cause)),
        Err(ProfileEnd::Memory) => Err(NO_MEMORY),
    }
}

/// The sizes of a profile's first loop: blocks, phis, uses, locals, flows, values, and bytes of the first value.
fn sizes(profile: &Profile) -> Option<[usize; 7]> {
    match profile.loops.as_slice() {
        [found, ..] => {
            let values = found.values.as_slice();
            let bytes = match values {
                [value, ..] => value.bytes.len(),
                [] => 0,
            };
            Some([
                found.blocks.len(),
                found.phis.len(),
                found.uses.len(),
                found.locals.len(),
                found.flows.len(),
                values.len(),
                bytes,
            ])
        }
        [] => None,
    }
}

/// What is wrong with a text, and where; none where it is a profile.
fn fault(alloc: Global, text: &[u8]) -> Option<Fault> {
    match read(alloc, text) {
        Ok(_) => None,
        Err(found) => Some(found),
    }
}

/// The fault of a text between two others.
fn fault_between(alloc: Global, before: &str, text: &str, behind: &str) -> Option<Fault> {
    match format!(in alloc; "{before}{text}{behind}") {
        Ok(whole) => fault(alloc, whole.as_bytes()),
        Err(_) => Some(NO_MEMORY),
    }
}

/// The first text, between these two, whose fault is not what stands behind it.
fn first_misread<'a>(
    alloc: Global,
    before: &str,
    rows: &[(&'a str, Option<Fault>)],
    behind: &str,
) -> Option<&'a str> {
    for (text, wanted) in rows {
        if fault_between(alloc, before, *text, behind) != *wanted {
            return Some(*text);
        }
    }
    None
}

const TEXTS: &[(&str, Option<Fault>)] = &[
    ("", Some((1, ProfileCause::Head))),
    ("# a comment\n\n#\n", Some((1, ProfileCause::Head))),
    ("\n", Some((1, ProfileCause::Head))),
    ("privateer-profile 1", None),
    ("privateer-profile 1\n", None),
    ("# a comment\n\nprivateer-profile 1\n\n# a comment", None),
    ("privateer-profile 2", None),
    ("privateer-profile 2\n", None),
    ("privateer-profile 2 \n", Some((1, ProfileCause::Head))),
    ("privateer-profile 3\n", Some((1, ProfileCause::Head))),
    ("privateer-profile 0\n", Some((1, ProfileCause::Head))),
    ("privateer-profile 02\n", Some((1, ProfileCause::Head))),
    ("privateer-profile 22\n", Some((1, ProfileCause::Head))),
    ("privateer-profile\n", Some((1, ProfileCause::Head))),
    (
        "period 4\nprivateer-profile 2\n",
        Some((1, ProfileCause::Head)),
    ),
    ("privateer-profile 1 \n", Some((1, ProfileCause::Head))),
    ("privateer-profile 1\r\n", Some((1, ProfileCause::Head))),
    ("#\nloop @main %head\n", Some((2, ProfileCause::Head))),
    (
        "privateer-profile 1\nprivateer-profile 1\n",
        Some((2, ProfileCause::Word)),
    ),
    (
        "privateer-profile 1\nprivateer-profile 2\n",
        Some((2, ProfileCause::Word)),
    ),
    (
        "privateer-profile 2\nprivateer-profile 1\n",
        Some((2, ProfileCause::Word)),
    ),
    ("privateer-profile 1\n \n", Some((2, ProfileCause::Word))),
    (
        "privateer-profile 1\nperiod 4\n",
        Some((2, ProfileCause::Word)),
    ),
    (
        "privateer-profile 2\nperiod 4\n",
        Some((2, ProfileCause::Order)),
    ),
    (
        "privateer-profile 2\nperiod 0\n",
        Some((2, ProfileCause::Number)),
    ),
    (
        "privateer-profile 2\nloop @main %head\nperiod 4",
        Some((3, ProfileCause::Order)),
    ),
    (
        "privateer-profile 2\nloop @main %head\nperiod 4\n#\n",
        Some((4, ProfileCause::Order)),
    ),
    ("privateer-profile 1\nend\n", Some((2, ProfileCause::Order))),
    (
        "privateer-profile 1\nblock %a\n",
        Some((2, ProfileCause::Order)),
    ),
    (
        "privateer-profile 1\nloop @main %head",
        Some((2, ProfileCause::Order)),
    ),
    (
        "privateer-profile 1\nloop @main %head\nend",
        Some((3, ProfileCause::Order)),
    ),
    (
        "privateer-profile 1\nloop @main %head\nphi %a same\n",
        Some((3, ProfileCause::Order)),
    ),
    (
        "privateer-profile 1\nloop @main %head\nblock %a",
        Some((3, ProfileCause::Order)),
    ),
    (
        "privateer-profile 1\nloop @main %head\nblock %a\n\n#\n",
        Some((5, ProfileCause::Order)),
    ),
    (
        "privateer-profile 1\nloop @main %head\nblock %a\nblock %a",
        Some((4, ProfileCause::Order)),
    ),
    (
        "privateer-profile 1\nloop @main %head\nblock %a\nblock %a\n\n",
        Some((4, ProfileCause::Repeat)),
    ),
    (
        "privateer-profile 1\nloop @main %head\nblock %a\nloop @main %b\n",
        Some((4, ProfileCause::Order)),
    ),
    ("privateer-profile 1\nloop @main %head\nblock %a\nend", None),
    (
        "privateer-profile 1\nloop @main %head\nblock %a\nend\nblock %a\n",
        Some((5, ProfileCause::Order)),
    ),
    (
        "privateer-profile 1\nloop @main %head\nblock %a\nend\nloop @main %head\nblock %a\nend\n",
        Some((5, ProfileCause::Repeat)),
    ),
    (
        "privateer-profile 1\nloop @main %head\nblock %a\nend\nloop @\"main\" %\"\\68ead\"\nblock %a\nend\n",
        Some((5, ProfileCause::Repeat)),
    ),
    (
        "privateer-profile 1\nloop @main %head\nblock %a\nend\nloop @main %b\nblock %a\nend\n",
        None,
    ),
    (
        "privateer-profile 1\nloop @main %head\nblock %a\nend\n#\nloop @main %b\nblock %a\nblock %a\nend\n",
        Some((8, ProfileCause::Repeat)),
    ),
    (
        "privateer-profile 1\nloop @main  %head\n",
        Some((2, ProfileCause::Word)),
    ),
    (
        "privateer-profile 1\nloop @main %head \n",
        Some((2, ProfileCause::Word)),
    ),
    (
        "privateer-profile 1\nloop %main %head\n",
        Some((2, ProfileCause::Word)),
    ),
    (
        "privateer-profile 1\nloop @9223372036854775807 %9223372036854775808\n",
        Some((2, ProfileCause::Number)),
    ),
    (
        "privateer-profile 1\nloop @9223372036854775808 %a b\n",
        Some((2, ProfileCause::Word)),
    ),
    ("privateer-profile 1\nloop\n", Some((2, ProfileCause::Word))),
];

#[test]
fn whole_texts_are_profiles_or_have_faults(rt: HostRuntime) {
    assert_eq!(rt; first_misread(rt.alloc(), "", TEXTS, ""), None);
}

/// A loop up to its first block, so that the next line is line 4.
const LOOP: &str = "privateer-profile 1\nloop @main %head\nblock %head\n";

const WORD: Option<Fault> = Some((4, ProfileCause::Word));

const NUMBER: Option<Fault> = Some((4, ProfileCause::Number));

const REPEAT: Option<Fault> = Some((5, ProfileCause::Repeat));

const LINES: &[(&str, Option<Fault>)] = &[
    ("phi %i step 1\n", None),
    ("phi %i step -9223372036854775808\n", None),
    ("phi %i step -9223372036854775809\n", NUMBER),
    ("phi %i step 9223372036854775807\n", None),
    ("phi %i step 9223372036854775808\n", NUMBER),
    (
        "phi %i step 99999999999999999999999999999999999999999\n",
        NUMBER,
    ),
    ("phi %i step -0\n", None),
    ("phi %i step 0000000000000000000000000000000000007\n", None),
    ("phi %i step +1\n", WORD),
    ("phi %i step -\n", WORD),
    ("phi %i step\n", WORD),
    ("phi %i step \n", WORD),
    ("phi %i same\n", None),
    ("phi %i same \n", WORD),
    ("phi %i reduce\n", None),
    ("phi %i grow\n", WORD),
    ("phi %9223372036854775808 grow\n", WORD),
    ("phi %i step 1\nphi %i same\n", REPEAT),
    ("phi %4 step 1\nphi %04 reduce\n", REPEAT),
    ("phi %4 step 1\nphi %\"4\" reduce\n", None),
    ("use @main:8/0 @n\n", None),
    ("use @main:8/0 @n\nuse @main:08/00 @\"n\"\n", REPEAT),
    ("use @main:8/0 @main:4\nuse @main:8/0 @main\n", None),
    ("use @main:8/0\n", WORD),
    ("use @main:8 @n\n", WORD),
    ("use @main/0 @n\n", WORD),
    ("use @main:8/9223372036854775808 @n\n", NUMBER),
    ("use @main:8/9223372036854775808 @n:\n", WORD),
    ("use @main:8/0 %n\n", WORD),
    ("use @main:8/0 @\n", WORD),
    ("local @main:4\n", None),
    ("local @main:4\nlocal @main:4\n", REPEAT),
    ("local @main\n", WORD),
    ("local @\"main\":4\n", None),
    ("local @\"ma\\69n\":4\nlocal @main:4\n", REPEAT),
    ("local @\"\\4D\":4\nlocal @\"\\4d\":4\n", REPEAT),
    ("local @\"\":4\n", None),
    ("local @\"a\\\\\":4\n", WORD),
    ("local @\"a b\":4\n", WORD),
    ("local @\"a:4\n", WORD),
    ("flow @n 0 8\n", None),
    ("flow @n 0 0\n", None),
    (
        "flow @main:4 9223372036854775807 9223372036854775807\n",
        None,
    ),
    ("flow @n 0 9223372036854775808\n", NUMBER),
    ("flow @n 0\n", WORD),
    ("flow @n 0 8 8\n", WORD),
    ("value @n 0 0a\n", None),
    ("value @n 0 0A\n", WORD),
    ("value @n 0 0\n", WORD),
    ("value @n 0 \n", WORD),
    ("value @n 9223372036854775808 0\n", WORD),
    (
        "value @n 0 00\nphi %i same\n",
        Some((5, ProfileCause::Order)),
    ),
    ("phi %i same\nblock %head\n", Some((5, ProfileCause::Order))),
    (
        "phi %i same\nblock %9223372036854775808\n",
        Some((5, ProfileCause::Number)),
    ),
    ("phi %i same\nblock head\n", Some((5, ProfileCause::Word))),
    ("phi %i same\nphi %i grow\n", Some((5, ProfileCause::Word))),
];

#[test]
fn lines_of_a_loop_are_taken_or_have_faults(rt: HostRuntime) {
    assert_eq!(rt; first_misread(rt.alloc(), LOOP, LINES, "end\n"), None);
}

/// A loop's line in a text of the first version, so that the next line is line 3.
const FIRST: &str = "privateer-profile 1\nloop @main %head\n";

const FIRST_PERIODS: &[(&str, Option<Fault>)] = &[
    ("", None),
    ("period 4\n", Some((3, ProfileCause::Word))),
    ("period 0\n", Some((3, ProfileCause::Word))),
    (
        "period 18446744073709551617\n",
        Some((3, ProfileCause::Word)),
    ),
    ("block %a\nperiod 4\n", Some((4, ProfileCause::Word))),
];

/// The same in a text of the second version.
const SECOND: &str = "privateer-profile 2\nloop @main %head\n";

const SECOND_PERIODS: &[(&str, Option<Fault>)] = &[
    ("", None),
    ("period 1\n", None),
    ("period 65533\n", None),
    ("period 0\n", Some((3, ProfileCause::Number))),
    ("period 65534\n", Some((3, ProfileCause::Number))),
    // The numbers 2^32+4, 2^63-1, 2^63 and 2^64+1.
    ("period 4294967300\n", Some((3, ProfileCause::Number))),
    (
        "period 9223372036854775807\n",
        Some((3, ProfileCause::Number)),
    ),
    (
        "period 9223372036854775808\n",
        Some((3, ProfileCause::Number)),
    ),
    (
        "period 18446744073709551617\n",
        Some((3, ProfileCause::Number)),
    ),
    ("period 0004\n", None),
    ("period 00000000000000000004\n", None),
    ("period  4\n", Some((3, ProfileCause::Word))),
    ("period 4 \n", Some((3, ProfileCause::Word))),
    ("period 4 4\n", Some((3, ProfileCause::Word))),
    ("period 65534 4\n", Some((3, ProfileCause::Word))),
    ("period \n", Some((3, ProfileCause::Word))),
    ("period\n", Some((3, ProfileCause::Word))),
    ("period -4\n", Some((3, ProfileCause::Word))),
    ("period +4\n", Some((3, ProfileCause::Word))),
    ("periods 4\n", Some((3, ProfileCause::Word))),
    ("#\n\nperiod 4\n", None),
    ("period 4\n#\n", None),
    ("period 4\nperiod 4\n", Some((4, ProfileCause::Order))),
    ("period 4\nperiod 5\n", Some((4, ProfileCause::Order))),
    ("period 4\nperiod 0\n", Some((4, ProfileCause::Number))),
    ("period 4\nperiod x\n", Some((4, ProfileCause::Word))),
    ("block %a\nperiod 4\n", Some((4, ProfileCause::Order))),
    (
        "block %a\nphi %i same\nperiod 4\n",
        Some((5, ProfileCause::Order)),
    ),
    ("block %a\nend\nperiod 4\n", Some((5, ProfileCause::Order))),
    ("period 4\nphi %i same\n", Some((4, ProfileCause::Order))),
    ("period 4\nend\n", Some((4, ProfileCause::Order))),
    ("period 4\nloop @main %b\n", Some((4, ProfileCause::Order))),
    ("period 4\nblock %a\nend\nloop @main %b\nperiod 4\n", None),
    (
        "period 4\nblock %a\nend\nloop @main %head\nperiod 5\n",
        Some((6, ProfileCause::Repeat)),
    ),
];

#[test]
fn a_period_stands_directly_after_its_loop(rt: HostRuntime) {
    let alloc = rt.alloc();
    let behind = "block %head\nend\n";
    assert_eq!(rt; first_misread(alloc, FIRST, FIRST_PERIODS, behind), None);
    assert_eq!(rt; first_misread(alloc, SECOND, SECOND_PERIODS, behind), None);
}

/// The counter's profile.
const COUNTER: &str =
    "privateer-profile 1\nloop @main %head\nblock %head\nblock %body\nblock %latch\nphi %i step 1\nuse @main:4/0 @n\nuse @main:6/0 @n\nend\n";

/// The first front of a text whose fault is not in its last line, or, where it ends here, that is no profile: its length.
fn first_misread_front(alloc: Global, text: &[u8]) -> Option<usize> {
    let mut lines = 0u32;
    for end in 0..text.len() {
        let is_profile = end == 19 || end == 20 || end + 1 == text.len();
        let wanted = if is_profile { 0 } else { lines.max(1) };
        if faulty_line(alloc, &text[..end]) != Some(wanted) {
            return Some(end);
        }
        if end == 0 || text[end - 1] == b'\n' {
            lines = lines.saturating_add(1);
        }
    }
    None
}

/// The line of a text's fault, 0 where it is a profile; none where memory is refused.
fn faulty_line(alloc: Global, text: &[u8]) -> Option<u32> {
    match fault(alloc, text) {
        None => Some(0),
        Some((0, _)) => None,
        Some((line, _)) => Some(line),
    }
}

#[test]
fn a_front_of_a_profile_is_faulty_in_its_last_line(rt: HostRuntime) {
    assert_eq!(rt; first_misread_front(rt.alloc(), COUNTER.as_bytes()), None);
}

const SAMPLES: &[(&str, [usize; 7])] = &[
    (COUNTER, [3, 1, 2, 0, 0, 0, 0]),
    (
        "privateer-profile 1\nloop @main %head\nblock %head\nblock %body\nblock %fill\nblock %say\nblock %latch\nphi %i step 1\nuse @main:8/0 @scratch\nuse @main:13/0 @scratch\nuse @main:14/0 @fmt\nend\n",
        [5, 1, 3, 0, 0, 0, 0],
    ),
    (
        "privateer-profile 1\nloop @main %head\nblock %head\nblock %body\nblock %latch\nphi %i step 1\nuse @main:5/0 @list\nuse @main:6/0 @main:4\nuse @main:7/0 @list\nuse @main:8/0 @tail\nuse @main:9/0 @list\nuse @main:10/0 @main:4\nuse @main:11/0 @list\nlocal @main:4\nflow @list 0 8\nvalue @list 0 0000000000000000\nend\n",
        [3, 1, 7, 1, 1, 1, 8],
    ),
    (
        "privateer-profile 1\nloop @main %head\nblock %head\nblock %body\nblock %drop\nblock %latch\nphi %i step 1\nuse @main:5/0 @main:4\nlocal @main:4\nend\n",
        [4, 1, 1, 1, 0, 0, 0],
    ),
    (
        "privateer-profile 1\nloop @main %head\nblock %head\nblock %body\nblock %latch\nphi %i step 1\nphi %s reduce\nend\n",
        [3, 2, 0, 0, 0, 0, 0],
    ),
    (
        "privateer-profile 1\nloop @main %head\nblock %head\nblock %body\nblock %write\nblock %test\nblock %read\nblock %latch\nphi %i step 1\nuse @main:6/0 @a\nuse @main:10/0 @a\nend\n",
        [6, 1, 2, 0, 0, 0, 0],
    ),
    (
        "privateer-profile 1\nloop @main %head\nblock %head\nblock %body\nblock %latch\nphi %i step 1\nend\n",
        [3, 1, 0, 0, 0, 0, 0],
    ),
    (
        "privateer-profile 1\nloop @main %head\nblock %head\nblock %body\nblock %set\nblock %get\nblock %latch\nphi %i step 1\nuse @main:6/0 @cur\nuse @main:8/0 @cur\nuse @main:9/0 @a\nend\n",
        [5, 1, 3, 0, 0, 0, 0],
    ),
    (
        "privateer-profile 2\nloop @main %head\nblock %head\nblock %body\nblock %latch\nphi %i step 1\nuse @main:8/0 @tail\nuse @main:9/0 @tail\nuse @main:10/0 @main:4\nlocal @main:4\nend\n",
        [3, 1, 3, 1, 0, 0, 0],
    ),
    (
        "privateer-profile 1\nloop @main %head\nblock %head\nphi %i step -9223372036854775808\nvalue @a 0 ff\nend",
        [1, 1, 0, 0, 0, 1, 1],
    ),
];

/// The first text that is read as a loop of other sizes than those behind it, or refused.
fn first_of_other_sizes<'a>(alloc: Global, rows: &[(&'a str, [usize; 7])]) -> Option<&'a str> {
    for (text, wanted) in rows {
        if read(alloc, text.as_bytes()) != Ok(Some(*wanted)) {
            return Some(*text);
        }
    }
    None
}

#[test]
fn sample_profiles_have_these_sizes(rt: HostRuntime) {
    assert_eq!(rt; first_of_other_sizes(rt.alloc(), SAMPLES), None);
}

/// The version of a profile, and the periods of its first two loops.
type Periods = (u32, Option<u32>, Option<u32>);

const READ_PERIODS: &[(&str, Periods)] = &[
    ("privateer-profile 1\n", (1, None, None)),
    ("privateer-profile 2\n", (2, None, None)),
    (COUNTER, (1, None, None)),
    (
        "privateer-profile 2\nloop @main %head\nblock %head\nend\nloop @main %b\nperiod 65533\nblock %b\nend\n",
        (2, None, Some(65_533)),
    ),
    (
        "privateer-profile 2\nloop @main %head\nperiod 0004\nblock %head\nend\nloop @main %b\nperiod 1\nblock %b\nend",
        (2, Some(4), Some(1)),
    ),
    (
        "privateer-profile 2\nloop @main %head0\nperiod 300\nblock %head0\nblock %body0\nblock %latch0\nphi %i0 step 1\nend\n",
        (2, Some(300), None),
    ),
];

/// What a text says of its version and its periods; none where it is no profile.
fn periods(alloc: Global, text: &str) -> Option<Periods> {
    if text.len() > 1_000_000 {
        return None;
    }
    let Ok(profile) = read_profile(alloc, text.as_bytes()) else {
        return None;
    };
    match profile.loops.as_slice() {
        [first, second, ..] => Some((profile.version, first.period, second.period)),
        [first] => Some((profile.version, first.period, None)),
        [] => Some((profile.version, None, None)),
    }
}

/// The first text of another version or of other periods than those behind it.
fn first_of_other_periods<'a>(alloc: Global, rows: &[(&'a str, Periods)]) -> Option<&'a str> {
    for (text, wanted) in rows {
        if periods(alloc, *text) != Some(*wanted) {
            return Some(*text);
        }
    }
    None
}

#[test]
fn versions_and_periods_are_read(rt: HostRuntime) {
    assert_eq!(rt; first_of_other_periods(rt.alloc(), READ_PERIODS), None);
}

const BLOCK: &str = "privateer-profile 1\nloop @main %head\nblock %";

const VALUE: &str = "privateer-profile 1\nloop @main %head\nblock %head\nvalue @a 0 ";

const PHI: &str = "privateer-profile 1\nloop @main %head\nblock %head\nphi %i same\nblock %";

const TWICE: &str = "privateer-profile 1\nloop @main %head\nblock %head\nphi %4 same\nphi %";

const PERIOD: &str = "privateer-profile 2\nloop @main %head\nperiod ";

/// Texts of a unit so many times between a front and an end, and their faults.
const STRETCHED: &[(&str, &str, usize, &str, Option<Fault>)] = &[
    (BLOCK, "a", 4089, "\nend", None),
    (BLOCK, "a", 4090, "\nend", Some((3, ProfileCause::TooLong))),
    (BLOCK, " ", 4090, "\nend", Some((3, ProfileCause::TooLong))),
    (BLOCK, " ", 4089, "\nend", Some((3, ProfileCause::Word))),
    ("", "a", 4096, "", Some((1, ProfileCause::Head))),
    ("", "a", 4097, "", Some((1, ProfileCause::TooLong))),
    ("#", "a", 4097, "\nprivateer-profile 1", None),
    (VALUE, "0a", 1024, "\nend", None),
    (VALUE, "0a", 1025, "\nend", Some((4, ProfileCause::Number))),
    // Too long goes before a number out of range, a word out of order, and a repeat.
    (VALUE, "0a", 2043, "\nend", Some((4, ProfileCause::TooLong))),
    (PHI, "a", 4090, "\nend", Some((5, ProfileCause::TooLong))),
    (PHI, "a", 4089, "\nend", Some((5, ProfileCause::Order))),
    (PERIOD, "0", 4088, "4\nblock %head\nend", None),
    (
        PERIOD,
        "0",
        4089,
        "4\nblock %head\nend",
        Some((3, ProfileCause::TooLong)),
    ),
    (
        PERIOD,
        "0",
        4089,
        "\nblock %head\nend",
        Some((3, ProfileCause::Number)),
    ),
    (
        TWICE,
        "0",
        4091,
        "4 same\nend",
        Some((5, ProfileCause::TooLong)),
    ),
    (
        TWICE,
        "0",
        4085,
        "4 same\nend",
        Some((5, ProfileCause::Repeat)),
    ),
];

/// The fault of a unit so many times between a front and an end.
fn fault_stretched(
    alloc: Global,
    before: &str,
    unit: &str,
    count: usize,
    behind: &str,
) -> Option<Fault> {
    match unit.repeat(alloc, count) {
        Ok(text) => fault_between(alloc, before, text.as_str(), behind),
        Err(_) => Some(NO_MEMORY),
    }
}

/// The first row whose fault is not what it says.
fn first_misread_stretch(
    alloc: Global,
    rows: &[(&str, &str, usize, &str, Option<Fault>)],
) -> Option<usize> {
    for row in 0..rows.len() {
        let (before, unit, count, behind, wanted) = rows[row];
        if fault_stretched(alloc, before, unit, count, behind) != wanted {
            return Some(row);
        }
    }
    None
}

#[test]
fn long_lines_are_refused_as_too_long_first(rt: HostRuntime) {
    assert_eq!(rt; first_misread_stretch(rt.alloc(), STRETCHED), None);
}
