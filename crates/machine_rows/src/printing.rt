//! The names of functions outside a module, and what `printf` prints, as tables.
use int_num::int::Int;
use pv_base::bytes::Bytes;
use pv_base::external::External;
use pv_base::list::List;
use pv_base::want::Memory;
use seq_calls::laws::names_are_known_by_their_spelling;
use seq_calls::names::known;
use seq_calls::printing::{format_text, text_args};
use seq_calls::show::{Arg, FormatEnd};
use std::alloc::Global;
use std::test::Fail;

const NAMES: &[(&str, Option<External>)] = &[
    ("malloc", Some(External::Malloc)),
    ("calloc", Some(External::Calloc)),
    ("free", Some(External::Free)),
    ("putchar", Some(External::Putchar)),
    ("puts", Some(External::Puts)),
    ("getchar", Some(External::Getchar)),
    ("printf", Some(External::Printf)),
    ("exit", Some(External::Exit)),
    ("abort", Some(External::Abort)),
    ("llvm.memcpy.p0.p0.i32", Some(External::Memcpy(32))),
    ("llvm.memcpy.p0.p0.i64", Some(External::Memcpy(64))),
    ("llvm.memmove.p0.p0.i32", Some(External::Memmove(32))),
    ("llvm.memmove.p0.p0.i64", Some(External::Memmove(64))),
    ("llvm.memset.p0.i32", Some(External::Memset(32))),
    ("llvm.memset.p0.i64", Some(External::Memset(64))),
    ("llvm.lifetime.start.p0", Some(External::LifetimeStart)),
    ("llvm.lifetime.end.p0", Some(External::LifetimeEnd)),
    // The greater and the less at each width.
    ("llvm.smax.i1", Some(External::Smax(1))),
    ("llvm.smin.i9", Some(External::Smin(9))),
    ("llvm.umax.i10", Some(External::Umax(10))),
    ("llvm.umin.i64", Some(External::Umin(64))),
    ("llvm.smax.i32", Some(External::Smax(32))),
    // Near misses.
    ("", None),
    ("mallocx", None),
    ("mallo", None),
    ("Malloc", None),
    ("llvm.memcpy.p0.p0.i16", None),
    ("llvm.memset.p0.i064", None),
    ("llvm.smax.i", None),
    ("llvm.smax.i0", None),
    ("llvm.smax.i08", None),
    ("llvm.smax.i65", None),
    ("llvm.smax.i100", None),
    ("llvm.umin.i3x", None),
];

#[test]
fn externals_are_known_by_their_exact_names(rt: HostRuntime) {
    for (name, wanted) in NAMES {
        assert!(rt; known(name.as_bytes()) == *wanted, "{name}");
    }
    names_are_known_by_their_spelling();
}

/// An argument of a row.
#[derive(Clone, Copy)]
enum Given {
    Int(u32),
    Long(u64),
    Text(&'static [u8]),
    Other,
}

const LEAST: u64 = 1 << 63;

/// What formats print of their arguments.
const PRINTED: &[(&str, &[Given], &[u8])] = &[
    ("%d", &[Given::Int(0)], b"0"),
    ("%d", &[Given::Int(0xffff_ffff)], b"-1"),
    ("%i", &[Given::Int(0x8000_0000)], b"-2147483648"),
    ("%i", &[Given::Int(0x7fff_ffff)], b"2147483647"),
    ("%u", &[Given::Int(0xffff_ffff)], b"4294967295"),
    ("%x", &[Given::Int(0xffff_ffff)], b"ffffffff"),
    ("%x", &[Given::Int(0)], b"0"),
    ("%c", &[Given::Int(255)], b"\xff"),
    ("%c", &[Given::Int(0x141)], b"A"),
    ("%ld", &[Given::Long(u64::MAX)], b"-1"),
    ("%ld", &[Given::Long(LEAST)], b"-9223372036854775808"),
    ("%lld", &[Given::Long(LEAST - 1)], b"9223372036854775807"),
    ("%lu", &[Given::Long(u64::MAX)], b"18446744073709551615"),
    ("%llu", &[Given::Long(0)], b"0"),
    ("%lx", &[Given::Long(u64::MAX)], b"ffffffffffffffff"),
    ("%s", &[Given::Text(b"a text")], b"a text"),
    ("100%%", &[Given::Int(1)], b"100%"),
    // Arguments are taken in order.
    ("%d %u %x %c%%", NUMBERS, b"-1 4294967295 ff A%"),
    ("%s, %d, %s", TEXTS, b"one, 2, three"),
];

const NUMBERS: &[Given] = &[
    Given::Int(0xffff_ffff),
    Given::Int(0xffff_ffff),
    Given::Int(255),
    Given::Int(65),
    Given::Int(7),
];

const TEXTS: &[Given] = &[
    Given::Text(b"one"),
    Given::Int(2),
    Given::Text(b"three"),
    Given::Other,
];

/// Formats that trap at an argument.
const TRAPS: &[(&str, Given)] = &[
    ("%5d", Given::Int(1)),
    ("%.2x", Given::Int(1)),
    ("%X", Given::Int(1)),
    ("text %", Given::Int(1)),
    ("%l", Given::Long(1)),
    ("%ll", Given::Long(1)),
    ("%llx", Given::Long(1)),
    ("%li", Given::Long(1)),
    ("%d%d", Given::Int(1)),
    ("%d", Given::Long(1)),
    ("%ld", Given::Int(1)),
    ("%s", Given::Int(1)),
    ("%u", Given::Text(b"1")),
    ("%c", Given::Long(65)),
];

/// The arguments of `TEXTS` whose texts formats read.
const READ: &[(&str, &[u32])] = &[
    ("%s, %d, %s%s%d%s", &[0, 2, 3]),
    ("%s %u%%%s %5d %s", &[0, 2]),
];

fn argument(alloc: Global, given: Given) -> Result<Arg, Memory> {
    match given {
        Given::Int(bits) => Ok(Arg::Int(Int::new(32, u64::from(bits)))),
        Given::Long(bits) => Ok(Arg::Int(Int::new(64, bits))),
        Given::Text(bytes) => Ok(Arg::Text(Bytes::from_slice(alloc, bytes)?)),
        Given::Other => Ok(Arg::Other),
    }
}

fn arguments(alloc: Global, given: &[Given]) -> Result<List<Arg>, Memory> {
    let mut args = List::new(alloc);
    for one in given {
        args.push(argument(alloc, *one)?)?;
    }
    Ok(args)
}

fn prints(alloc: Global, format: &str, given: &[Given], wanted: &[u8]) -> Result<bool, Memory> {
    let args = arguments(alloc, given)?;
    match format_text(alloc, format.as_bytes(), &args) {
        Ok(text) => Ok(text.as_slice() == wanted),
        Err(_) => Ok(false),
    }
}

fn traps(alloc: Global, format: &str, given: Given) -> Result<bool, Memory> {
    let args = arguments(alloc, &[given])?;
    match format_text(alloc, format.as_bytes(), &args) {
        Ok(_) => Ok(false),
        Err(end) => Ok(end == FormatEnd::Bad),
    }
}

#[test]
fn formats_print_their_arguments_in_order(rt: HostRuntime) -> Result<(), Fail> {
    for (format, given, wanted) in PRINTED {
        assert!(rt; prints(rt.alloc(), format, given, wanted)?, "{format}");
    }
    Ok(())
}

#[test]
fn other_directives_and_arguments_trap(rt: HostRuntime) -> Result<(), Fail> {
    for (format, given) in TRAPS {
        assert!(rt; traps(rt.alloc(), format, *given)?, "{format}");
    }
    Ok(())
}

#[test]
fn texts_are_read_of_the_directives_before_a_trap(rt: HostRuntime) -> Result<(), Fail> {
    let args = arguments(rt.alloc(), TEXTS)?;
    for (format, wanted) in READ {
        let found = text_args(rt.alloc(), format.as_bytes(), &args)?;
        assert!(rt; found.as_slice() == *wanted, "{format}");
    }
    Ok(())
}
