//! The words of a command line, as tables.
use command_words::request::{Request, read_request};
use pv_base::bytes::Bytes;
use pv_base::want::Memory;
use std::alloc::Global;
use std::test::Fail;

fn words_of(alloc: Global, words: &[&[u8]]) -> Result<Vec<Bytes>, Memory> {
    let mut list = Vec::new(alloc);
    for word in words {
        list.push(Bytes::from_slice(alloc, word)?)?;
    }
    Ok(list)
}

fn asked(alloc: Global, words: &[&[u8]]) -> Result<Request, Memory> {
    let words = words_of(alloc, words)?;
    read_request(alloc, words.as_slice())
}

fn text_of(alloc: Global, bytes: &Bytes) -> Result<String, Fail> {
    Ok(String::from_utf8_lossy(alloc, bytes.as_slice())?)
}

/// The request as one text.
fn read(alloc: Global, words: &[&[u8]]) -> Result<String, Fail> {
    match asked(alloc, words)? {
        Request::Usage { line } => text_of(alloc, &line),
        Request::Refused { text: _ } => Ok(String::from_str(alloc, "clap")?),
        Request::Run {
            module,
            input,
            budget,
        } => Ok(format!(in alloc; "run {module} {input} {budget}")?),
        Request::Check { module } => Ok(format!(in alloc; "check {module}")?),
    }
}

/// What is asked by lines that `clap` takes, or by none.
const ASKED: &[(&[&[u8]], &str)] = &[
    (&[b"p", b"run", b"m", b"i", b"--budget", b"7"], "run m i 7"),
    (&[b"p", b"run", b"m", b"--budget", b"7", b"i"], "run m i 7"),
    (&[b"p", b"run", b"--budget", b"7", b"m", b"i"], "run m i 7"),
    (&[b"p", b"run", b"m", b"i", b"--budget=7"], "run m i 7"),
    (&[b"p", b"run", b"m", b"--budget=7", b"i"], "run m i 7"),
    (&[b"p", b"run", b"--budget=7", b"m", b"i"], "run m i 7"),
    (&[b"p", b"check", b"m"], "check m"),
    // Options end at two hyphens.
    (
        &[b"p", b"run", b"--budget", b"7", b"--", b"-m", b"--budget"],
        "run -m --budget 7",
    ),
    (&[b"p", b"check", b"--", b"--help"], "check --help"),
    // A word that is no text is refused first.
    (&[], "usage words\n"),
    (
        &[NONE, b"run", b"m", b"i", b"--budget", b"7"],
        "usage words\n",
    ),
    (
        &[b"p", NONE, b"m", b"i", b"--budget", b"7"],
        "usage words\n",
    ),
    (
        &[b"p", b"run", NONE, b"i", b"--budget", b"7"],
        "usage words\n",
    ),
    (
        &[b"p", b"run", b"m", NONE, b"--budget", b"7"],
        "usage words\n",
    ),
    (&[b"p", b"run", b"m", b"i", NONE, b"7"], "usage words\n"),
    (
        &[b"p", b"run", b"m", b"i", b"--budget", NONE],
        "usage words\n",
    ),
];

/// No text.
const NONE: &[u8] = b"m\xff";

/// What a budget asks.
const BUDGETS: &[(&str, &str)] = &[
    ("1", "run m i 1"),
    ("007", "run m i 7"),
    ("1000000000000", "run m i 1000000000000"),
    ("0000000000000000001", "run m i 1"),
    (
        "00000000000000000001",
        "usage --budget 00000000000000000001\n",
    ),
    ("1000000000001", "usage --budget 1000000000001\n"),
    ("0", "usage --budget 0\n"),
    ("", "usage --budget \n"),
    ("+7", "usage --budget +7\n"),
    ("7 ", "usage --budget 7 \n"),
    ("x", "usage --budget x\n"),
];

/// Lines that `clap` refuses.
const REFUSED: &[&[&[u8]]] = &[
    &[b"p"],
    &[b"p", b"ran", b"m", b"i", b"--budget", b"7"],
    &[b"p", b"run", b"m", b"i"],
    &[b"p", b"run", b"m", b"--budget", b"7"],
    &[b"p", b"run", b"m", b"i", b"j", b"--budget", b"7"],
    &[
        b"p",
        b"run",
        b"m",
        b"i",
        b"--budget",
        b"7",
        b"--budget",
        b"7",
    ],
    &[b"p", b"run", b"m", b"i", b"--budget", b"7", b"--budget=8"],
    &[b"p", b"run", b"m", b"i", b"--budget"],
    &[
        b"p",
        b"run",
        b"m",
        b"i",
        b"--budget",
        b"7",
        b"--workers",
        b"2",
    ],
    &[b"p", b"--budget", b"7", b"run", b"m", b"i"],
    &[b"p", b"check"],
    &[b"p", b"check", b"m", b"--budget", b"7"],
];

const ALL: &[&str] = &[
    "Usage: privateer <COMMAND>",
    "  run    Runs the function main of a module, and reports how it ended",
    "  check  Reads and checks a module, and counts what it holds",
    "Exit status:",
    "  2  the run took all the steps of its budget",
];

const RUN: &[&str] = &[
    "Usage: privateer run --budget <N> <MODULE> <INPUT>",
    "  <MODULE>  The file of the module, textual LLVM IR",
    "  <INPUT>   The file that the module reads as its input",
    "      --budget <N>  The most steps to take, 1 to 1000000000000",
];

/// Lines that ask for help, and lines that it has.
const HELPS: &[(&[&[u8]], &[&str])] = &[
    (&[b"privateer", b"--help"], ALL),
    (&[b"privateer", b"-h"], ALL),
    (&[b"privateer", b"help"], ALL),
    (&[b"privateer", b"run", b"--help"], RUN),
    (&[b"privateer", b"help", b"run"], RUN),
];

#[test]
fn words_are_read_as_requests(rt: HostRuntime) -> Result<(), Fail> {
    for (words, wanted) in ASKED {
        let text = read(rt.alloc(), words)?;
        assert!(rt; text.as_str() == *wanted, "{text}");
    }
    Ok(())
}

#[test]
fn a_budget_is_a_number_within_its_limit(rt: HostRuntime) -> Result<(), Fail> {
    for (budget, wanted) in BUDGETS {
        let words: [&[u8]; 6] = [b"p", b"run", b"m", b"i", b"--budget", budget.as_bytes()];
        let text = read(rt.alloc(), &words)?;
        assert!(rt; text.as_str() == *wanted, "{text}");
    }
    Ok(())
}

/// What `clap` says where it refuses the words or is asked for help, and else nothing.
fn said(alloc: Global, words: &[&[u8]]) -> Result<String, Fail> {
    match asked(alloc, words)? {
        Request::Refused { text } => text_of(alloc, &text),
        _ => Ok(String::new(alloc)),
    }
}

#[test]
fn other_words_are_refused_by_clap(rt: HostRuntime) -> Result<(), Fail> {
    for words in REFUSED {
        let text = said(rt.alloc(), words)?;
        assert!(rt; text.as_str().starts_with("error: "), "{text}");
    }
    Ok(())
}

/// Whether each of the lines is one of the text.
fn has_lines(text: &str, lines: &[&str]) -> bool {
    for line in lines {
        if !text.lines().any(|l| l == *line) {
            return false;
        }
    }
    true
}

#[test]
fn help_names_commands_words_and_statuses(rt: HostRuntime) -> Result<(), Fail> {
    for (words, lines) in HELPS {
        let text = said(rt.alloc(), words)?;
        assert!(rt; has_lines(text.as_str(), lines), "{text}");
    }
    Ok(())
}
