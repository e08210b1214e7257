//! The status that each list of words, each file and each sink gives.
use privateer_core::top::plain_top;
use pv_base::bytes::Bytes;
use pv_base::in_memory::{MemFiles, MemSink};
use pv_base::list::List;
use pv_base::want::Memory;
use std::alloc::Global;
use std::test::Fail;

const RETURN_ZERO: &str = "define i32 @main() {\n  ret i32 0\n}\n";

const PRINT: &str =
    "declare i32 @putchar(i32)\ndefine i32 @main() {\n  %p = call i32 @putchar(i32 65)\n  ret i32 0\n}\n";

const RETURN_LEAST: &str = "define i32 @main() {\nentry.1:\n  ret i32 -2147483648\n}\n";

const RETURN_MOST: &str = "define i32 @main() {\n  ret i32 4294967295\n}\n";

fn words_of(alloc: Global, words: &[&str]) -> Result<List<Bytes>, Memory> {
    let mut list = List::new(alloc);
    for word in words {
        list.push(Bytes::from_slice(alloc, word.as_bytes())?)?;
    }
    Ok(list)
}

fn files_of(alloc: Global, entries: &[(&str, &str)], large: &[&str]) -> Result<MemFiles, Memory> {
    let mut list = List::new(alloc);
    for (name, content) in entries {
        let name = Bytes::from_slice(alloc, name.as_bytes())?;
        let content = Bytes::from_slice(alloc, content.as_bytes())?;
        list.push((name, content))?;
    }
    for name in large {
        let name = Bytes::from_slice(alloc, name.as_bytes())?;
        let content = vec![in alloc; b' '; 4_194_305]?;
        let content = Bytes::from_slice(alloc, content.as_slice())?;
        list.push((name, content))?;
    }
    Ok(MemFiles::new(list, List::new(alloc)))
}

#[test]
fn answers_by_status(rt: HostRuntime) -> Result<(), Fail> {
    let alloc = rt.alloc();
    let entries = [
        ("zero", RETURN_ZERO),
        ("least", RETURN_LEAST),
        ("most", RETURN_MOST),
        ("none", ""),
        ("past", "define i32 @main() {\n  ret i32 4294967296\n}\n"),
        ("i", ""),
    ];
    // module, input, budget; status, report
    let cases: [(&str, &str, &str, u8, &str); 13] = [
        ("zero", "i", "1", 0, "ended 0 steps 1\n"),
        ("zero", "i", "1000000000000", 0, "ended 0 steps 1\n"),
        ("least", "i", "007", 0, "ended -2147483648 steps 1\n"),
        ("most", "i", "1", 0, "ended -1 steps 1\n"),
        ("none", "gone", "1", 3, "refused check no-main\n"),
        ("past", "gone", "1", 3, "refused module line 2 number\n"),
        ("zero", "i", "0", 4, "usage --budget 0\n"),
        (
            "zero",
            "i",
            "1000000000001",
            4,
            "usage --budget 1000000000001\n",
        ),
        ("zero", "i", "x", 4, "usage --budget x\n"),
        ("gone", "i", "1", 5, "fault reading gone\n"),
        ("zero", "gone", "1", 5, "fault reading gone\n"),
        ("large", "i", "1", 8, "too long large\n"),
        ("zero", "large", "1", 8, "too long large\n"),
    ];
    let mut files = files_of(alloc, &entries, &["large"])?;
    for (module, input, budget, status, line) in &cases {
        let words = ["privateer", "run", *module, *input, "--budget", *budget];
        let words = words_of(alloc, &words)?;
        let mut out = MemSink::with_room(alloc, 99, List::new(alloc))?;
        let mut report = MemSink::with_room(alloc, 99, List::new(alloc))?;
        let end = plain_top(alloc, &words, &mut files, &mut out, &mut report);
        assert_eq!(rt; end, *status);
        assert!(rt; out.bytes().is_empty());
        assert!(rt; report.bytes() == line.as_bytes());
    }
    Ok(())
}

#[test]
fn other_words_are_refused(rt: HostRuntime) -> Result<(), Fail> {
    let alloc = rt.alloc();
    // the words, and how the report begins
    let cases: [(&[&str], &str); 7] = [
        (&[], "usage words\n"),
        (&["privateer"], "error: "),
        (&["privateer", "walk", "zero"], "error: "),
        (&["privateer", "run", "zero", "i", "--budget"], "error: "),
        (
            &["privateer", "run", "zero", "i", "--budget", "1", "1"],
            "error: ",
        ),
        (&["privateer", "check", "zero", "--budget", "1"], "error: "),
        (
            &["privateer", "run", "--budget", "0", "zero", "i"],
            "usage --budget 0\n",
        ),
    ];
    let mut files = files_of(alloc, &[("zero", RETURN_ZERO), ("i", "")], &[])?;
    for (words, begins) in &cases {
        let words = words_of(alloc, *words)?;
        let mut out = MemSink::with_room(alloc, 99, List::new(alloc))?;
        let mut report = MemSink::with_room(alloc, 9999, List::new(alloc))?;
        let status = plain_top(alloc, &words, &mut files, &mut out, &mut report);
        assert_eq!(rt; status, 4);
        assert!(rt; out.bytes().is_empty());
        assert!(rt; report.bytes().starts_with(begins.as_bytes()));
    }
    Ok(())
}

#[test]
fn a_module_is_checked(rt: HostRuntime) -> Result<(), Fail> {
    let alloc = rt.alloc();
    let entries = [("zero", RETURN_ZERO), ("none", "")];
    // module; status, output, report
    let cases: [(&str, u8, &str, &str); 4] = [
        (
            "zero",
            0,
            "accepted functions 1 globals 0 instructions 1\n",
            "",
        ),
        ("none", 3, "", "refused check no-main\n"),
        ("gone", 5, "", "fault reading gone\n"),
        ("large", 8, "", "too long large\n"),
    ];
    let mut files = files_of(alloc, &entries, &["large"])?;
    for (module, status, put, line) in &cases {
        let words = words_of(alloc, &["privateer", "check", *module])?;
        let mut out = MemSink::with_room(alloc, 99, List::new(alloc))?;
        let mut report = MemSink::with_room(alloc, 99, List::new(alloc))?;
        let end = plain_top(alloc, &words, &mut files, &mut out, &mut report);
        assert_eq!(rt; end, *status);
        assert!(rt; out.bytes() == put.as_bytes());
        assert!(rt; report.bytes() == line.as_bytes());
    }
    Ok(())
}

#[test]
fn words_of_other_bytes_are_refused(rt: HostRuntime) -> Result<(), Fail> {
    let alloc = rt.alloc();
    let mut words = words_of(alloc, &["privateer", "run", "zero", "i", "--budget"])?;
    words.push(Bytes::from_slice(alloc, &[0xFF])?)?;
    let mut files = files_of(alloc, &[("zero", RETURN_ZERO), ("i", "")], &[])?;
    let mut out = MemSink::with_room(alloc, 99, List::new(alloc))?;
    let mut report = MemSink::with_room(alloc, 99, List::new(alloc))?;
    assert_eq!(rt;
        plain_top(alloc, &words, &mut files, &mut out, &mut report),
        4
    );
    assert!(rt; report.bytes() == b"usage words\n".as_slice());
    Ok(())
}

#[test]
fn a_report_that_fails_is_a_write_fault(rt: HostRuntime) -> Result<(), Fail> {
    let alloc = rt.alloc();
    let words = words_of(alloc, &["privateer", "run", "zero", "i", "--budget", "1"])?;
    let mut files = files_of(alloc, &[("zero", RETURN_ZERO), ("i", "")], &[])?;
    let mut out = MemSink::with_room(alloc, 99, List::from_slice(alloc, &[1])?)?;
    let mut report = MemSink::with_room(alloc, 99, List::from_slice(alloc, &[1])?)?;
    assert_eq!(rt;
        plain_top(alloc, &words, &mut files, &mut out, &mut report),
        6
    );
    assert!(rt; out.bytes().is_empty());
    assert!(rt; report.bytes().is_empty());
    Ok(())
}

#[test]
fn an_output_that_fails_is_a_write_fault(rt: HostRuntime) -> Result<(), Fail> {
    let alloc = rt.alloc();
    let words = words_of(alloc, &["privateer", "run", "print", "i", "--budget", "9"])?;
    // the call of the output that fails, its room; what it holds then
    let cases: [(u32, usize, &[u8]); 2] = [(1, 99, b""), (9, 0, b"")];
    let mut files = files_of(alloc, &[("print", PRINT), ("i", "")], &[])?;
    for (failing, room, held) in &cases {
        let mut out = MemSink::with_room(alloc, *room, List::from_slice(alloc, &[*failing])?)?;
        let mut report = MemSink::with_room(alloc, 99, List::new(alloc))?;
        let end = plain_top(alloc, &words, &mut files, &mut out, &mut report);
        assert_eq!(rt; end, 6);
        assert!(rt; out.bytes() == *held);
        assert!(rt; report.bytes().is_empty());
    }
    Ok(())
}

#[test]
fn a_read_that_fails_is_a_read_fault(rt: HostRuntime) -> Result<(), Fail> {
    let alloc = rt.alloc();
    let words = words_of(alloc, &["privateer", "run", "zero", "i", "--budget", "1"])?;
    // the read that fails; the report
    let cases: [(u32, &str); 2] = [(1, "fault reading zero\n"), (2, "fault reading i\n")];
    for (failing, line) in &cases {
        let mut files = List::new(alloc);
        for (name, content) in [("zero", RETURN_ZERO), ("i", "")] {
            let name = Bytes::from_slice(alloc, name.as_bytes())?;
            files.push((name, Bytes::from_slice(alloc, content.as_bytes())?))?;
        }
        let mut files = MemFiles::new(files, List::from_slice(alloc, &[*failing])?);
        let mut out = MemSink::with_room(alloc, 99, List::new(alloc))?;
        let mut report = MemSink::with_room(alloc, 99, List::new(alloc))?;
        let end = plain_top(alloc, &words, &mut files, &mut out, &mut report);
        assert_eq!(rt; end, 5);
        assert!(rt; out.bytes().is_empty());
        assert!(rt; report.bytes() == line.as_bytes());
    }
    Ok(())
}
