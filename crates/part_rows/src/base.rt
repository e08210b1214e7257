//! Files, sinks, lists and places; the adapters of the host each on a file that the test writes.
use int_num::int::Int;
use int_num::ops::RedKind;
use pv_base::bytes::Bytes;
use pv_base::external::External;
use pv_base::host::{HostFiles, HostSink};
use pv_base::in_memory::{MemFiles, MemSink};
use pv_base::list::List;
use pv_base::name::Name;
use pv_base::outside::{FileEnd, Files, Sink, SinkFault};
use pv_base::place::{AllocSite, Heap, Place, Site};
use pv_base::want::Memory;
use std::alloc::Global;
use std::fs;
use std::io::Cursor;
use std::process::Abort;
use std::test::Fail;

fn crosses_threads<T: Send + Sync>() {}

#[test]
fn shared_types_cross_threads() {
    crosses_threads::<Bytes>();
    crosses_threads::<List<u64>>();
    crosses_threads::<List<List<Name>>>();
    crosses_threads::<Site>();
    crosses_threads::<List<(AllocSite, Heap)>>();
    crosses_threads::<List<Place>>();
    crosses_threads::<External>();
    crosses_threads::<Memory>();
    crosses_threads::<Int>();
    crosses_threads::<RedKind>();
}

const PLACES: &[(Place, Place)] = &[
    (Place { name: 1, offset: 9 }, Place { name: 2, offset: 0 }),
    (
        Place { name: 1, offset: 9 },
        Place {
            name: 1,
            offset: 10,
        },
    ),
];

#[test]
fn orders_of_places(rt: HostRuntime) {
    let first = AllocSite::At(Site {
        function: 0,
        place: 0,
    });
    assert!(rt; AllocSite::Global(7) < first);
    for (before, after) in PLACES {
        assert!(rt; before < after);
    }
}

/// Reads of one name: the limit, the answer, and what stands there afterwards.
fn reads(
    rt: &impl Abort,
    alloc: Global,
    files: &mut impl Files,
    name: &str,
    rows: &[(usize, Result<(), FileEnd>, &str)],
) {
    let mut to = Bytes::new(alloc);
    for (limit, end, content) in rows {
        let answer = files.read(name, *limit, &mut to);
        assert!(rt;
            answer == *end && to.as_slice() == content.as_bytes(),
            "{limit}"
        );
    }
}

const HOST_READS: &[(usize, Result<(), FileEnd>, &str)] = &[
    (12, Ok(()), "twelve bytes"),
    (11, Err(FileEnd::TooLong), ""),
];

const MISSING: &[(usize, Result<(), FileEnd>, &str)] = &[(12, Err(FileEnd::Failed), "")];

#[test]
fn host_files_read_a_file(rt: HostRuntime) -> Result<(), Fail> {
    let alloc = rt.alloc();
    let folder = std::env::temp_dir(&rt)?;
    let path = folder.join(alloc, "privateer_host_files")?;
    let name = path.to_str().ok_or("the name is no text")?;
    fs::write(&rt, name, "twelve bytes")?;
    let mut files = HostFiles::new(&rt);
    reads(&rt, alloc, &mut files, name, HOST_READS);
    fs::remove_file(&rt, name)?;
    reads(&rt, alloc, &mut files, name, MISSING);
    Ok(())
}

/// Puts, and whether each is a fault.
fn puts(rt: &impl Abort, sink: &mut impl Sink, rows: &[(&str, Result<(), SinkFault>)]) {
    for (text, end) in rows {
        let bytes = text.as_bytes();
        assert!(rt; !bytes.is_empty(), "a row of no bytes");
        assert_eq!(rt; sink.put(bytes), *end, "{text}");
    }
}

const TAKEN: &[(&str, Result<(), SinkFault>)] = &[("one, ", Ok(())), ("two", Ok(()))];

#[test]
fn a_host_sink_writes_a_file(rt: HostRuntime) -> Result<(), Fail> {
    let folder = std::env::temp_dir(&rt)?;
    let path = folder.join(rt.alloc(), "privateer_host_sink")?;
    let name = path.to_str().ok_or("the name is no text")?;
    let mut sink = HostSink::new(fs::create(&rt, name)?);
    puts(&rt, &mut sink, TAKEN);
    let text = fs::read_to_string(&rt, name)?;
    fs::remove_file(&rt, name)?;
    assert!(rt; text.as_str() == "one, two");
    Ok(())
}

const NARROW: &[(&str, Result<(), SinkFault>)] = &[("abc", Ok(())), ("de", Err(SinkFault))];

#[test]
fn a_writer_that_takes_nothing_is_a_fault(rt: HostRuntime) {
    let mut sink = HostSink::new(Cursor::new([0u8; 4]));
    puts(&rt, &mut sink, NARROW);
}

const LISTED: &[(usize, Result<(), FileEnd>, &str)] = &[
    (4, Ok(()), "1234"),
    (4, Err(FileEnd::Failed), ""),
    (3, Err(FileEnd::TooLong), ""),
];

const UNKNOWN: &[(usize, Result<(), FileEnd>, &str)] = &[(4, Err(FileEnd::Failed), "")];

#[test]
fn listed_reads_fail(rt: HostRuntime) -> Result<(), Fail> {
    let alloc = rt.alloc();
    let name = Bytes::from_slice(alloc, b"a")?;
    let content = Bytes::from_slice(alloc, b"1234")?;
    let mut entries = List::new(alloc);
    entries.push((name, content))?;
    let mut files = MemFiles::new(entries, List::from_slice(alloc, &[2])?);
    reads(&rt, alloc, &mut files, "a", LISTED);
    reads(&rt, alloc, &mut files, "b", UNKNOWN);
    Ok(())
}

const PUTS: &[(&str, Result<(), SinkFault>)] = &[
    ("1234", Ok(())),
    ("5", Err(SinkFault)),
    ("678", Err(SinkFault)),
];

#[test]
fn listed_puts_fail(rt: HostRuntime) -> Result<(), Fail> {
    let alloc = rt.alloc();
    let mut sink = MemSink::with_room(alloc, 6, List::from_slice(alloc, &[2])?)?;
    puts(&rt, &mut sink, PUTS);
    assert!(rt; sink.bytes() == b"123467".as_slice());
    Ok(())
}

#[test]
fn copies_of_bytes_are_equal(rt: HostRuntime) -> Result<(), Fail> {
    let bytes = Bytes::from_slice(rt.alloc(), b"abc")?;
    let other = bytes.copy()?;
    assert!(rt; other.as_slice() == b"abc".as_slice());
    Ok(())
}

#[test]
fn copies_of_lists_are_equal(rt: HostRuntime) -> Result<(), Fail> {
    let alloc = rt.alloc();
    let mut names = List::new(alloc);
    names.push(Name::Named(Bytes::from_slice(alloc, b"abc")?))?;
    names.push(Name::Numbered(7))?;
    let site = Site {
        function: 1,
        place: 2,
    };
    let sites = List::repeat(alloc, site, 3)?;
    assert!(rt; names.copy()?.len() == 2 && sites.copy()?.len() == 3);
    Ok(())
}

#[derive(Clone, Copy, Debug)]
enum Call {
    Append,
    Set,
    Replace,
    Write,
    Fill,
    At,
    Get,
    Pop,
    Clear,
}

/// What a call answers. It takes the items, or the first of them, at or up to a place.
fn called(
    rt: &impl Abort,
    list: &mut List<u32>,
    call: Call,
    at: usize,
    items: &[u32],
) -> Option<u32> {
    assert!(rt; items.len() < 10 && at < 10);
    match call {
        Call::Append => {
            assert!(rt; list.append(items).is_ok());
            None
        }
        Call::Set => {
            assert!(rt; at < list.len() && items.len() > 0);
            list.set(at, items[0]);
            None
        }
        Call::Replace => {
            assert!(rt; at < list.len() && items.len() > 0);
            Some(list.replace(at, items[0]))
        }
        Call::Write => {
            assert!(rt; at + items.len() <= list.len());
            list.write(at, items);
            None
        }
        Call::Fill => {
            assert!(rt; at + items.len() <= list.len() && items.len() > 0);
            list.fill(at, items.len(), items[0]);
            None
        }
        Call::At => {
            assert!(rt; at < list.len());
            Some(*list.at(at))
        }
        Call::Get => list.get(at).copied(),
        Call::Pop => list.pop(),
        Call::Clear => {
            list.clear();
            None
        }
    }
}

/// A call, its place and items, its answer, and the list that it leaves.
const CALLS: &[(Call, usize, &[u32], Option<u32>, &[u32])] = &[
    (Call::Append, 0, &[6, 7], None, &[5, 5, 5, 5, 6, 7]),
    (Call::Set, 0, &[1], None, &[1, 5, 5, 5, 6, 7]),
    (Call::Replace, 1, &[2], Some(5), &[1, 2, 5, 5, 6, 7]),
    (Call::Write, 2, &[3, 4], None, &[1, 2, 3, 4, 6, 7]),
    (Call::Fill, 4, &[9, 9], None, &[1, 2, 3, 4, 9, 9]),
    (Call::At, 2, &[], Some(3), &[1, 2, 3, 4, 9, 9]),
    (Call::Get, 3, &[], Some(4), &[1, 2, 3, 4, 9, 9]),
    (Call::Get, 6, &[], None, &[1, 2, 3, 4, 9, 9]),
    (Call::Pop, 0, &[], Some(9), &[1, 2, 3, 4, 9]),
    (Call::Clear, 0, &[], None, &[]),
    (Call::Pop, 0, &[], None, &[]),
];

#[test]
fn lists_change_in_place(rt: HostRuntime) -> Result<(), Fail> {
    let mut list = List::from_vec(vec![in rt.alloc(); 5u32; 4]?);
    for (call, at, items, answer, left) in CALLS {
        let told = called(&rt, &mut list, *call, *at, items);
        assert!(rt;
            told == *answer && list.as_slice() == *left && list.len() == left.len(),
            "{call:?}"
        );
    }
    Ok(())
}

#[test]
fn bytes_change_in_place(rt: HostRuntime) -> Result<(), Fail> {
    let alloc = rt.alloc();
    let mut bytes = Bytes::new(alloc);
    bytes.push(b'a')?;
    bytes.append(b"bc")?;
    assert_eq!(rt; bytes.len(), 3);
    bytes.clear();
    assert!(rt; bytes == Bytes::from_slice(alloc, b"")?);
    Ok(())
}
