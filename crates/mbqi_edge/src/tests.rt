//! What no clause says: that real files and writers pass the bytes on, and that a call succeeds where memory
//! is ample.

use super::*;
use mbqi_values::{Numbers, Text, Texts};
use std::alloc::{AllocError, Global};
use std::fs;
use std::test::Fail;

// Two files of the tests, in the folder where they run.
const WRITTEN: &str = "bytes_reach_a_file";

const READ: &str = "a_file_is_read_up_to_its_limit";

// A device without an end.
const ENDLESS: &str = "/dev/zero";

#[test]
fn bytes_reach_a_file(rt: HostRuntime) -> Result<(), Fail> {
    let mut sink = WriterSink::new(fs::create(&rt, WRITTEN)?);
    put_all(&mut sink, b"one ")?;
    put_all(&mut sink, b"")?;
    put_all(&mut sink, b"two")?;
    drop(sink);
    let bytes = fs::read(&rt, WRITTEN)?;
    fs::remove_file(&rt, WRITTEN)?;
    assert_eq!(rt; bytes.as_slice(), b"one two".as_slice());
    Ok(())
}

#[test]
fn a_file_is_read_up_to_its_limit(rt: HostRuntime) -> Result<(), Fail> {
    fs::write(&rt, READ, [7u8; 5000])?;
    let mut shelf = FolderShelf::new(&rt);
    let mut bytes = Vec::from_slice(rt.alloc(), b"before")?;
    let too_long = shelf.fetch(rt.alloc(), READ, 4999, &mut bytes);
    let endless = shelf.fetch(rt.alloc(), ENDLESS, 4999, &mut bytes);
    let folder = shelf.fetch(rt.alloc(), ".", 4999, &mut bytes);
    let whole = shelf.fetch(rt.alloc(), READ, 5000, &mut bytes);
    fs::remove_file(&rt, READ)?;
    let missing = shelf.fetch(rt.alloc(), READ, 5000, &mut bytes);
    assert_eq!(rt; too_long, Err(FetchFault::TooLong));
    assert_eq!(rt; endless, Err(FetchFault::TooLong));
    assert_eq!(rt; folder, Err(FetchFault::Failed));
    assert_eq!(rt; missing, Err(FetchFault::Failed));
    whole?;
    assert_eq!(rt; bytes.len(), 5006);
    assert!(rt; bytes.starts_with(b"before"));
    assert!(rt; bytes.ends_with(&[7; 5000]));
    Ok(())
}

fn texts(alloc: Global, items: &[&str]) -> Result<Texts, AllocError> {
    let mut texts = Texts::new(alloc);
    for item in items {
        texts.push(Text::from_slice(alloc, item.as_bytes())?)?;
    }
    Ok(texts)
}

// The first file of a name counts, a listed call fails, and a name without a file isn't there.
#[test]
fn a_shelf_in_memory_answers(rt: HostRuntime) -> Result<(), Fail> {
    let alloc = rt.alloc();
    let names = texts(alloc, &["a", "b", "a", "c"])?;
    let files = texts(alloc, &["first", "", "last"])?;
    let mut shelf = MemoryShelf::new(alloc, names, files, Numbers::from_slice(alloc, &[1])?);
    let rows = [
        ("a", 5, Ok(()), "first"),
        ("a", 5, Err(FetchFault::Failed), "first"),
        ("a", 4, Err(FetchFault::TooLong), "first"),
        ("b", 0, Ok(()), "first"),
        ("c", 9, Err(FetchFault::Failed), "first"),
        ("a", 5, Ok(()), "firstfirst"),
    ];
    let mut bytes = Vec::new(alloc);
    for (name, limit, answer, now) in rows {
        assert_eq!(rt; shelf.fetch(alloc, name, limit, &mut bytes), answer);
        assert_eq!(rt; bytes.as_slice(), now.as_bytes());
    }
    Ok(())
}

// Call 1 fails, a call takes two bytes at most, and the sink five in all.
#[test]
fn a_sink_in_memory_answers(rt: HostRuntime) -> Result<(), Fail> {
    let alloc = rt.alloc();
    let mut sink = MemorySink::new(alloc, 5, 2, Numbers::from_slice(alloc, &[1])?)?;
    let rows = [
        ("abc", Ok(2), "ab"),
        ("c", Err(SinkFailed), "ab"),
        ("cd", Ok(2), "abcd"),
        ("", Ok(0), "abcd"),
        ("ef", Ok(1), "abcde"),
        ("", Ok(0), "abcde"),
        ("f", Err(SinkFailed), "abcde"),
    ];
    for (piece, answer, taken) in rows {
        assert_eq!(rt; sink.put(piece.as_bytes()), answer);
        assert_eq!(rt; sink.taken(), taken.as_bytes());
    }
    Ok(())
}
