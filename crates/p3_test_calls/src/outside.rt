//! The outside itself: files of the machine, files that never fail, and values that take memory.

use p3_base::{
    Boxed, Files, List, Name, NoMemory, ReadFault, RealFiles, Sink, SureFiles, SureSink, Word,
};
use std::alloc::Global;
use std::test::Fail;

#[test]
fn a_real_file_holds_what_was_written(rt: HostRuntime) -> Result<(), Fail> {
    let alloc = rt.alloc();
    let mut files = RealFiles::new(&rt);
    let name = Word::of(alloc, b"written-and-read-back.txt")?;
    let bytes = Vec::from_elem(alloc, b'x', 300_000)?;
    let mut into = Vec::new(alloc);
    assert_eq!(rt; files.write(alloc, &name, bytes.as_slice()), Ok(()));
    assert_eq!(rt; files.read(alloc, &name, 300_000, &mut into), Ok(()));
    assert!(rt; into == bytes);
    assert_eq!(rt;
        files.read(alloc, &name, 299_999, &mut into),
        Err(ReadFault::TooLong)
    );
    assert_eq!(rt; into.len(), 300_000);
    Ok(())
}

/// Makes files that never fail, of which one is held.
fn held_files(alloc: Global) -> Result<SureFiles, NoMemory> {
    let mut files = SureFiles::new(alloc);
    let name = Word::of(alloc, b"d")?;
    files.hold(name, Vec::from_slice(alloc, b"(p)")?)?;
    Ok(files)
}

/// What reading the held file comes to with that limit, and what was read.
fn read_held(alloc: Global, limit: u32) -> Result<(Result<(), ReadFault>, Vec<u8>), NoMemory> {
    let mut files = held_files(alloc)?;
    let name = Word::of(alloc, b"d")?;
    let mut into = Vec::new(alloc);
    let read = match files.bytes(&name) {
        Some(_) => files.read(alloc, &name, limit, &mut into),
        None => Err(ReadFault::Failed),
    };
    Ok((read, into))
}

#[test]
fn what_is_held_is_read(rt: HostRuntime) -> Result<(), Fail> {
    let (read, into) = read_held(rt.alloc(), 3)?;
    assert_eq!(rt; read, Ok(()));
    assert_eq!(rt; into.as_slice(), b"(p)".as_slice());
    Ok(())
}

#[test]
fn what_is_held_may_be_too_long(rt: HostRuntime) -> Result<(), Fail> {
    let (read, _) = read_held(rt.alloc(), 2)?;
    assert_eq!(rt; read, Err(ReadFault::TooLong));
    Ok(())
}

/// Whether what is written where nothing fails is held there.
fn is_written(alloc: Global, bytes: &[u8]) -> Result<bool, NoMemory> {
    let mut files = held_files(alloc)?;
    let name = Word::of(alloc, b"p")?;
    let is_ok = files.write(alloc, &name, bytes).is_ok();
    Ok(is_ok && files.bytes(&name) == Some(bytes))
}

#[test]
fn what_never_fails_is_written(rt: HostRuntime) -> Result<(), Fail> {
    assert!(rt; is_written(rt.alloc(), b"(q)")?);
    let mut sink = SureSink::new();
    assert_eq!(rt; sink.put(b"valid"), Ok(()));
    Ok(())
}

#[test]
fn a_name_is_made(rt: HostRuntime) -> Result<(), Fail> {
    let name = Name::of(rt.alloc(), b"Truck-1")?;
    assert_eq!(rt; name.bytes(), b"truck-1".as_slice());
    Ok(())
}

#[test]
fn a_list_of_a_box_is_made(rt: HostRuntime) -> Result<(), Fail> {
    let alloc = rt.alloc();
    let mut list = List::new(alloc);
    list.push(Boxed::new(alloc, 7u8)?)?;
    assert_eq!(rt; list.len(), 1);
    Ok(())
}
