// Reading and writing in pieces, with calls that fail.
use aeg_io::{Failed, MemSink, MemSource, ReadErr, SureSink, SureSource, put_all, read_all};
use std::alloc::{AllocError, Global};
use std::test::Fail;

const TEXT: &[u8] = b"0123456789";

/// What is read of the text, at most `max` bytes, in calls of 3 bytes of which one fails.
fn read(alloc: Global, max: usize, failing: u32) -> Result<Result<usize, ReadErr>, AllocError> {
    let fails = vec![in alloc; failing]?;
    let mut source = MemSource::new(Vec::from_slice(alloc, TEXT)?, fails, 3);
    match read_all(alloc, &mut source, max) {
        Ok(bytes) => Ok(Ok(bytes.items().len())),
        Err(error) => Ok(Err(error)),
    }
}

/// The greatest number of bytes, the call that fails, and what is read.
const READS: [(usize, u32, Result<usize, ReadErr>); 5] = [
    (10, 9, Ok(10)),
    (9, 9, Err(ReadErr::TooLong)),
    (10, 2, Err(ReadErr::Fault)),
    (10, 4, Err(ReadErr::Fault)),
    (0, 9, Err(ReadErr::TooLong)),
];

/// Whether a source that never fails gives the text.
fn gives_surely(alloc: Global) -> Result<bool, Fail> {
    let mut sure = SureSource::new(Vec::from_slice(alloc, TEXT)?);
    Ok(matches!(read_all(alloc, &mut sure, 10), Ok(all) if all.items() == TEXT))
}

#[test]
fn sources_give_all_or_say_why(rt: HostRuntime) -> Result<(), Fail> {
    for (max, failing, expected) in READS {
        let told = read(rt.alloc(), max, failing)?;
        assert!(rt; told == expected, "{max} {failing}");
    }
    assert!(rt; gives_surely(rt.alloc())?);
    Ok(())
}

/// Whether a sink whose second call fails takes the front of the text.
fn takes_front(alloc: Global) -> Result<bool, Fail> {
    let mut failing = MemSink::new(alloc, vec![in alloc; 1]?, 4);
    Ok(put_all(&mut failing, TEXT) == Err(Failed) && failing.taken() == b"0123".as_slice())
}

fn takes_all(alloc: Global) -> bool {
    let mut whole = MemSink::new(alloc, Vec::new(alloc), 4);
    put_all(&mut whole, TEXT) == Ok(()) && whole.taken() == TEXT
}

/// Whether a sink that never fails takes the text, and tells it.
fn takes_surely(alloc: Global) -> bool {
    let mut sure = SureSink::new(alloc);
    put_all(&mut sure, TEXT) == Ok(()) && sure.taken() == Some(TEXT)
}

#[test]
fn sinks_take_all_or_a_front(rt: HostRuntime) -> Result<(), Fail> {
    assert!(rt; takes_front(rt.alloc())?);
    assert!(rt; takes_all(rt.alloc()));
    assert!(rt; takes_surely(rt.alloc()));
    Ok(())
}
