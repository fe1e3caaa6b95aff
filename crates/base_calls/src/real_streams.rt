// The adapters of real streams: each of their answers, and the count of faults, over a file and a pipe.
use aeg_io::{Failed, ReadErr, Sink, Source, StdSink, StdSource, put_all, read_all};
use std::alloc::Global;
use std::io::{PipeWriter, Read, Write};
use std::path::{Path, PathBuf};
use std::test::*;
use std::{env, fs, io, process};

const TEXT: &[u8] = b"0123456789";

/// A place for a file of this run alone.
fn place(rt: &HostRuntime, name: &str) -> Result<PathBuf, Fail> {
    let file = format!(in rt.alloc(); "aegean-{}-{name}", process::id(rt.process()))?;
    Ok(env::temp_dir(rt)?.join(rt.alloc(), file.as_str())?)
}

fn gives_text<S: Source>(alloc: Global, source: &mut S) -> bool {
    matches!(read_all(alloc, source, 10), Ok(all) if all.items() == TEXT)
}

/// Whether the text is written to a file without a fault.
fn is_written(rt: &HostRuntime, path: Path<'_>) -> Result<bool, Fail> {
    let mut sink = StdSink::new(fs::create(rt, path)?);
    Ok(put_all(&mut sink, TEXT) == Ok(()) && sink.faults() == 0)
}

/// Whether a file has the text, and its end behind it, without a fault.
fn is_read(rt: &HostRuntime, path: Path<'_>) -> Result<bool, Fail> {
    let mut source = StdSource::new(fs::open(rt, path)?);
    Ok(
        gives_text(rt.alloc(), &mut source)
            && source.read(&mut [0; 4]) == Ok(0)
            && source.faults() == 0,
    )
}

#[test]
fn a_file_is_written_and_read_to_its_end(rt: HostRuntime) -> Result<(), Fail> {
    let path = place(&rt, "written")?;
    assert!(rt; is_written(&rt, path.as_path())?);
    assert!(rt; is_read(&rt, path.as_path())?);
    fs::remove_file(&rt, path.as_path())?;
    Ok(())
}

/// Whether both calls fail at a directory, and are counted.
fn read_fails<R: Read>(alloc: Global, directory: &mut StdSource<R>) -> bool {
    directory.read(&mut [0; 4]) == Err(Failed)
        && directory.faults() == 1
        && matches!(read_all(alloc, directory, 10), Err(ReadErr::Fault))
        && directory.faults() == 2
}

#[test]
fn a_failing_read_is_counted(rt: HostRuntime) -> Result<(), Fail> {
    let mut source = StdSource::new(fs::open(&rt, env::temp_dir(&rt)?.as_path())?);
    assert!(rt; read_fails(rt.alloc(), &mut source));
    Ok(())
}

/// Whether both calls fail where nobody reads, and are counted.
fn write_fails<W: Write>(closed: &mut StdSink<W>) -> bool {
    closed.write(TEXT) == Err(Failed)
        && put_all(closed, TEXT) == Err(Failed)
        && closed.faults() == 2
}

/// A writer that nobody reads.
fn closed(rt: &HostRuntime) -> Result<PipeWriter, Fail> {
    let (reader, writer) = io::pipe(rt)?;
    drop(reader);
    Ok(writer)
}

/// Whether a write without room fails, and is counted.
fn is_full() -> bool {
    let mut full = StdSink::new(&mut [][..]);
    full.write(TEXT) == Err(Failed) && full.faults() == 1
}

#[test]
fn a_failing_write_is_counted(rt: HostRuntime) -> Result<(), Fail> {
    let mut sink = StdSink::new(closed(&rt)?);
    assert!(rt; write_fails(&mut sink));
    assert!(rt; is_full());
    Ok(())
}

#[test]
fn memory_is_read_and_written(rt: HostRuntime) -> Result<(), Fail> {
    assert!(rt; gives_text(rt.alloc(), &mut StdSource::new(TEXT)));
    let mut sink = StdSink::new(Vec::new(rt.alloc()));
    assert!(rt; put_all(&mut sink, TEXT) == Ok(()));
    Ok(())
}
