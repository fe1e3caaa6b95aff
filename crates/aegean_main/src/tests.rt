// Sources, sinks and disks that fail, and inputs at the limits. Worked runs are compared with the built program.
use crate::{Status, aegean};
use aeg_base::Memory;
use aeg_base::limits::INPUT_BYTES;
use aeg_io::{MemSink, MemSource};
use std::alloc::{AllocError, Global};
use std::process::Abort;
use std::test::Fail;
use world::memory_disks;

/// The number of a call that never comes, so that none fails.
const NEVER: u32 = 9_999;

/// The numbers of the calls that fail, from 0: of the source, of the sink, and of the first disk.
#[derive(Clone, Copy)]
struct Failing {
    read: u32,
    write: u32,
    disk: u32,
}

const NONE: Failing = Failing {
    read: NEVER,
    write: NEVER,
    disk: NEVER,
};

/// What a call comes to: the status's number, the text and the line on standard error.
type Wanted = (u8, &'static str, &'static str);

const STEPS: &str = "start 1.1 0 open 1 5 10 0\nstart 1.2 0 look 5\n";

const SHORT_FRAMES: &str = "tiers 1 depth 1\nlead m0\nshort 0 0\nshort 0 12\n";

const FAULTS: [(&str, &str, Failing, Wanted); 5] = [
    // The second read would have told of the input's end.
    (
        "single",
        STEPS,
        Failing { read: 1, ..NONE },
        (3, "", "read fault\n"),
    ),
    // The second write fails: the first ten bytes have gone out.
    (
        "single",
        STEPS,
        Failing { write: 1, ..NONE },
        (4, "reply 1.1 ", "write fault\n"),
    ),
    (
        "replay",
        SHORT_FRAMES,
        Failing { read: 1, ..NONE },
        (3, "", "read fault\n"),
    ),
    // The fourth write fails: an event's line has gone out, and a part of the next one's.
    (
        "replay",
        SHORT_FRAMES,
        Failing { write: 3, ..NONE },
        (4, "drop m1 short\ndrop m1 sh", "write fault\n"),
    ),
    // The fifth call of m0's disk is the first write of its first record, and m0 comes back without the record.
    (
        "replay",
        "tiers 0 depth 1\nlead m0\nrestart m0\noffer m0\n",
        Failing { disk: 4, ..NONE },
        (
            0,
            "down m0 disk\nidle m0 not-leader\nlog mid 0\nlog inv 0\nlog pay 0\npackets 0\n",
            "",
        ),
    ),
];

/// A byte and how often it stands in the input.
const LIMITS: [(&str, u8, usize, Wanted); 5] = [
    ("single", b'#', INPUT_BYTES + 1, (5, "", "limit bytes\n")),
    ("single", b'\n', 200_001, (5, "", "limit lines\n")),
    // A script of line feeds alone has no header.
    (
        "replay",
        b'\n',
        200_000,
        (2, "", "script: line 200001 row 1\n"),
    ),
    ("replay", b'#', INPUT_BYTES + 1, (5, "", "limit bytes\n")),
    ("replay", b'\n', 200_001, (5, "", "limit lines\n")),
];

/// Runs a command on an input with these calls failing.
fn called(
    alloc: Global,
    command: &str,
    input: Vec<u8>,
    failing: Failing,
    out: &mut MemSink,
    err: &mut MemSink,
) -> Result<Status, Memory> {
    let words = vec![in alloc; String::from_str(alloc, command)?]?;
    let mut source = MemSource::new(input, vec![in alloc; failing.read]?, 4096);
    let mut disks = memory_disks(alloc, vec![in alloc; failing.disk]?)?;
    Ok(aegean(alloc, &words, &mut source, out, err, &mut disks))
}

/// Runs a command and checks what it comes to.
fn comes_to(
    rt: &impl Abort,
    alloc: Global,
    command: &str,
    input: Vec<u8>,
    failing: Failing,
    wanted: Wanted,
) -> Result<(), Fail> {
    let (code, text, note) = wanted;
    let mut out = MemSink::new(alloc, vec![in alloc; failing.write]?, 10);
    let mut err = MemSink::new(alloc, Vec::new(alloc), 10);
    let status = called(alloc, command, input, failing, &mut out, &mut err)?;
    assert_eq!(rt; status.code(), code, "{note}");
    assert_eq!(rt; out.taken(), text.as_bytes(), "{note}");
    assert_eq!(rt; err.taken(), note.as_bytes(), "{note}");
    Ok(())
}

/// An input of one byte, so often.
fn filled(alloc: Global, byte: u8, count: usize) -> Result<Vec<u8>, AllocError> {
    vec![in alloc; byte; count]
}

#[test]
fn failing_calls(rt: HostRuntime) -> Result<(), Fail> {
    for (command, input, failing, wanted) in FAULTS {
        let bytes = Vec::from_slice(rt.alloc(), input.as_bytes())?;
        comes_to(&rt, rt.alloc(), command, bytes, failing, wanted)?;
    }
    Ok(())
}

#[test]
fn inputs_at_the_limits(rt: HostRuntime) -> Result<(), Fail> {
    for (command, byte, count, wanted) in LIMITS {
        let bytes = filled(rt.alloc(), byte, count)?;
        comes_to(&rt, rt.alloc(), command, bytes, NONE, wanted)?;
    }
    Ok(())
}

/// Without a word the program tells how it is used.
#[test]
fn usage(rt: HostRuntime) -> Result<(), Fail> {
    let alloc = rt.alloc();
    let mut source = MemSource::new(Vec::new(alloc), Vec::new(alloc), 1);
    let mut out = MemSink::new(alloc, Vec::new(alloc), 10);
    let mut err = MemSink::new(alloc, Vec::new(alloc), 99);
    let mut disks = memory_disks(alloc, Vec::new(alloc))?;
    let status = aegean(alloc, &[], &mut source, &mut out, &mut err, &mut disks);
    assert_eq!(rt; status, Status::Usage);
    Ok(())
}
