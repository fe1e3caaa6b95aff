// Worked journals, and what stops, faults and the limit leave.
ghost use Rattle.std.specs.Prelude.{◌≡◌, ◌<◌, ◌≤◌, true, length, IfOk, OnOk};
ghost use Rattle.node_journal.specs.Append.{IsReady};

use crate::memory_disks::contents;
use aeg_base::limits::RECORD_BYTES;
use aeg_base::{Bytes, Memory};
use aeg_disk::{Device, Disk, FuseDisk, MemDisk, SureDisk};
use node_journal::{AppendErr, Journal, OpenErr, open_on};
use std::alloc::Global;
use std::test::Fail;

/// A promise of ballot (1, 0).
const PROMISE: [u8; 6] = [1, 0, 0, 0, 1, 0];

fn promised(alloc: Global) -> Result<Bytes, Memory>
    ensures { IfOk result (λ b. length b ≡ 6) }
{
    Ok(Bytes::of(vec![in alloc; 1, 0, 0, 0, 1, 0]?))
}

/// What an opening comes to, and an append after it.
type Added = Result<Result<(), AppendErr>, OpenErr>;

/// Opens a journal and adds a record.
fn add_one<D: Disk>(alloc: Global, disk: &mut D, body: &Bytes) -> Added
    requires filled { 0 < length body.now }
    requires short { length body.now ≤ RECORD_BYTES }
{
    let (mut journal, _records) = open_on(alloc, disk)?;
    Ok(journal.append(disk, body))
}

/// Whether a promise that is added to a disk has this answer.
fn answers<D: Disk>(alloc: Global, disk: &mut D, answer: Added) -> Result<bool, Fail> {
    let body = promised(alloc)?;
    Ok(add_one(alloc, disk, &body) == answer)
}

/// The number of records on a disk.
fn count_records<D: Disk>(alloc: Global, disk: &mut D) -> Result<usize, OpenErr> {
    let (_journal, records) = open_on(alloc, disk)?;
    Ok(records.len())
}

fn has_bytes<D: Disk>(alloc: Global, disk: &mut D, bytes: &[u8]) -> Result<bool, Fail> {
    let all = contents(alloc, disk)?;
    Ok(all.items() == bytes)
}

fn is_one_promise(records: &[Bytes]) -> bool {
    records.len() == 1 && records[0].items() == PROMISE.as_slice()
}

/// Whether a journal ends at this place and has one record, the promise.
fn has_promise<D: Disk>(alloc: Global, disk: &mut D, place: u64) -> Result<bool, Fail> {
    let (journal, records) = open_on(alloc, disk)?;
    Ok(journal.place() == place && is_one_promise(&records))
}

#[test]
fn a_journal_with_one_promise(rt: HostRuntime) -> Result<(), Fail> {
    let alloc = rt.alloc();
    let mut disk = SureDisk::new(alloc);
    assert!(rt; answers(alloc, &mut disk, Ok(Ok(())))?);
    assert!(rt; has_bytes(alloc, &mut disk, &[1, 0, 0, 0, 6, 1, 0, 0, 0, 1, 0, 0])?);
    assert!(rt; has_promise(alloc, &mut disk, 11)?);
    Ok(())
}

/// Whether a stop at this call of an append was met, and the number of records that it leaves.
fn stopped<D: Device>(
    alloc: Global,
    disk: &mut D,
    body: &Bytes,
    nth: u8,
    keep: bool,
) -> Result<(bool, usize), OpenErr>
    requires filled { 0 < length body.now }
    requires short { length body.now ≤ RECORD_BYTES }
{
    let (mut journal, _records) = open_on(alloc, disk)?;
    disk.arm(nth, keep);
    let acknowledged = journal.append(disk, body).is_ok();
    let was = disk.power();
    if was == acknowledged {
        return Err(OpenErr::Disk);
    }
    Ok((was, count_records(alloc, disk)?))
}

/// The call of an append that is to stop, whether what was written by then is kept, whether the stop is met, and the
/// number of records that it leaves.
type Stop = (u8, bool, bool, usize);

const STOPS: [Stop; 11] = [
    (0, true, false, 1),
    (1, true, true, 0),
    (2, true, true, 0),
    (3, true, true, 1),
    (4, true, true, 1),
    (5, true, false, 1),
    (1, false, true, 0),
    (2, false, true, 0),
    (3, false, true, 0),
    (4, false, true, 0),
    (5, false, false, 1),
];

fn stops_so<D: Device + Drop>(alloc: Global, mut disk: D, stop: Stop) -> Result<bool, Fail> {
    let (nth, keep, met, records) = stop;
    let body = promised(alloc)?;
    Ok(stopped(alloc, &mut disk, &body, nth, keep)? == (met, records))
}

#[test]
fn what_a_stop_leaves_of_an_append(rt: HostRuntime) -> Result<(), Fail> {
    let alloc = rt.alloc();
    for stop in STOPS {
        let memory = stops_so(alloc, MemDisk::new(alloc, Vec::new(alloc)), stop)?;
        let sure = stops_so(alloc, SureDisk::new(alloc), stop)?;
        assert!(rt; memory && sure, "call {}", stop.0);
    }
    Ok(())
}

const IN_OPENING: Added = Err(OpenErr::Disk);

const IN_APPEND: Added = Ok(Err(AppendErr::Disk));

/// What a promise comes to where the disk's call with the row's number fails, and the number of records that are left.
/// The last row's call isn't made.
const FAILING: [(Added, usize); 9] = [
    (IN_OPENING, 0),
    (IN_OPENING, 0),
    (IN_OPENING, 0),
    (IN_OPENING, 0),
    (IN_APPEND, 0),
    (IN_APPEND, 0),
    (IN_APPEND, 0),
    (IN_APPEND, 1),
    (Ok(Ok(())), 1),
];

/// Whether a promise comes to that where one call fails.
fn one_call_fails_so(
    alloc: Global,
    call: u32,
    answer: Added,
    records: usize,
) -> Result<bool, Fail> {
    let mut disk = MemDisk::new(alloc, vec![in alloc; call]?);
    if !answers(alloc, &mut disk, answer)? {
        return Ok(false);
    }
    Ok(call == 8 || count_records(alloc, &mut disk)? == records)
}

/// Whether a promise comes to that where the call fails and all after it.
fn further_calls_fail_so(
    alloc: Global,
    call: u32,
    answer: Added,
    records: usize,
) -> Result<bool, Fail> {
    let mut fuse = FuseDisk::new(SureDisk::new(alloc), call);
    let answered = answers(alloc, &mut fuse, answer)?;
    let mut sure = fuse.into_disk();
    Ok(answered && count_records(alloc, &mut sure)? == records)
}

#[test]
fn what_a_failing_call_leaves(rt: HostRuntime) -> Result<(), Fail> {
    let alloc = rt.alloc();
    for call in 0..9u32 {
        let (answer, records) = FAILING[call as usize];
        assert!(rt;
            one_call_fails_so(alloc, call, answer, records)?,
            "call {call} fails"
        );
        assert!(rt;
            further_calls_fail_so(alloc, call, answer, records)?,
            "{call} calls pass"
        );
    }
    Ok(())
}

/// The bytes of a disk, and the number of its records or why they are none.
const OPENINGS: [(&[u8], Result<usize, OpenErr>); 9] = [
    (&[1], Ok(0)),
    (&[2, 1], Ok(0)),
    (&[1, 0], Err(OpenErr::BadRecord { at: 0 })),
    (&[1, 0, 0, 0, 0, 0], Err(OpenErr::BadRecord { at: 0 })),
    (&[1, 0, 0, 0, 1, 9], Err(OpenErr::BadRecord { at: 0 })),
    (&[1, 0, 0, 0, 1, 9, 0], Ok(1)),
    (&[1, 0, 0, 0, 1, 9, 3, 1], Ok(1)),
    (&[1, 0, 0, 0, 1, 9, 1], Err(OpenErr::BadRecord { at: 6 })),
    (&[1, 0, 0, 0, 1, 9, 1, 0, 0, 0, 2, 8, 7, 0], Ok(2)),
];

fn opens_so(alloc: Global, bytes: &[u8], answer: Result<usize, OpenErr>) -> Result<bool, Fail> {
    let mut disk = SureDisk::new(alloc);
    disk.write_at(0, bytes)?;
    Ok(count_records(alloc, &mut disk) == answer)
}

#[test]
fn what_opening_refuses(rt: HostRuntime) -> Result<(), Fail> {
    for (bytes, answer) in OPENINGS {
        assert!(rt; opens_so(rt.alloc(), bytes, answer)?, "bytes {bytes:?}");
    }
    Ok(())
}

/// The journal of a disk.
fn opened<D: Disk>(alloc: Global, disk: &mut D) -> Result<Journal, OpenErr>
    ensures { IfOk result (λ journal. (D.state disk.new).tells ≡ true → IsReady (D.state disk.new) journal) }
{
    let (journal, _records) = open_on(alloc, disk)?;
    Ok(journal)
}

/// So many bytes 7.
fn sevens(alloc: Global, count: usize) -> Result<Bytes, Memory>
    ensures { IfOk result (λ b. length b ≡ count) }
{
    Ok(Bytes::of(vec![in alloc; 7; count]?))
}

/// Adds a record so many times.
fn fill<D: Disk>(
    journal: &mut Journal,
    disk: &mut D,
    body: &Bytes,
    times: u32,
) -> Result<(), AppendErr>
    requires filled { 0 < length body.now }
    requires short { length body.now ≤ RECORD_BYTES }
    requires settled { (D.state disk.old).tells ≡ true → IsReady (D.state disk.old) journal.old }
    ensures settled { OnOk result ((D.state disk.new).tells ≡ true → IsReady (D.state disk.new) journal.new) }
{
    for _ in 0..times {
        journal.append(disk, body)?;
    }
    Ok(())
}

/// Adds a record of so many bytes, so many times.
fn fill_with<D: Disk>(
    alloc: Global,
    journal: &mut Journal,
    disk: &mut D,
    count: usize,
    times: u32,
) -> Result<(), Fail>
    requires filled { 0 < count }
    requires short { count ≤ RECORD_BYTES }
    requires settled { (D.state disk.old).tells ≡ true → IsReady (D.state disk.old) journal.old }
    ensures settled { OnOk result ((D.state disk.new).tells ≡ true → IsReady (D.state disk.new) journal.new) }
{
    let body = sevens(alloc, count)?;
    fill(journal, disk, &body, times)?;
    Ok(())
}

/// The length at which a record is refused.
fn refused_at<D: Disk>(
    journal: &mut Journal,
    disk: &mut D,
    body: &Bytes,
) -> Result<u64, Option<AppendErr>>
    requires filled { 0 < length body.now }
    requires short { length body.now ≤ RECORD_BYTES }
    requires settled { (D.state disk.old).tells ≡ true → IsReady (D.state disk.old) journal.old }
    ensures { OnOk result ((D.state disk.new).tells ≡ true → IsReady (D.state disk.new) journal.new) }
{
    match journal.append(disk, body) {
        Ok(()) => Err(None),
        Err(e) => match e {
            AppendErr::Full { len } => Ok(len),
            AppendErr::Disk | AppendErr::Memory => Err(Some(e)),
        },
    }
}

/// The length at which a record of so many bytes is refused.
fn refused_with<D: Disk>(
    alloc: Global,
    journal: &mut Journal,
    disk: &mut D,
    count: usize,
) -> Result<u64, Fail>
    requires filled { 0 < count }
    requires short { count ≤ RECORD_BYTES }
    requires settled { (D.state disk.old).tells ≡ true → IsReady (D.state disk.old) journal.old }
    ensures { OnOk result ((D.state disk.new).tells ≡ true → IsReady (D.state disk.new) journal.new) }
{
    let body = sevens(alloc, count)?;
    let len = refused_at(journal, disk, &body)?;
    Ok(len)
}

/// The length after 4,094 of the longest records, those at which two more are refused, and the length after a last one.
fn fill_up<D: Disk>(alloc: Global, disk: &mut D) -> Result<[u64; 4], Fail> {
    let mut journal = opened(alloc, disk)?;
    fill_with(alloc, &mut journal, disk, 16_384, 4_094)?;
    let filled = disk.len()?;
    let far = refused_with(alloc, &mut journal, disk, 16_384)?;
    let near = refused_with(alloc, &mut journal, disk, 12_293)?;
    fill_with(alloc, &mut journal, disk, 12_292, 1)?;
    Ok([filled, far, near, disk.len()?])
}

#[test]
fn a_journal_up_to_its_limit(rt: HostRuntime) -> Result<(), Fail> {
    let alloc = rt.alloc();
    let mut disk = MemDisk::new(alloc, Vec::new(alloc));
    let lengths = fill_up(alloc, &mut disk)?;
    assert!(rt; lengths == [67_096_567, 67_112_956, 67_108_865, 67_108_864]);
    Ok(())
}
