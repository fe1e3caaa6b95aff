// Worked journals of facts, and what a restart refuses.
ghost use Rattle.std.specs.Prelude.{◌≡◌, ◌≤◌, length, IfOk};
ghost use Rattle.std.specs.List.{AllByRecursion};
ghost use Rattle.log_values.specs.Records.{record_text, FitsFact};

use aeg_base::limits::RECORD_BYTES;
use aeg_base::{Ballot, Bytes, Memory, Seq, Tier};
use aeg_disk::{Device, Disk, DiskErr, MemDisk, SureDisk};
use fact_journal::{AppendErr, FactJournal, OpenErr};
use log_values::{AnyValue, Fact, MidValue, Record, Verdict};
use std::alloc::Global;
use std::process::Abort;
use std::test::Fail;

// A promise of ballot (1, 0).
fn promised(alloc: Global) -> Result<Record, Memory>
    ensures fit { IfOk result (λ r. AllByRecursion FitsFact r) }
    ensures short { IfOk result (λ r. length (record_text r) ≤ RECORD_BYTES) }
{
    let ballot = Ballot {
        counter: 1,
        node: 0,
    };
    let facts = vec![in alloc; Fact::Promised(ballot)]?;
    Ok(Record::of(facts))
}

// Opens a journal and adds a record.
fn add_one<D: Disk>(
    alloc: Global,
    disk: &mut D,
    tier: Tier,
    facts: &Record,
) -> Result<Result<(), AppendErr>, OpenErr>
    requires fit { AllByRecursion FitsFact facts.now }
    requires short { length (record_text facts.now) ≤ RECORD_BYTES }
{
    let (mut journal, _facts) = FactJournal::open_on(alloc, disk, tier)?;
    Ok(journal.append(disk, facts))
}

// The number of facts on a disk.
fn count_facts<D: Disk>(alloc: Global, disk: &mut D, tier: Tier) -> Result<usize, OpenErr> {
    let (_journal, facts) = FactJournal::open_on(alloc, disk, tier)?;
    Ok(facts.len())
}

// Whether a stop at this call of an append was met, and the number of facts that it leaves.
fn stopped<D: Device>(
    alloc: Global,
    disk: &mut D,
    facts: &Record,
    nth: u8,
    keep: bool,
) -> Result<(bool, usize), OpenErr>
    requires fit { AllByRecursion FitsFact facts.now }
    requires short { length (record_text facts.now) ≤ RECORD_BYTES }
{
    let (mut journal, _facts) = FactJournal::open_on(alloc, disk, Tier::Mid)?;
    disk.arm(nth, keep);
    let acknowledged = journal.append(disk, facts).is_ok();
    let was = disk.power();
    if was == acknowledged {
        return Err(OpenErr::Disk);
    }
    Ok((was, count_facts(alloc, disk, Tier::Mid)?))
}

// All bytes of a disk.
fn contents<D: Disk>(alloc: Global, disk: &mut D) -> Result<Bytes, DiskErr> {
    let len = disk.len()?;
    let mut bytes = Vec::new(alloc);
    if bytes.resize(len as usize, 0).is_err() {
        return Err(DiskErr::Memory);
    }
    disk.read(0, &mut bytes)?;
    Ok(Bytes::of(bytes))
}

/// Whether the promise is added to a journal.
fn adds_promise(alloc: Global, disk: &mut SureDisk) -> Result<bool, Memory> {
    let added = add_one(alloc, disk, Tier::Mid, &promised(alloc)?);
    Ok(matches!(added, Ok(Ok(()))))
}

/// Whether these are the bytes of the disk.
fn holds(alloc: Global, disk: &mut SureDisk, bytes: &[u8]) -> Result<bool, DiskErr> {
    Ok(contents(alloc, disk)?.items() == bytes)
}

fn are_promise(facts: &[Fact]) -> bool {
    matches!(facts, [Fact::Promised(b)] if b.counter == 1 && b.node == 0)
}

/// The place where the journal ends, and whether the promise is its one fact.
fn reopened(alloc: Global, disk: &mut SureDisk) -> Result<(u64, bool), OpenErr> {
    let (journal, facts) = FactJournal::open_on(alloc, disk, Tier::Mid)?;
    Ok((journal.place(), are_promise(&facts)))
}

fn add_promise(rt: &impl Abort, alloc: Global, disk: &mut SureDisk) -> Result<(), Fail> {
    assert!(rt; adds_promise(alloc, disk)?);
    assert!(rt; holds(alloc, disk, &[1, 0, 0, 0, 6, 1, 0, 0, 0, 1, 0, 0])?);
    assert!(rt; reopened(alloc, disk)? == (11, true));
    Ok(())
}

#[test]
fn a_journal_with_one_promise(rt: HostRuntime) -> Result<(), Fail> {
    add_promise(&rt, rt.alloc(), &mut SureDisk::new(rt.alloc()))
}

/// What a stop at this call leaves where an event without facts is added.
fn stopped_with_none(alloc: Global, nth: u8) -> Result<(bool, usize), OpenErr> {
    let none = Record::of(Vec::new(alloc));
    stopped(alloc, &mut SureDisk::new(alloc), &none, nth, false)
}

#[test]
fn an_event_without_facts_writes_nothing(rt: HostRuntime) -> Result<(), Fail> {
    for nth in 0..6u8 {
        assert!(rt; stopped_with_none(rt.alloc(), nth)? == (false, 0));
    }
    Ok(())
}

/// A call of the disk that stops, and whether its bytes are kept; then whether the stop was met, and the number of facts
/// that it leaves.
const STOPS: [(u8, bool, bool, usize); 11] = [
    (0, true, false, 1),
    (1, true, true, 0),
    (2, true, true, 0),
    (3, true, true, 1),
    (4, true, true, 1),
    (5, true, false, 1),
    (1, false, true, 0),
    (2, false, true, 0),
    (3, false, true, 0),
    (4, false, true, 0),
    (5, false, false, 1),
];

/// What a stop at this call leaves of the facts on an empty disk.
fn stopped_in_memory(
    alloc: Global,
    facts: &Record,
    nth: u8,
    keep: bool,
) -> Result<(bool, usize), OpenErr>
    requires fit { AllByRecursion FitsFact facts.now }
    requires short { length (record_text facts.now) ≤ RECORD_BYTES }
{
    let mut disk = MemDisk::new(alloc, Vec::new(alloc));
    stopped(alloc, &mut disk, facts, nth, keep)
}

#[test]
fn what_a_stop_leaves_of_a_record(rt: HostRuntime) -> Result<(), Fail> {
    let facts = promised(rt.alloc())?;
    for (nth, keep, met, left) in STOPS {
        assert!(rt; stopped_in_memory(rt.alloc(), &facts, nth, keep)? == (met, left));
    }
    Ok(())
}

/// The bytes of a node's journal in a tier, and how many facts opening it gives, or what it refuses.
const RESTARTS: [(Tier, &[u8], Result<usize, OpenErr>); 12] = [
    // an empty batch and a Serial verdict are learned
    (
        Tier::Mid,
        &[1, 0, 0, 0, 9, 3, 0, 0, 1, 0, 3, 0, 1, 3, 0],
        Ok(2),
    ),
    // the verdict alone
    (
        Tier::Mid,
        &[1, 0, 0, 0, 4, 3, 0, 1, 3, 0],
        Err(OpenErr::BadRecord { at: 0 }),
    ),
    // the batch twice, in one record and in two
    (
        Tier::Mid,
        &[1, 0, 0, 0, 10, 3, 0, 0, 1, 0, 3, 0, 0, 1, 0, 0],
        Err(OpenErr::BadRecord { at: 0 }),
    ),
    (
        Tier::Mid,
        &[
            1, 0, 0, 0, 5, 3, 0, 0, 1, 0, 1, 0, 0, 0, 5, 3, 0, 0, 1, 0, 0,
        ],
        Err(OpenErr::BadRecord { at: 10 }),
    ),
    // a verdict at an even position, and a batch at an odd one
    (
        Tier::Mid,
        &[1, 0, 0, 0, 4, 3, 0, 0, 3, 0],
        Err(OpenErr::BadRecord { at: 0 }),
    ),
    (
        Tier::Mid,
        &[1, 0, 0, 0, 10, 2, 0, 1, 0, 0, 0, 1, 0, 1, 0, 0],
        Err(OpenErr::BadRecord { at: 0 }),
    ),
    // a floor of 2 is settled: at a backend, and not in the middle
    (
        Tier::Inv,
        &[1, 0, 0, 0, 8, 3, 0, 0, 5, 0, 0, 0, 2, 0],
        Ok(1),
    ),
    (
        Tier::Mid,
        &[1, 0, 0, 0, 8, 3, 0, 0, 5, 0, 0, 0, 2, 0],
        Err(OpenErr::BadRecord { at: 0 }),
    ),
    // an empty batch at a backend
    (
        Tier::Pay,
        &[1, 0, 0, 0, 5, 3, 0, 0, 1, 0, 0],
        Err(OpenErr::BadRecord { at: 0 }),
    ),
    // no record: another fact, and a fact cut short
    (
        Tier::Mid,
        &[1, 0, 0, 0, 1, 9, 0],
        Err(OpenErr::BadRecord { at: 0 }),
    ),
    (
        Tier::Mid,
        &[1, 0, 0, 0, 6, 1, 0, 0, 0, 1, 0, 1, 0, 0, 0, 3, 1, 0, 0, 0],
        Err(OpenErr::BadRecord { at: 11 }),
    ),
    // a gate that no whole entry follows goes first
    (
        Tier::Mid,
        &[1, 0, 0, 0, 1, 9, 1],
        Err(OpenErr::BadRecord { at: 6 }),
    ),
];

/// How many facts opening a journal with these bytes gives, or what it refuses.
fn restarted(alloc: Global, tier: Tier, bytes: &[u8]) -> Result<Result<usize, OpenErr>, DiskErr> {
    let mut disk = SureDisk::new(alloc);
    disk.write_at(0, bytes)?;
    Ok(count_facts(alloc, &mut disk, tier))
}

#[test]
fn what_a_restart_takes(rt: HostRuntime) -> Result<(), Fail> {
    for (tier, bytes, answer) in RESTARTS {
        assert!(rt; restarted(rt.alloc(), tier, bytes)? == answer);
    }
    Ok(())
}
