// Limits, locks, the order of ballots, and lists that grow at their end.
use crate::texts::bytes_of;
use aeg_base::{Ballot, Bytes, Key, LockSet, Memory, Seq, Tier, limits, lock_of};
use std::alloc::Global;
use std::test::*;

#[test]
fn limits_have_their_numbers(rt: HostRuntime) {
    let table = [
        (u64::from(limits::MAX_FAULTS), 2),
        (u64::from(limits::MAX_DEPTH), 4),
        (u64::from(limits::CLIENTS), 16),
        (u64::from(limits::LAST_SEQ), 65_536),
        (limits::TEXT_BYTES as u64, 48),
        (u64::from(limits::BODY_BYTES), 8_192),
        (limits::BATCH_ENTRIES as u64, 8),
        (limits::JOB_SEGMENTS as u64, 32),
        (limits::SEGMENT_ACTIONS as u64, 32),
        (limits::SEGMENT_PUTS as u64, 8),
        (u64::from(limits::POSITIONS), 4_096),
        (u64::from(limits::ROUNDS), 2_048),
        (u64::from(limits::PACKETS), 65_536),
        (u64::from(limits::PACKETS_BEFORE), 65_024),
        (limits::JOURNAL_BYTES, 67_108_864),
        (u64::from(limits::RECORD_BYTES), 16_384),
        (limits::INPUT_BYTES as u64, 8_388_608),
        (limits::INPUT_LINES as u64, 200_000),
        (u64::from(limits::KEY_CLASSES), 8),
        (u64::from(limits::LOCKS), 256),
    ];
    for (limit, number) in table {
        assert_eq!(rt; limit, number);
    }
}

/// Classes and ids of keys, with their locks: a class has 32 of them, which its ids take in turn.
const LOCKS_OF_KEYS: [(u8, u32, u16); 8] = [
    (0, 0, 0),
    (0, 31, 31),
    (0, 32, 0),
    (1, 0, 32),
    (2, 33, 65),
    (5, 40, 168),
    (7, 31, 255),
    (7, u32::MAX, 255),
];

#[test]
fn a_key_has_a_lock_of_its_class(rt: HostRuntime) -> Result<(), Fail> {
    for (class, id, lock) in LOCKS_OF_KEYS {
        if class >= limits::KEY_CLASSES {
            return Err("a class out of range".into());
        }
        assert_eq!(rt; lock_of(Key { class, id }), lock, "{class} {id}");
    }
    Ok(())
}

/// Two sets of locks, and whether they share one.
const PAIRS_OF_SETS: [(&[u16], &[u16], bool); 6] = [
    (&[], &[], false),
    (&[], &[0], false),
    (&[0], &[0], true),
    (&[3, 4, 5], &[2, 6], false),
    (&[0, 128, 255], &[1, 255], true),
    (&[255], &[254], false),
];

fn set_of(locks: &[u16]) -> Result<LockSet, Fail> {
    let mut set = LockSet::new();
    for &lock in locks {
        if lock >= limits::LOCKS {
            return Err("a lock out of range".into());
        }
        set = set.with(lock);
    }
    Ok(set)
}

#[test]
fn sets_meet_in_a_shared_lock(rt: HostRuntime) -> Result<(), Fail> {
    for (these, those, meets) in PAIRS_OF_SETS {
        let (one, other) = (set_of(these)?, set_of(those)?);
        let met = (one.meets(&other), other.meets(&one));
        assert!(rt; met == (meets, meets), "{these:?} {those:?}");
    }
    Ok(())
}

/// Two ballots, and whether the first is below the second, at most it, and the same.
const PAIRS_OF_BALLOTS: [((u32, u8), (u32, u8), [bool; 3]); 6] = [
    ((0, 0), (0, 0), [false, true, true]),
    ((1, 2), (1, 3), [true, true, false]),
    ((1, 3), (1, 2), [false, false, false]),
    ((1, 4), (2, 0), [true, true, false]),
    ((2, 0), (1, 4), [false, false, false]),
    ((u32::MAX, 1), (u32::MAX, 1), [false, true, true]),
];

fn ballot((counter, node): (u32, u8)) -> Ballot {
    Ballot { counter, node }
}

/// Whether a ballot is below another, at most it, and the same.
fn compared(one: Ballot, other: Ballot) -> [bool; 3] {
    [
        one.is_below(other),
        one.is_at_most(other),
        one.is_same(other),
    ]
}

#[test]
fn ballots_go_by_counter_then_node(rt: HostRuntime) {
    for (first, second, wanted) in PAIRS_OF_BALLOTS {
        let told = compared(ballot(first), ballot(second));
        assert!(rt; told == wanted, "{first:?} {second:?}");
    }
}

/// A byte and then bytes that are added, and what is there afterwards.
const ADDED_BYTES: [(u8, &[u8], &[u8]); 3] = [
    (b'a', b"", b"a"),
    (b'b', b"cd", b"abcd"),
    (b'\0', b"\xff", b"abcd\0\xff"),
];

/// Adds to the bytes; whether all is there then.
fn adds(bytes: &mut Bytes, byte: u8, more: &[u8], items: &[u8]) -> Result<bool, Memory> {
    bytes.push(byte)?;
    bytes.extend(more)?;
    Ok(bytes.items() == items)
}

#[test]
fn bytes_are_added_at_the_end(rt: HostRuntime) -> Result<(), Fail> {
    let mut bytes = Bytes::new(rt.alloc());
    for (byte, more, items) in ADDED_BYTES {
        assert!(rt; adds(&mut bytes, byte, more, items)?);
    }
    Ok(())
}

fn are_bytes(bytes: Bytes, items: &[u8]) -> bool {
    let all = bytes.into_vec();
    all.as_slice() == items
}

/// Whether a copy is the same, and another where a byte is added.
fn is_copied(bytes: &mut Bytes) -> Result<bool, Memory> {
    let copy = bytes.copy()?;
    let same = copy == *bytes;
    bytes.push(b's')?;
    let differs = copy != *bytes;
    let stays = are_bytes(copy, b"open");
    Ok(same && differs && stays)
}

#[test]
fn a_copy_of_bytes_stays_as_it_was(rt: HostRuntime) -> Result<(), Fail> {
    let mut bytes = bytes_of(rt.alloc(), "open")?;
    assert!(rt; is_copied(&mut bytes)?);
    assert!(rt; are_bytes(bytes, b"opens"));
    Ok(())
}

fn pushed(alloc: Global) -> Result<Vec<Tier>, Memory> {
    let mut seq = Seq::new(alloc);
    seq.push(Tier::Mid)?;
    seq.push(Tier::Inv)?;
    Ok(seq.into_vec())
}

fn are_pushed(alloc: Global) -> Result<bool, Memory> {
    let tiers = pushed(alloc)?;
    Ok(tiers.as_slice() == [Tier::Mid, Tier::Inv].as_slice())
}

#[test]
fn values_are_added_at_the_end(rt: HostRuntime) -> Result<(), Fail> {
    let tiers = Seq::of(Vec::from_slice(rt.alloc(), &[Tier::Pay])?);
    assert!(rt; are_pushed(tiers.allocator())?);
    assert!(rt; tiers.items() == [Tier::Pay].as_slice());
    Ok(())
}

/// The same bytes, on the same heap.
fn again(bytes: &Bytes) -> Result<Bytes, Memory> {
    let mut other = Bytes::new(bytes.allocator());
    other.extend(bytes.items())?;
    Ok(other)
}

#[test]
fn a_list_tells_the_heap_that_it_is_on(rt: HostRuntime) -> Result<(), Fail> {
    let text = bytes_of(rt.alloc(), "open")?;
    assert!(rt; again(&text)? == text);
    Ok(())
}
