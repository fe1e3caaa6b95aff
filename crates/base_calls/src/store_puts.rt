// What stores hold after puts, and after puts that are undone.
ghost use Rattle.std.specs.Prelude.{◌≤◌, OnOk};
ghost use Rattle.kv_store.specs.Stores.{StaysWithin};

use aeg_base::limits::KEY_CLASSES;
use aeg_base::{Cells, Key};
use kv_store::{Store, UndoList};
use std::alloc::Global;
use std::process::Abort;
use std::test::*;

const LOW: Key = Key { class: 0, id: 9 };

const MIDDLE: Key = Key { class: 3, id: 0 };

const HIGH: Key = Key { class: 3, id: 1 };

const NEVER: Key = Key { class: 7, id: 1 };

type Pairs = &'static [(Key, u64)];

/// A put, the values afterwards of the keys above, in their order, and the pairs.
type Put = (Key, u64, [u64; 4], Pairs);

const PUTS: [Put; 6] = [
    (HIGH, 7, [0, 0, 7, 0], &[(HIGH, 7)]),
    (LOW, 5, [5, 0, 7, 0], &[(LOW, 5), (HIGH, 7)]),
    (MIDDLE, 4, [5, 4, 7, 0], &[(LOW, 5), (MIDDLE, 4), (HIGH, 7)]),
    (LOW, 6, [6, 4, 7, 0], &[(LOW, 6), (MIDDLE, 4), (HIGH, 7)]),
    (MIDDLE, 0, [6, 0, 7, 0], &[(LOW, 6), (HIGH, 7)]),
    (MIDDLE, 0, [6, 0, 7, 0], &[(LOW, 6), (HIGH, 7)]),
];

fn values(store: &Store) -> [u64; 4] {
    [
        store.get(LOW),
        store.get(MIDDLE),
        store.get(HIGH),
        store.get(NEVER),
    ]
}

fn has_pairs(store: &Store, pairs: &[(Key, u64)]) -> Result<bool, Fail> {
    let all = store.pairs()?;
    Ok(all.as_slice() == pairs)
}

/// Makes a put; whether the store has then what it should.
fn holds(store: &mut Store, row: &Put) -> Result<bool, Fail> {
    let (key, value, held, pairs) = *row;
    if key.class >= KEY_CLASSES {
        return Err("a class out of range".into());
    }
    store.put(key, value)?;
    Ok(values(store) == held && store.len() == pairs.len() && has_pairs(store, pairs)?)
}

#[test]
fn a_store_holds_what_was_put(rt: HostRuntime) -> Result<(), Fail> {
    let mut store = Store::new(rt.alloc());
    for row in &PUTS {
        assert!(rt; holds(&mut store, row)?);
    }
    Ok(())
}

/// A store with one pair.
fn with_one(alloc: Global) -> Result<Store, Fail> {
    let mut store = Store::new(alloc);
    store.put(HIGH, 7)?;
    Ok(store)
}

/// Takes the pair out, and puts in another.
fn exchange(store: &mut Store) -> Result<(), Fail> {
    store.put(HIGH, 0)?;
    store.put(LOW, 5)?;
    Ok(())
}

/// Whether a copy of the store with one pair still has it where the store has another.
fn is_copied(store: &mut Store) -> Result<bool, Fail> {
    let copy = store.copy()?;
    exchange(store)?;
    has_pairs(&copy, &[(HIGH, 7)])
}

#[test]
fn a_copy_stays_as_it_was(rt: HostRuntime) -> Result<(), Fail> {
    let mut store = with_one(rt.alloc())?;
    assert!(rt; is_copied(&mut store)?);
    assert!(rt; has_pairs(&store, &[(LOW, 5)])?);
    Ok(())
}

/// The pairs before the puts of a list.
const BEFORE: [(Key, u64); 2] = [(LOW, 5), (HIGH, 7)];

/// A put of the list, the pairs afterwards, and those keys with their values that have changed since the list began.
type Logged = (Key, u64, Pairs, Pairs);

/// The first put of the list.
const FIRST: Logged = (
    MIDDLE,
    4,
    &[(LOW, 5), (MIDDLE, 4), (HIGH, 7)],
    &[(MIDDLE, 4)],
);

/// The puts after it.
const LATER: [Logged; 3] = [
    (
        LOW,
        6,
        &[(LOW, 6), (MIDDLE, 4), (HIGH, 7)],
        &[(LOW, 6), (MIDDLE, 4)],
    ),
    (
        HIGH,
        0,
        &[(LOW, 6), (MIDDLE, 4)],
        &[(LOW, 6), (MIDDLE, 4), (HIGH, 0)],
    ),
    (LOW, 5, &[(LOW, 5), (MIDDLE, 4)], &[(MIDDLE, 4), (HIGH, 0)]),
];

/// Whether these keys with their values have changed since the list began.
fn has_changed(store: &Store, list: &UndoList, changed: &[(Key, u64)]) -> Result<bool, Fail> {
    let all = store.changed(list)?;
    Ok(all.as_slice() == changed)
}

/// Whether the store tells what was there before.
fn tells_before(store: &Store, list: &UndoList) -> Result<bool, Fail> {
    let all = store.pairs_before(list)?;
    Ok(all.as_slice() == BEFORE.as_slice())
}

/// Whether the store has the pairs, tells what has changed, and what was there before.
fn shows(
    store: &Store,
    list: &UndoList,
    pairs: &[(Key, u64)],
    changed: &[(Key, u64)],
) -> Result<bool, Fail> {
    Ok(has_pairs(store, pairs)? && has_changed(store, list, changed)? && tells_before(store, list)?)
}

/// Makes room for a put of the list, and makes the put; whether the store shows then what it should.
fn put(store: &mut Store, list: &mut UndoList, logged: &Logged) -> Result<bool, Fail>
    requires left { StaysWithin list.old.top list.old.entries store.old.map }
    requires room { list.old.top ≤ store.old.room }
    ensures left { OnOk result (StaysWithin list.new.top list.new.entries store.new.map) }
    ensures room { OnOk result (list.new.top ≤ store.new.room) }
{
    let (key, value, pairs, changed) = *logged;
    if key.class >= KEY_CLASSES {
        return Err("a class out of range".into());
    }
    store.reserve(list, 1)?;
    store.put_logged(list, key, value);
    shows(store, list, pairs, changed)
}

fn before(alloc: Global) -> Result<Store, Fail> {
    let mut store = Store::new(alloc);
    store.put(LOW, 5)?;
    store.put(HIGH, 7)?;
    Ok(store)
}

/// Makes the puts of the list after the first.
fn put_later(rt: &impl Abort, store: &mut Store, list: &mut UndoList) -> Result<(), Fail>
    requires left { StaysWithin list.old.top list.old.entries store.old.map }
    requires room { list.old.top ≤ store.old.room }
    ensures left { OnOk result (StaysWithin list.new.top list.new.entries store.new.map) }
    ensures room { OnOk result (list.new.top ≤ store.new.room) }
{
    'logged: for logged in &LATER {
        assert!(rt; put(store, list, logged)?);
    }
    Ok(())
}

/// Takes back all puts but the first; whether the store shows then what it did after that. One key was put twice since
/// then, so the order counts.
fn back_to_the_first(store: &mut Store, list: &mut UndoList) -> Result<bool, Fail>
    requires left { StaysWithin list.old.top list.old.entries store.old.map }
    requires room { list.old.top ≤ store.old.room }
    ensures left { OnOk result (StaysWithin list.new.top list.new.entries store.new.map) }
    ensures room { OnOk result (list.new.top ≤ store.new.room) }
{
    if list.len() != 4 {
        return Err("a list of four puts".into());
    }
    store.undo_to(list, 1);
    let (_, _, pairs, changed) = FIRST;
    Ok(list.len() == 1 && shows(store, list, pairs, changed)?)
}

/// Takes back all puts; whether the store shows then what it did before them.
fn back_to_the_start(store: &mut Store, list: &mut UndoList) -> Result<bool, Fail>
    requires left { StaysWithin list.old.top list.old.entries store.old.map }
    requires room { list.old.top ≤ store.old.room }
{
    store.undo(list);
    Ok(list.len() == 0 && shows(store, list, &BEFORE, &[])?)
}

/// Makes the puts of the list and takes them back.
fn put_and_undo(rt: &impl Abort, store: &mut Store, list: &mut UndoList) -> Result<(), Fail>
    requires left { StaysWithin list.old.top list.old.entries store.old.map }
    requires room { list.old.top ≤ store.old.room }
{
    assert!(rt; put(store, list, &FIRST)?);
    put_later(rt, store, list)?;
    assert!(rt; back_to_the_first(store, list)?);
    assert!(rt; back_to_the_start(store, list)?);
    Ok(())
}

#[test]
fn puts_are_undone(rt: HostRuntime) -> Result<(), Fail> {
    let mut store = before(rt.alloc())?;
    let mut list = UndoList::new(rt.alloc());
    put_and_undo(&rt, &mut store, &mut list)
}
