// Puts that can be undone.
ghost use Rattle.std.specs.Prelude.{◌≡◌, ◌≤◌, ◌<◌, ◌+◌, ◌++◌, ◌∷◌, [], OnOk, length, take, drop, max, vec_capacity};
ghost use Rattle.aeg_base.specs.Store.{value_at, written};
ghost use Rattle.kv_store.specs.Stores.{size, unwound, touched, StaysWithin};

use crate::Store;
use crate::copies::{mark, write_back};
use aeg_base::{Cells, Key, Memory};
use std::alloc::Global;
use std::marker::Model;

/// The values that keys had before their puts, the oldest first.
#[derive(Debug, Drop)]
pub struct UndoList {
    entries: Vec<(Key, u64)>,
    top: usize,
}

impl Model for UndoList {
    ghost use Rattle.std.specs.Prelude.{vec_capacity};
    ghost use Rattle.kv_store.specs.Stores.{Logged, logged_code, AreKeys};

    ghost Value = { Logged };

    ghost coded = { logged_code };

    ghost view = { λ u. record { entries = u.entries.items; room = vec_capacity u.entries; top = u.top } };

    ghost invariant = { λ u. AreKeys u.entries.items };
}

impl UndoList {
    /// An empty list.
    pub fn new(alloc: Global) -> Self
        ensures entries { result.entries ≡ [] }
        ensures top { result.top ≡ 0 }
    {
        UndoList {
            entries: Vec::new(alloc),
            top: 0,
        }
    }

    /// How many puts can be undone.
    pub fn len(&self) -> usize
        ensures { result ≡ length self.now.entries }
    {
        self.entries.len()
    }

    pub(crate) fn allocator(&self) -> Global {
        *self.entries.allocator()
    }

    // Writes into a store the values before the puts, the newest first.
    pub(crate) fn rewind(&self, store: &mut Store) -> Result<(), Memory>
        ensures { OnOk result (store.new.map ≡ unwound self.now.entries store.old.map) }
    {
        write_back(&self.entries, store)
    }

    // Marks in a store the keys of the puts.
    pub(crate) fn touch(&self, store: &mut Store) -> Result<(), Memory>
        ensures { OnOk result (store.new.map ≡ touched self.now.entries store.old.map) }
    {
        mark(&self.entries, store)
    }

    fn make_room(&mut self, more: usize) -> Result<(), Memory>
        ensures entries { self.new.entries ≡ self.old.entries }
        ensures top { self.new.top ≡ self.old.top }
        ensures kept { self.old.room ≤ self.new.room }
        ensures room { OnOk result (length self.new.entries + more ≤ self.new.room) }
    {
        self.entries.reserve(more)?;
        Ok(())
    }

    // Notes a key's value before a put. There is room for it.
    fn log(&mut self, key: Key, before: u64, most: usize)
        requires class { key.class < 8 }
        requires room { length self.old.entries < self.old.room }
        ensures entries { self.new.entries ≡ self.old.entries ++ (key, before) ∷ [] }
        ensures room { self.old.room ≤ self.new.room }
        ensures top { self.new.top ≡ max self.old.top most }
    {
        let Ok(()) = self.entries.push((key, before)) else {
            unreachable!()
        };
        self.top = self.top.max(most);
    }

    // The newest put, taken off the list.
    fn newest(&mut self) -> (Key, u64)
        requires { 0 < length self.old.entries }
        ensures entries { self.old.entries ≡ self.new.entries ++ result ∷ [] }
        ensures class { result.0.class < 8 }
        ensures room { self.new.room ≡ self.old.room }
        ensures top { self.new.top ≡ self.old.top }
    {
        let Some(newest) = self.entries.pop() else {
            unreachable!()
        };
        newest
    }
}

impl Store {
    /// Makes room for more puts, in the store and in the list. Puts that follow take no memory.
    pub fn reserve(&mut self, undo: &mut UndoList, puts: usize) -> Result<(), Memory>
        ensures map { self.new.map ≡ self.old.map }
        ensures entries { undo.new.entries ≡ undo.old.entries }
        ensures top { undo.new.top ≡ undo.old.top }
        ensures kept { self.old.room ≤ self.new.room }
        ensures list_kept { undo.old.room ≤ undo.new.room }
        ensures room { OnOk result (size self.new.map + puts ≤ self.new.room) }
        ensures list_room { OnOk result (length undo.new.entries + puts ≤ undo.new.room) }
    {
        self.make_room(puts)?;
        undo.make_room(puts)
    }

    /// Writes a key, and notes in the list what it held. There is room for both.
    pub fn put_logged(&mut self, undo: &mut UndoList, key: Key, value: u64)
        requires room { size self.old.map < self.old.room }
        requires list_room { length undo.old.entries < undo.old.room }
        requires class { key.class < 8 }
        ensures map { self.new.map ≡ written self.old.map key value }
        ensures entries { undo.new.entries ≡ undo.old.entries ++ (key, value_at self.old.map key) ∷ [] }
        ensures top { undo.new.top ≡ max undo.old.top (max (size self.old.map) (size self.new.map)) }
        ensures within { undo.old.top ≤ self.old.room → undo.new.top ≤ self.new.room }
        ensures start { unwound undo.new.entries self.new.map ≡ unwound undo.old.entries self.old.map }
        ensures left { StaysWithin undo.old.top undo.old.entries self.old.map → StaysWithin undo.new.top undo.new.entries self.new.map }
        ensures room { self.new.room ≡ self.old.room }
        ensures list_room { undo.old.room ≤ undo.new.room }
    {
        let held = self.get(key);
        let before = self.len();
        self.write(key, value);
        undo.log(key, held, before.max(self.len()));
    }

    /// Takes back the puts of the list but for the first so many, the newest first.
    pub fn undo_to(&mut self, list: &mut UndoList, kept: usize)
        requires kept { kept ≤ length list.old.entries }
        requires left { StaysWithin list.old.top list.old.entries self.old.map }
        requires room { list.old.top ≤ self.old.room }
        ensures map { self.new.map ≡ unwound (drop kept list.old.entries) self.old.map }
        ensures entries { list.new.entries ≡ take kept list.old.entries }
        ensures left { StaysWithin list.new.top list.new.entries self.new.map }
        ensures top { list.new.top ≡ list.old.top }
        ensures room { self.new.room ≡ self.old.room }
        ensures list_room { list.new.room ≡ list.old.room }
    {
        'entries: while kept < list.len() {
            self.take_back(list);
        }
    }

    // Takes back the newest put.
    fn take_back(&mut self, list: &mut UndoList)
        requires some { 0 < length list.old.entries }
        requires left { StaysWithin list.old.top list.old.entries self.old.map }
        requires room { list.old.top ≤ self.old.room }
        ensures map { self.new.map ≡ unwound (drop (length list.new.entries) list.old.entries) self.old.map }
        ensures entries { list.new.entries ≡ take (length list.new.entries) list.old.entries }
        ensures less { length list.new.entries + 1 ≡ length list.old.entries }
        ensures left { StaysWithin list.new.top list.new.entries self.new.map }
        ensures top { list.new.top ≡ list.old.top }
        ensures room { self.new.room ≡ self.old.room }
        ensures list_room { list.new.room ≡ list.old.room }
    {
        let (key, value) = list.newest();
        self.write(key, value);
    }

    /// Takes back all puts of the list, the newest first: the store is then as it was at the list's start.
    pub fn undo(&mut self, list: &mut UndoList)
        requires left { StaysWithin list.old.top list.old.entries self.old.map }
        requires room { list.old.top ≤ self.old.room }
        ensures map { self.new.map ≡ unwound list.old.entries self.old.map }
        ensures entries { list.new.entries ≡ [] }
        ensures top { list.new.top ≡ list.old.top }
        ensures room { self.new.room ≡ self.old.room }
        ensures list_room { list.new.room ≡ list.old.room }
    {
        self.undo_to(list, 0);
    }
}
