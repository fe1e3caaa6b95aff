// The store: a finite map from keys to numbers without zeros, with room.
ghost use Rattle.std.specs.Prelude.{◌≡◌, ◌≤◌, ◌<◌, ◌+◌, IfOk, OnOk};
ghost use Rattle.aeg_base.specs.Store.{empty, pairs_of, value_at, written};
ghost use Rattle.kv_store.specs.Stores.{size};

use crate::column::{find, set, take_out};
use crate::copies::{again, empty_columns, join};
use crate::room::{grow, widened};
use aeg_base::{Cells, Key, Memory};
use std::alloc::Global;
use std::marker::Model;

/// A map from keys to numbers. Each column has capacity for the whole map's room: so a key goes in without growing, and
/// keys whose ids rise go in at their column's end.
#[derive(Debug, Drop)]
pub struct Store {
    columns: [Vec<(u32, u64)>; 8],
    count: usize,
    room: usize,
}

impl Model for Store {
    ghost use Rattle.kv_store.specs.Columns.{map_of, AreColumns};
    ghost use Rattle.kv_store.specs.Stores.{Holding, holding_code};

    ghost Value = { Holding };

    ghost coded = { holding_code };

    ghost view = { λ s. record { map = map_of s.columns; room = s.room } };

    ghost invariant = { λ s. AreColumns s.columns s.count s.room };
}

impl Store {
    /// An empty store.
    pub fn new(alloc: Global) -> Self
        ensures map { result.map ≡ empty }
        ensures room { result.room ≡ 0 }
    {
        Store {
            columns: empty_columns(alloc),
            count: 0,
            room: 0,
        }
    }

    /// How many pairs it has.
    pub fn len(&self) -> usize
        ensures count { result ≡ size self.now.map }
        ensures within { result ≤ self.now.room }
    {
        self.count
    }

    /// All pairs, by class, then id.
    pub fn pairs(&self) -> Result<Vec<(Key, u64)>, Memory>
        ensures { IfOk result (λ pairs. pairs.items ≡ pairs_of self.now.map) }
    {
        join(&self.columns, self.allocator())
    }

    /// The same store again.
    pub fn copy(&self) -> Result<Store, Memory>
        ensures { IfOk result (λ copy. copy.map ≡ self.now.map) }
    {
        let mut columns = again(&self.columns, self.allocator())?;
        grow(&mut columns, self.count)?;
        Ok(Store {
            columns,
            count: self.count,
            room: self.count,
        })
    }

    pub(crate) fn allocator(&self) -> Global {
        *self.columns[0].allocator()
    }

    // Makes room for more pairs. It doubles, so that many puts take memory seldom.
    pub(crate) fn make_room(&mut self, more: usize) -> Result<(), Memory>
        ensures map { self.new.map ≡ self.old.map }
        ensures kept { self.old.room ≤ self.new.room }
        ensures room { OnOk result (size self.new.map + more ≤ self.new.room) }
    {
        let Some(needed) = self.count.checked_add(more) else {
            return Err(Memory);
        };
        if needed > self.room {
            let room = widened(needed, self.room);
            grow(&mut self.columns, room)?;
            self.room = room;
        }
        Ok(())
    }

    // Sets the value of a key, which is not 0. There is room for what the store has then.
    fn set(&mut self, key: Key, value: u64)
        requires class { key.class < 8 }
        requires value { 0 < value }
        requires room { size (written self.old.map key value) ≤ self.old.room }
        ensures map { self.new.map ≡ written self.old.map key value }
        ensures room { self.new.room ≡ self.old.room }
    {
        let added = set(&mut self.columns[usize::from(key.class)], key.id, value);
        self.count += added;
    }

    // Takes a key out.
    fn take_out(&mut self, key: Key)
        requires class { key.class < 8 }
        ensures map { self.new.map ≡ written self.old.map key 0 }
        ensures room { self.new.room ≡ self.old.room }
    {
        let gone = take_out(&mut self.columns[usize::from(key.class)], key.id);
        self.count -= gone;
    }

    // Writes a key. There is room for what the store has then.
    pub(crate) fn write(&mut self, key: Key, value: u64)
        requires class { key.class < 8 }
        requires room { size (written self.old.map key value) ≤ self.old.room }
        ensures map { self.new.map ≡ written self.old.map key value }
        ensures room { self.new.room ≡ self.old.room }
    {
        if value == 0 {
            self.take_out(key);
        } else {
            self.set(key, value);
        }
    }
}

impl Cells for Store {
    ghost store = { λ s. s.map };

    ghost start = { λ s. empty };

    fn get(&self, key: Key) -> u64 {
        if key.class < 8 {
            find(&self.columns[usize::from(key.class)], key.id).unwrap_or(0)
        } else {
            0
        }
    }

    fn put(&mut self, key: Key, value: u64) -> Result<(), Memory> {
        self.make_room(1)?;
        self.write(key, value);
        Ok(())
    }
}
