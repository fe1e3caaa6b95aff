// A store in the middle of a batch, with what it takes to undo.
ghost use Rattle.std.specs.Prelude.{◌≡◌, ◌≤◌, IfOk};
ghost use Rattle.kv_store.specs.Stores.{unwound, StaysWithin};
ghost use Rattle.aeg_base.specs.Changes.{changes};

use crate::machine::Logged;
use aeg_base::{Cells, Key, Memory};
use kv_store::{Store, UndoList};
use std::alloc::Global;
use std::marker::Model;

/// A store, the undo list of its puts since the batch's start, and how long the list was at the last mark.
#[derive(Drop)]
pub struct Batch {
    store: Store,
    undo: UndoList,
    mark: usize,
}

impl Model for Batch {
    ghost use Rattle.std.specs.Prelude.{drop};
    ghost use Rattle.kv_store.specs.Stores.{unwound};
    ghost use Rattle.exec_core.specs.Batches.{BatchView, batch_code, IsBatch};

    ghost Value = { BatchView };

    ghost coded = { batch_code };

    ghost view = { λ b. record { now = b.store.map; base = unwound (drop b.mark b.undo.entries) b.store.map; start = unwound b.undo.entries b.store.map } };

    ghost invariant = { λ b. IsBatch b.store b.undo b.mark };
}

impl Batch {
    /// A batch begins on a store.
    pub fn new(alloc: Global, store: Store) -> Self
        ensures now { result.now ≡ store.map }
        ensures start { result.start ≡ store.map }
    {
        Batch {
            store,
            undo: UndoList::new(alloc),
            mark: 0,
        }
    }

    /// Takes the room of so many puts.
    pub fn reserve(&mut self, puts: usize) -> Result<(), Memory>
        ensures same { self.new ≡ self.old }
    {
        self.store.reserve(&mut self.undo, puts)
    }

    /// The store as it was at the batch's start.
    pub fn give_up(self) -> Store
        ensures { result.map ≡ self.start }
    {
        let mut store = self.store;
        let mut undo = self.undo;
        store.undo(&mut undo);
        store
    }

    /// The store with the undo list of the batch's puts.
    pub fn finish(self) -> (Store, UndoList)
        ensures now { result.0.map ≡ self.now }
        ensures start { unwound result.1.entries result.0.map ≡ self.start }
        ensures left { StaysWithin result.1.top result.1.entries result.0.map }
        ensures room { result.1.top ≤ result.0.room }
    {
        (self.store, self.undo)
    }

    /// The keys whose values differ from those at the batch's start.
    pub fn changed(&self) -> Result<Vec<(Key, u64)>, Memory>
        ensures { IfOk result (λ pairs. pairs.items ≡ changes self.now.start self.now.now) }
    {
        self.store.changed(&self.undo)
    }
}

impl Cells for Batch {
    ghost store = { λ b. b.now };

    ghost start = { λ b. b.start };

    fn get(&self, key: Key) -> u64 {
        self.store.get(key)
    }

    fn put(&mut self, key: Key, value: u64) -> Result<(), Memory> {
        self.write(key, value)
    }
}

impl Logged for Batch {
    ghost base = { λ b. b.base };

    fn write(&mut self, key: Key, value: u64) -> Result<(), Memory> {
        self.store.reserve(&mut self.undo, 1)?;
        self.store.put_logged(&mut self.undo, key, value);
        Ok(())
    }

    fn mark(&mut self) {
        self.mark = self.undo.len();
    }

    fn undo(&mut self) {
        self.store.undo_to(&mut self.undo, self.mark);
    }
}
