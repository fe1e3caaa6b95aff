// Pairs and copies of a store, as it is and as it was at an undo list's start.
ghost use Rattle.std.specs.Prelude.{◌≡◌, ◌++◌, IfOk, OnOk, length};
ghost use Rattle.aeg_base.specs.Store.{pairs_of, empty};
ghost use Rattle.aeg_base.specs.Changes.{changes};
ghost use Rattle.kv_store.specs.Stores.{unwound, touched, AreKeys};
ghost use Rattle.kv_store.specs.Columns.{keyed, all_pairs, lists_of, AreEmpty};
ghost use Rattle.kv_store.specs.Changes.{picked};

use crate::{Store, UndoList};
use aeg_base::{Cells, Key, Memory};
use std::alloc::Global;

/// Adds a column's pairs, with keys of its class.
pub fn add_column(
    pairs: &mut Vec<(Key, u64)>,
    class: u8,
    column: &[(u32, u64)],
) -> Result<(), Memory>
    ensures { OnOk result (pairs.new.items ≡ pairs.old.items ++ keyed class column.now) }
{
    'pairs: for &(id, value) in column {
        pairs.push((Key { class, id }, value))?;
    }
    Ok(())
}

/// The pairs of all columns, by class, then id.
pub fn join(columns: &[Vec<(u32, u64)>; 8], alloc: Global) -> Result<Vec<(Key, u64)>, Memory>
    ensures { IfOk result (λ pairs. pairs.items ≡ all_pairs 0 (lists_of columns.now)) }
{
    let mut pairs = Vec::new(alloc);
    'columns: for class in 0..8u8 {
        add_column(&mut pairs, class, &columns[usize::from(class)])?;
    }
    Ok(pairs)
}

/// The same columns again.
pub fn again(columns: &[Vec<(u32, u64)>; 8], alloc: Global) -> Result<[Vec<(u32, u64)>; 8], Memory>
    ensures same { IfOk result (λ copies. lists_of copies ≡ lists_of columns.now) }
    ensures eight { IfOk result (λ copies. length copies ≡ 8) }
{
    let mut copies = empty_columns(alloc);
    'each: for class in 0..8usize {
        copies[class] = columns[class].clone()?;
    }
    Ok(copies)
}

/// Eight columns without pairs.
pub fn empty_columns(alloc: Global) -> [Vec<(u32, u64)>; 8]
    ensures empty { AreEmpty result }
    ensures eight { length result ≡ 8 }
{
    [
        Vec::new(alloc),
        Vec::new(alloc),
        Vec::new(alloc),
        Vec::new(alloc),
        Vec::new(alloc),
        Vec::new(alloc),
        Vec::new(alloc),
        Vec::new(alloc),
    ]
}

/// Writes the values of these entries, the last first.
pub fn write_back(entries: &[(Key, u64)], store: &mut Store) -> Result<(), Memory>
    requires { AreKeys entries.now }
    ensures { OnOk result (store.new.map ≡ unwound entries.now store.old.map) }
{
    let mut left = entries.len();
    'entries: while left > 0 {
        left -= 1;
        let (key, value) = entries[left];
        store.put(key, value)?;
    }
    Ok(())
}

/// Writes 1 at the keys of these entries, the last first.
pub fn mark(entries: &[(Key, u64)], store: &mut Store) -> Result<(), Memory>
    requires { AreKeys entries.now }
    ensures { OnOk result (store.new.map ≡ touched entries.now store.old.map) }
{
    let mut left = entries.len();
    'entries: while left > 0 {
        left -= 1;
        let (key, _) = entries[left];
        store.put(key, 1)?;
    }
    Ok(())
}

impl Store {
    /// The pairs of the store at the list's start, where the store is the one that the list's puts left.
    pub fn pairs_before(&self, list: &UndoList) -> Result<Vec<(Key, u64)>, Memory>
        ensures { IfOk result (λ pairs. pairs.items ≡ pairs_of (unwound list.now.entries self.now.map)) }
    {
        let mut before = self.copy()?;
        list.rewind(&mut before)?;
        before.pairs()
    }

    /// The keys whose values differ from those at the list's start, by class, then id, with their new values: 0 where
    /// the key went. The store is the one that the list's puts left.
    pub fn changed(&self, list: &UndoList) -> Result<Vec<(Key, u64)>, Memory>
        ensures { IfOk result (λ pairs. pairs.items ≡ changes (unwound list.now.entries self.now.map) self.now.map) }
    {
        let mut before = Store::new(list.allocator());
        list.rewind(&mut before)?;
        let mut touched = Store::new(list.allocator());
        list.touch(&mut touched)?;
        self.pick(&before, &touched.pairs()?)
    }

    // The keys of these pairs whose values differ from those before, with their values now.
    fn pick(&self, before: &Store, pairs: &[(Key, u64)]) -> Result<Vec<(Key, u64)>, Memory>
        ensures { IfOk result (λ picks. picks.items ≡ picked before.now.map self.now.map pairs.now) }
    {
        let mut picks = Vec::new(before.allocator());
        'pairs: for &(key, _) in pairs {
            let value = self.get(key);
            if value != before.get(key) {
                picks.push((key, value))?;
            }
        }
        Ok(picks)
    }
}
