// The writes of a segment, made in a store that has room for them.
ghost use Rattle.std.specs.Prelude.{◌≡◌, ◌≤◌, ◌+◌, length};
ghost use Rattle.kv_store.specs.Stores.{size};
ghost use Rattle.one_server.specs.Writes.{after};

use crate::write::Write;
use kv_store::{Store, UndoList};

/// Makes the writes, in order. There is room for them.
pub fn make(store: &mut Store, undo: &mut UndoList, writes: &[Write])
    requires room { size store.old.map + length writes.now ≤ store.old.room }
    requires list_room { length undo.old.entries + length writes.now ≤ undo.old.room }
    ensures { store.new.map ≡ after store.old.map writes.now }
{
    for &write in writes {
        store.put_logged(undo, write.key, write.value);
    }
}
