// The writes of one segment over cells that stay as they are.
ghost use Rattle.std.specs.Prelude.{◌≡◌, unwrap_or};
ghost use Rattle.aeg_base.specs.Store.{Store, value_at};
ghost use Rattle.one_server.specs.Writes.{after};

use crate::write::Write;
use aeg_base::{Cells, Key, Memory};

/// The writes of one segment over cells that stay as they are.
#[derive(Drop)]
pub struct Draft<'a, C> {
    pub base: &'a C,
    pub writes: Vec<Write>,
}

impl<C: Cells> Cells for Draft<'_, C> {
    ghost use Rattle.one_server.specs.Writes.{after};

    ghost store = { λ d. after (C.store d.base.now) d.writes.items };

    ghost start = { λ d. C.store d.base.now };

    fn get(&self, key: Key) -> u64 {
        match newest(&self.writes, key) {
            Some(value) => value,
            None => self.base.get(key),
        }
    }

    fn put(&mut self, key: Key, value: u64) -> Result<(), Memory> {
        self.writes.push(Write { key, value })?;
        Ok(())
    }
}

/// The newest write to the key, if there is one.
fn newest(writes: &[Write], key: Key) -> Option<u64>
    ensures { (s : Store) → value_at (after s writes.now) key ≡ unwrap_or result (value_at s key) }
{
    let mut found = None;
    for &write in writes {
        if key == write.key {
            found = Some(write.value);
        }
    }
    found
}
