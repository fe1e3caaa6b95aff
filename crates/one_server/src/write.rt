// A write that a segment made.
ghost use Rattle.std.specs.Prelude.{◌<◌};

use aeg_base::Key;

/// A write to a key of a store.
#[derive(Clone, Copy, Debug)]
pub struct Write {
    pub key: Key,
    pub value: u64,
    ghost of_a_store: { key.class < 8 },
}
