// Keys of the store.
ghost use Rattle.std.specs.Prelude.{◌≡◌, ◌<◌};
ghost use Rattle.aeg_base.specs.Locks.{with_lock, lock_number};
ghost use Rattle.server_model.specs.Booking.{cell as cell_of, narrow as narrow_of};

use aeg_base::limits::KEY_CLASSES;
use aeg_base::{Key, LockSet, lock_of};

pub fn cell(class: u8, id: u32) -> Key
    ensures { result ≡ cell_of class id }
{
    Key { class, id }
}

/// A number read from the store, as it names a key and stands in a text.
pub fn narrow(number: u64) -> u32
    ensures { result ≡ narrow_of number }
{
    (number % (1 << 32)) as u32
}

/// The locks with that of this key.
pub fn locking(locks: LockSet, class: u8, id: u32) -> LockSet
    requires { class < KEY_CLASSES }
    ensures { result ≡ with_lock locks (lock_number (cell_of class id)) }
{
    locks.with(lock_of(cell(class, id)))
}
