// Key locks, and sets of them.
ghost use Rattle.std.specs.Prelude.{◌≡◌, ℕ, ◌+◌, ◌*◌, ◌%◌, ◌<◌, ◌↔◌, List, Bool, true, length, IsTrue, slice_set, replicate, false};
ghost use Rattle.aeg_base.specs.Locks.{lock_number, no_locks, with_lock, Shares};

use crate::Key;
use crate::limits::{KEY_CLASSES, LOCKS};
use std::marker::Model;

/// The lock of a key, a number below 256.
pub fn lock_of(key: Key) -> u16
    requires { key.class < KEY_CLASSES }
    ensures number { result ≡ lock_number key }
    ensures below { result < LOCKS }
{
    u16::from(key.class) * 32 + (key.id % 32) as u16
}

/// A set of lock numbers, as 256 flags.
#[derive(Clone, Copy)]
pub struct LockSet {
    flags: [bool; 256],
}

impl Model for LockSet {
    ghost use Rattle.std.specs.Prelude.{◌≡◌, List, Bool, length};

    ghost Value = { List Bool };

    ghost view = { λ s. s.flags };

    ghost invariant = { λ s. length s.flags ≡ 256 };

    ghost inverse = { λ v. record { flags = v } };
}

impl LockSet {
    /// The empty set.
    pub fn new() -> Self
        ensures { result ≡ no_locks }
    {
        LockSet {
            flags: [false; 256],
        }
    }

    /// With a lock more.
    pub fn with(self, lock: u16) -> Self
        requires { lock < LOCKS }
        ensures { result ≡ with_lock self lock }
    {
        let mut flags = self.flags;
        flags[lock as usize] = true;
        LockSet { flags }
    }

    /// Whether the two share a lock.
    pub fn meets(&self, other: &LockSet) -> bool
        ensures { IsTrue result ↔ Shares self.now other.now }
    {
        let mine = &self.flags;
        let theirs = &other.flags;
        for i in 0..256usize {
            if mine[i] && theirs[i] {
                return true;
            }
        }
        false
    }
}
