// The locks of keys, each with its holder.
ghost use Rattle.std.specs.Prelude.{◌≡◌, ℕ, ◌*◌, ◌<◌, ◌==◌, ◌||◌, IsTrue, true, false, length, if◌then◌else◌};
ghost use Rattle.exec_model.specs.Machine.{update};
ghost use Rattle.exec_core.specs.States.{owner_of};

/// Takes a lock for the holder `me`, where it is free or his already.
pub fn take(owner: &mut [u8], lock: usize, me: u8) -> bool
    requires { lock < length owner.old }
    ensures answer { result ≡ ((owner_of owner.old lock == 0) || (owner_of owner.old lock == me)) }
    ensures taken { IsTrue result → owner_of owner.new ≡ update (owner_of owner.old) lock me }
    ensures busy { result ≡ false → owner.new ≡ owner.old }
    ensures length { length owner.new ≡ length owner.old }
{
    let holder = owner[lock];
    if holder == 0 || holder == me {
        owner[lock] = me;
        true
    } else {
        false
    }
}

/// Gives back all locks of the holder `me`.
pub fn release(owner: &mut [u8], me: u8)
    ensures free { (l : ℕ) → owner_of owner.new l ≡ (if owner_of owner.old l == me then 0 else owner_of owner.old l) }
    ensures length { length owner.new ≡ length owner.old }
{
    for holder in owner.iter_mut() {
        if *holder == me {
            *holder = 0;
        }
    }
}

/// Gives all locks back.
pub fn clear(owner: &mut [u8])
    ensures free { (l : ℕ) → owner_of owner.new l ≡ 0 }
    ensures length { length owner.new ≡ length owner.old }
{
    for holder in owner.iter_mut() {
        *holder = 0;
    }
}
