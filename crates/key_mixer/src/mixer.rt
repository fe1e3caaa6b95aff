// Each segment goes into the first group that it fits.
ghost use Rattle.std.specs.Prelude.{◌≡◌, ◌≤◌, ◌<◌, ◌+◌, ◌++◌, ◌∷◌, [], ℕ, Bool, true, IfOk, OnOk, IfErr, length, IsTrue, take, List};
ghost use Rattle.std.specs.List.{All};
ghost use Rattle.exec_model.specs.Groups.{fits, place, mix};
ghost use Rattle.key_mixer.specs.Lists.{lists_of, set_at, FirstFit};

use aeg_base::{LockSet, Memory};
use std::alloc::Global;

/// The groups of segments that declare these sets of locks. In job order, each segment goes into the first group with no
/// member whose set shares a lock with its own.
pub fn groups(alloc: Global, sets: &[LockSet]) -> Result<Vec<Vec<u8>>, Memory>
    requires { length sets.now ≤ 32 }
    ensures { IfOk result (λ groups. lists_of groups.items ≡ mix (set_at sets.now) (length sets.now)) }
{
    let mut groups: Vec<Vec<u8>> = Vec::new(alloc);
    'segments: for i in 0..sets.len() {
        put_in(alloc, &mut groups, sets, i as u8)?;
    }
    Ok(groups)
}

/// Puts a segment into the first group that it fits, or into a group of its own.
fn put_in(alloc: Global, groups: &mut Vec<Vec<u8>>, sets: &[LockSet], i: u8) -> Result<(), Memory>
    requires here { i < length sets.now }
    requires members { All (λ g. All (λ j. j < length sets.now) g.items) groups.old.items }
    ensures placed { OnOk result (lists_of groups.new.items ≡ place (set_at sets.now) i (lists_of groups.old.items)) }
    ensures members { OnOk result (All (λ g. All (λ j. j < length sets.now) g.items) groups.new.items) }
{
    let at = first_group(groups, sets, i);
    if at < groups.len() {
        groups[at].push(i)?;
        return Ok(());
    }
    let mut alone = Vec::new(alloc);
    alone.push(i)?;
    groups.push(alone)?;
    Ok(())
}

/// The first group that a segment fits, or how many groups there are.
fn first_group(groups: &[Vec<u8>], sets: &[LockSet], i: u8) -> usize
    requires here { i < length sets.now }
    requires members { All (λ g. All (λ j. j < length sets.now) g.items) groups.now }
    ensures within { result ≤ length groups.now }
    ensures first { FirstFit (set_at sets.now) i (lists_of groups.now) result }
{
    'groups: for at in 0..groups.len() {
        if fits_in(&groups[at], sets, i) {
            return at;
        }
    }
    groups.len()
}

/// Whether no member of the group declares a lock of this segment's.
fn fits_in(group: &[u8], sets: &[LockSet], i: u8) -> bool
    requires here { i < length sets.now }
    requires members { All (λ j. j < length sets.now) group.now }
    ensures { result ≡ fits (set_at sets.now) (set_at sets.now i) group.now }
{
    'members: for j in group {
        if sets[usize::from(i)].meets(&sets[usize::from(*j)]) {
            return false;
        }
    }
    true
}
