// Groups of jobs, worked out by hand.
use aeg_base::LockSet;
use aeg_base::limits::{JOB_SEGMENTS, LOCKS};
use key_mixer::groups;
use std::alloc::Global;
use std::test::*;

/// The locks of a job's segments, and the members of its groups.
type Job = (&'static [&'static [u16]], &'static [&'static [u8]]);

const JOBS: [Job; 9] = [
    (&[], &[]),
    (&[&[7]], &[&[0]]),
    (&[&[1], &[2]], &[&[0, 1]]),
    (&[&[1, 9], &[9, 2]], &[&[0], &[1]]),
    // the third meets the first alone
    (&[&[1], &[2], &[1, 3]], &[&[0, 1], &[2]]),
    // the first meets both others, which don't meet
    (&[&[1, 2], &[2], &[1]], &[&[0], &[1, 2]]),
    // the first and the third are alike
    (&[&[0, 255], &[], &[0, 255]], &[&[0, 1], &[2]]),
    // the third meets the second alone
    (&[&[1], &[2], &[2]], &[&[0, 1], &[2]]),
    // the first and the second meet, and the third meets neither
    (&[&[1], &[1], &[2]], &[&[0, 2], &[1]]),
];

fn set_of(locks: &[u16]) -> Result<LockSet, Fail> {
    let mut set = LockSet::new();
    for &lock in locks {
        if lock >= LOCKS {
            return Err("a lock out of range".into());
        }
        set = set.with(lock);
    }
    Ok(set)
}

fn sets_of(alloc: Global, segments: &[&[u16]]) -> Result<Vec<LockSet>, Fail> {
    let mut sets = Vec::new(alloc);
    for locks in segments {
        sets.push(set_of(locks)?)?;
    }
    Ok(sets)
}

/// Whether these are the groups with those members.
fn have(groups: &[Vec<u8>], members: &[&[u8]]) -> bool {
    if groups.len() != members.len() {
        return false;
    }
    groups
        .iter()
        .zip(members)
        .all(|(group, &wanted)| group.as_slice() == wanted)
}

#[test]
fn a_segment_goes_into_the_first_group_that_it_fits(rt: HostRuntime) -> Result<(), Fail> {
    for (segments, members) in JOBS {
        let sets = sets_of(rt.alloc(), segments)?;
        if sets.len() > JOB_SEGMENTS {
            return Err("too many segments".into());
        }
        let made = groups(rt.alloc(), &sets)?;
        assert!(rt; have(&made, members), "{segments:?}: {made:?}");
    }
    Ok(())
}
