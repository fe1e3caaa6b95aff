//! Jobs on threads: one for each segment of a group, over one lock.
#![tactic(auto)]

mod group;
mod locked;

pub use locked::LockedExec;
