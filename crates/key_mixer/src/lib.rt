//! The groups of a job: segments whose declared locks don't meet.
#![tactic(auto)]

mod mixer;

pub use mixer::groups;
