//! What speculative rounds send is held back until they are applied.
#![tactic(auto)]

mod barrier;
mod group;

pub use barrier::Barrier;
