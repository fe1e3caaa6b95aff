//! Jobs, the machine that interleaves their segments, and its serial outcome.
#![tactic(auto)]

mod job;
mod law;

pub use job::{Job, Seg};
pub use law::{serial_outcome, whole_segments};
