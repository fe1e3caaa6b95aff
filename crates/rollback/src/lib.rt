//! Undoing what a round ran before it was agreed, and settling it by the round's verdict.
#![tactic(auto)]

mod cold;
mod law;
mod spec;

pub use cold::settle_cold;
pub use law::{commit_is_serial, outcomes_have_tokens, runs_keep_numbers};
pub use spec::Spec;
