//! One node's log of a tier, and its part as a leader.
#![tactic(auto)]

mod leading;
mod messages;
mod restoring;
mod tier_log;
mod turns;

pub use log_model::{Fact, LogIdle, LogTurn, Offering, PaxMsg};
pub use tier_log::TierLog;
