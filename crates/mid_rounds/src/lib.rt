//! The rounds of a middle node: what it keeps beside its log, and how it applies and runs rounds, tells of them, tells
//! again, and restores what a restart finds.
#![tactic(auto)]

mod applying;
mod keeping;
mod restoring;
mod rounds_learned;
mod running;
mod telling;
mod telling_again;
mod voting;

pub use applying::{Settling, settle_next};
pub use keeping::Keeping;
pub use restoring::{restored_held, restored_keeping};
pub use rounds_learned::verdict_at;
pub use running::{work, work_idle};
pub use telling::{send_haves, send_reply, tell};
pub use telling_again::tell_again;
pub use voting::add_vote;
