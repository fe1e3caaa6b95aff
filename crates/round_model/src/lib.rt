//! Rounds as definitions: batches, jobs, verdicts, answers and copies, and what a log and answers come to.
#![tactic(auto)]

mod answer;
mod claim;

pub use answer::Answer;
pub use claim::Claim;
