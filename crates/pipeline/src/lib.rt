//! The job of each round: the requests that a round parked some rounds ago, and the fresh entries of its batch.
#![tactic(auto)]

mod answers;
mod calls;
mod fit;
mod law;
mod numbers;
mod parked;
mod parking;
mod rounds;
mod segments;

pub use law::{fresh_entries_are_fresh, rounds_keep_to_tables};
pub use rounds::{JobState, Rounds, Settled};
