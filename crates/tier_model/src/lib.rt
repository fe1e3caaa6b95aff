//! The nodes of the tiers as definitions: the rows of middle and backend nodes, what a restart restores, and what a node answers.
#![tactic(auto)]

mod turn;

pub use turn::{Fault, Idle, RunNote, Turn};
