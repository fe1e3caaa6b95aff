//! A middle node: a log that it shares with its tier, the rounds that it applies and runs, and what it keeps of clients,
//! tokens and answers.
#![tactic(auto)]

mod answers;
mod frames_in;
mod node_of;
mod offering;
mod own_values;
mod requests;
mod tokens;
mod turns;

pub use node_of::{MidNode, NodeOf};
