//! A backend node: a log that it shares with its tier, a backend that serves the calls that are learned, and what it keeps
//! between its middle nodes and its log.
#![tactic(auto)]

mod back_node;
mod calls;
mod frames_in;
mod offering;
mod restoring;
mod serving;
mod telling;
mod turns;

pub use back_node::BackNode;
pub use serving::Serving;
