//! What a middle and a backend node share: a log in memory, a journal on a disk, and the packets that they send.
#![tactic(auto)]

mod answers;
mod decided;
mod facts;
mod faults;
mod laws;
mod log_node;
mod member;
mod peers;
mod recording;
mod restoring;
mod sending;
mod working;

pub use answers::{answer_of, needs_own, offer_cause};
pub use decided::{Decided, decide_turn};
pub use facts::facts_of;
pub use laws::{log_turns, moves, quiet_moves, quiet_turns, ready_again, restarts, tells};
pub use log_node::LogNode;
pub use member::Member;
pub use peers::node_in;
pub use restoring::restored;
pub use sending::{send_asks, send_log, send_one, send_to_tier};
pub use working::Working;
