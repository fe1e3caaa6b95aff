//! One log of a tier as definitions: its messages, its rows, its world, and the laws of agreement.
#![tactic(auto)]

mod fact;
mod laws;
mod message;
mod ranges;
mod turn;

pub use fact::Fact;
pub use laws::{agreement, packets};
pub use message::{PaxMsg, copy_report};
pub use ranges::keeps_ranges;
pub use turn::{LogIdle, LogTurn, Offering};
