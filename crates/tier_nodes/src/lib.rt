//! The nodes of one tier, of any kind, each with its disk: what an event makes of a node.
#![tactic(auto)]

mod arming;
mod back_nodes;
mod condition;
mod laws;
mod mid_nodes;
mod posts;
mod tier_node;
mod tiers;
mod working;

pub use arming::StopAt;
pub use condition::Condition;
pub use laws::nodes_in_worlds;
pub use posts::Post;
pub use tier_node::TierNode;
pub use tiers::Tier;
