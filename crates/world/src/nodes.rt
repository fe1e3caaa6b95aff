// The nodes of the tiers, as far as they go while nothing is run.
mod all_nodes;
mod back_node;
mod command;
mod condition;
mod log_node;
mod mid_node;
mod pending;
mod restoring;
mod telling;
mod working;

pub use all_nodes::Nodes;
pub use command::Command;
pub use condition::Condition;
