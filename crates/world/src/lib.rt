//! All nodes, clients and packets of a run, and the text that its events print.
#![tactic(auto)]

mod node_disks;
mod nodes;
mod observer;
mod parts;
mod progress;
mod stop;
mod text;
mod watch;
mod world;

pub use node_disks::memory_disks;
pub use stop::Stop;
pub use world::World;
