//! What holds of every row of a node, from every state in range: ranges, packets and facts.
#![tactic(auto)]

mod backs;
mod mids;
mod services;

pub use backs::backend_rows;
pub use mids::middle_rows;
pub use services::services_in_range;
