//! What a middle node keeps of its clients, which entries are fresh, and the batches that are made of them.
#![tactic(auto)]

mod batches;
mod clients;
mod freshness;
mod pending;

pub use batches::{fresh_entries, fresh_entries_in, make_batch, make_batch_in};
pub use clients::Clients;
pub use freshness::{fresh, fresh_in};
pub use pending::Pending;
