//! What a node recovers from its facts is what it recovers from a snapshot of them: laws, each the contract of a function
//! with an empty body.
#![tactic(auto)]

mod laws;

pub use laws::{alike_lists, snapshots};
