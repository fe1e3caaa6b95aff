//! What rounds came to, and the run of the next one: the store, the clients' table and the requests that wait.
#![tactic(auto)]

mod applied;
mod clients_after;
mod running;
mod settling;
mod told;

pub use applied::Applied;
pub use told::{Applying, Told};
