//! The two services that nested calls go to: the seats of trips, and what clients spend.
#![tactic(auto)]

mod inventory;
mod ledger;
mod payment;

pub use inventory::Inventory;
pub use payment::Payment;
