//! The journal of a node of a tier: its records are lists of facts, and a restart takes only records that fit the node.
#![tactic(auto)]

mod fitting;
mod journal;
mod laws;
mod reading;

pub use journal::FactJournal;
pub use laws::{few_facts_are_short, fitting_facts, fitting_records, refusals, standing_disks};
pub use node_journal::{AppendErr, OpenErr};
