//! Tests of public calls of the crates of nodes, logs and worlds: each call once where it succeeds, with values from
//! outside. A file has the calls of one crate.
#![tactic(auto)]

#[cfg(test)]
mod acceptors_and_learners;
#[cfg(test)]
mod backend_nodes;
#[cfg(test)]
mod clients_and_batches;
#[cfg(test)]
mod frame_bytes;
#[cfg(test)]
mod held_answers;
#[cfg(test)]
mod journals_of_facts;
#[cfg(test)]
mod marks;
#[cfg(test)]
mod message_copies;
#[cfg(test)]
mod middle_nodes;
#[cfg(test)]
mod numbered_tables;
#[cfg(test)]
mod one_log;
#[cfg(test)]
mod played_scripts;
#[cfg(test)]
mod round_jobs;
#[cfg(test)]
mod round_tallies;
#[cfg(test)]
mod scripts_and_packets;
#[cfg(test)]
mod shim_calls;
