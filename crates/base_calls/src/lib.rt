//! Tests of public calls of the crates below nodes and logs: each call once where it succeeds, with values from outside. A
//! file has the calls of one crate.
#![tactic(auto)]

#[cfg(test)]
mod backend_calls;
#[cfg(test)]
mod booking_jobs;
#[cfg(test)]
mod booking_segments;
#[cfg(test)]
mod held_packets;
#[cfg(test)]
mod in_turn;
#[cfg(test)]
mod journal_records;
#[cfg(test)]
mod lines_and_words;
#[cfg(test)]
mod log_fact_bytes;
#[cfg(test)]
mod log_value_bytes;
#[cfg(test)]
mod log_value_fields;
#[cfg(test)]
mod memory_disks;
#[cfg(test)]
mod names_and_lists;
#[cfg(test)]
mod one_server_steps;
#[cfg(test)]
mod real_streams;
#[cfg(test)]
mod refusal_rows;
#[cfg(test)]
mod runs_by_schedule;
#[cfg(test)]
mod segment_groups;
#[cfg(test)]
mod segment_runs;
#[cfg(test)]
mod speculative_runs;
#[cfg(test)]
mod store_puts;
#[cfg(test)]
mod streams;
#[cfg(test)]
mod texts;
#[cfg(test)]
mod threaded_jobs;
#[cfg(test)]
mod wire_fields;
