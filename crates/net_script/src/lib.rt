//! Scripts from their texts, the list of all packets, and the ends of clients.
#![tactic(auto)]

mod client_end;
mod commands;
mod cutting;
mod header;
mod lines;
mod parsing;
mod placing;
mod refusal;
mod script;
mod soup;
mod words;

pub use client_end::ClientEnd;
pub use parsing::parse_script;
pub use refusal::ScriptErr;
pub use run_model::{CutLine, Event};
pub use script::Script;
pub use soup::Soup;
