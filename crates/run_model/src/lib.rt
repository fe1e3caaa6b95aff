//! Runs as definitions: script lines, the world over a list of events, its chosen logs and its history.
#![tactic(auto)]

mod line;
mod trace;

pub use line::{CutLine, Event};
pub use trace::{Fared, Found, TraceEvent};
