//! Sources of bytes and sinks for bytes that count their faults.
#![tactic(auto)]

mod ends;
mod mem;
mod real;
mod sure;
mod whole;

pub use ends::{Failed, Sink, Source};
pub use mem::{MemSink, MemSource};
pub use real::{StdSink, StdSource};
pub use sure::{SureSink, SureSource};
pub use whole::{ReadErr, put_all, read_all};
