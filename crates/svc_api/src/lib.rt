//! Services as programs: single actions over a store, and the segments that they make.
#![tactic(auto)]

mod action;
mod backend;
mod frame;
mod outcome;
mod program;
mod segment;
mod service;

pub use action::{Action, Ending};
pub use backend::Backend;
pub use frame::frame_law;
pub use outcome::Outcome;
pub use program::Program;
pub use segment::run_segment;
pub use service::Service;
