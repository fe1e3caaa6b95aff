//! The acceptor and the learner of one log.
#![tactic(auto)]

mod acceptor;
mod answers;
mod learner;
mod members;
mod seen;
mod vote;

pub use acceptor::Acceptor;
pub use answers::{Acceptance, Prepared};
pub use learner::Learner;
pub use log_model::{Fact, PaxMsg};
pub use members::Members;
pub use seen::Seen;
pub use vote::Vote;
