//! What a backend replica keeps between its middle nodes and its log: copies of calls, answers, and floors.
#![tactic(auto)]

mod calls;
mod copies;
mod floors;
mod kept;
mod laws;
mod shim;

pub use kept::Kept;
pub use laws::shims_in_range;
pub use shim::Shim;
