//! The tokens that nodes told of a round, and the verdict that they give.
#![tactic(auto)]

mod claims;
mod tally;

pub use tally::Tally;
