//! The answers that a replica holds, and which of them others are known to hold too.
#![tactic(auto)]

mod answers;
mod held;
mod replica;

pub use held::Held;
