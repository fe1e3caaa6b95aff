//! Names, lists, key locks and limits that every crate of the tier speaks of.
#![tactic(auto)]

mod bytes;
mod cells;
pub mod limits;
mod locks;
mod memory;
mod names;
mod seq;
mod value;

pub use bytes::Bytes;
pub use cells::Cells;
pub use locks::{LockSet, lock_of};
pub use memory::Memory;
pub use names::{Ballot, CallNo, End, Key, NodeId, Pos, ReqId, Round, Tier};
pub use seq::Seq;
pub use value::Value;
