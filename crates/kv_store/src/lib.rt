//! The store of a service, with room taken beforehand and an undo list.
#![tactic(auto)]

mod column;
mod copies;
mod room;
mod store;
mod undo;

pub use store::Store;
pub use undo::UndoList;
