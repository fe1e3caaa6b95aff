//! The unreplicated server: one step of a history at a time.
#![tactic(auto)]

mod answering;
mod book;
mod clients;
mod draft;
mod making;
mod numbering;
mod places;
mod refusal;
mod server;
mod stage;
mod write;

pub use refusal::StepErr;
pub use server::OneServer;
pub use server_model::{Hist, Told};
