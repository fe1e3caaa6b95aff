//! The unreplicated service as definitions: requests and their tables, the backends, the one server and its histories.
#![tactic(auto)]

mod history;
mod laws;
mod lines;
mod progress;
mod request;
mod words;

pub use history::{Hist, Numbered, Told};
pub use laws::requests_fit;
pub use lines::next_line;
pub use progress::Progress;
pub use request::Request;
pub use words::{first_part, next_part, number};
