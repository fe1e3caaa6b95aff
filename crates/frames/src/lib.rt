//! What nodes and clients say to each other: frames, their grammar and refusals.
#![tactic(auto)]

mod header;
mod laws;
mod log_body;
mod message;
mod other_body;
mod outbox;
mod reading;
mod writing;

pub use header::{FrameErr, Header, Refused, decode_header};
pub use laws::no_frame_begins_another;
pub use log_body::carries;
pub use message::Msg;
pub use outbox::Outbox;
pub use reading::decode;
pub use writing::{encode, encode_log};
