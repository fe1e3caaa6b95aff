//! The booking service: requests as programs of single actions.
#![tactic(auto)]

mod answer;
mod book;
mod clear;
mod course;
mod keys;
mod opening;
mod program;
mod recall;
mod refusal;
mod request;
mod returning;
mod service;
mod text;
mod turn;
mod view;

pub use program::BookProg;
pub use request::{BadRequest, read_request};
pub use server_model::Request;
pub use service::Booking;
