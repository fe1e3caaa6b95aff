//! Fields of bytes: a cursor that reads them, and writers.
#![tactic(auto)]

mod cursor;
mod laws;
mod put;

pub use cursor::Cursor;
pub use laws::{no_field_begins_another, read_again};
pub use put::{put_bytes, put_text, put_u8, put_u16, put_u32, put_u64};
