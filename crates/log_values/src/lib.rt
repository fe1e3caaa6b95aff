//! What logs agree on, what nodes keep of it on their disks, and the one grammar of both.
#![tactic(auto)]

mod any_value;
mod back_value;
mod end_text;
mod entry;
mod fact;
mod fields;
mod finish;
pub mod format;
mod laws;
mod mid_value;
mod misread;
mod order;
mod pair_text;
mod record;
mod token;

pub use any_value::{AnyValue, take_value};
pub use back_value::BackValue;
pub use entry::Entry;
pub use fact::Fact;
pub use fields::{
    put_ballot, take_backend, take_ballot, take_client, take_floor, take_number, take_position,
    take_seq, take_stage, take_text, tier_byte,
};
pub use finish::ended;
pub use laws::{no_spelling_begins_another, tokens_tell_outcomes_apart};
pub use mid_value::{MidValue, Verdict};
pub use misread::Misread;
pub use order::{is_permutation, put_commit, take_commit};
pub use record::Record;
pub use token::{Token, encode_outcome, read_outcome};
