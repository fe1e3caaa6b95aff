//! What holds after every list of events: the laws of the three tiers, each the contract of a function with an empty body.
#![tactic(auto)]

mod booking_laws;
mod laws;

pub use booking_laws::{
    booking_agreement, booking_applied, booking_causes, booking_durability, booking_headline,
    booking_holders, booking_meets, booking_real_order, programs_meet,
};
pub use laws::{agreement, applied, causes, durability, growth, headline, holders, real_order};
