// The rules that refuse a request, over what was read.
ghost use Rattle.std.specs.Prelude.{◌≡◌, IfOk};
ghost use Rattle.booking.specs.Refusals as rows;
ghost use Rattle.server_model.specs.Booking.{owner_of};

use crate::course::TripState;
use crate::text::fixed;
use aeg_base::{Bytes, Memory};
use rule_table::{RuleTable, rules};
use std::alloc::Global;

/// The text of a rule.
pub fn refused(alloc: Global, row: u8) -> Result<Bytes, Memory>
    ensures { IfOk result (λ text. text ≡ rows.refusal_text row) }
{
    match row {
        1 => fixed(alloc, "refused 1 AlreadyOpen"),
        2 => fixed(alloc, "refused 2 BadTrip"),
        3 => fixed(alloc, "refused 3 NoTrip"),
        4 => fixed(alloc, "refused 4 Full"),
        5 => fixed(alloc, "refused 5 LinkFull"),
        6 => fixed(alloc, "refused 6 TooMany"),
        7 => fixed(alloc, "refused 7 NoStock"),
        8 => fixed(alloc, "refused 8 Declined"),
        9 => fixed(alloc, "refused 9 NoBooking"),
        10 => fixed(alloc, "refused 10 NotYours"),
        _ => fixed(alloc, "refused 11 NotBooked"),
    }
}

pub fn open_refusal(trip: u32, link: u32, cap: u64) -> Option<u8>
    ensures { result ≡ rows.open_refusal trip link cap }
{
    RuleTable::new([1, 2])?.first(&rules![cap != 0, link == trip])
}

pub fn book_refusal(qty: u32, state: &TripState, link_cap: u64, link_count: u64) -> Option<u8>
    ensures { result ≡ rows.book_refusal qty state.now.cap state.now.count state.now.link state.now.live link_cap link_count }
{
    let qty = u64::from(qty);
    RuleTable::new([3, 4, 5, 6])?.first(&rules![
        state.cap == 0,
        state.cap < state.count.saturating_add(qty),
        state.link != 0 && link_cap < link_count.saturating_add(qty),
        4 <= state.live,
    ])
}

pub fn look_refusal(client: u8, booking: u32, status: u64) -> Option<u8>
    ensures { result ≡ rows.look_refusal client booking status }
{
    RuleTable::new([9, 10])?.first(&rules![status == 0, owner(booking) != u32::from(client)])
}

pub fn cancel_refusal(client: u8, booking: u32, status: u64) -> Option<u8>
    ensures { result ≡ rows.cancel_refusal client booking status }
{
    RuleTable::new([9, 10, 11])?.first(&rules![
        status == 0,
        owner(booking) != u32::from(client),
        status != 2,
    ])
}

fn owner(booking: u32) -> u32
    ensures { result ≡ owner_of booking }
{
    booking.saturating_sub(1) % 16 + 1
}
