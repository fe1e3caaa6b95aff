// Booking seats of a trip.
ghost use Rattle.std.specs.Prelude.{◌≡◌, IfOk};
ghost use Rattle.booking.specs.Course.{IsTurn, book_plan, book_budget, entry_plan, entry_budget, course_plan, course_budget};
ghost use Rattle.booking.specs.Places.{books_with, after_count, has_state};

use crate::course::{BookPlace, Course, EntryPlace, NewBooking, TripState};
use crate::keys::narrow;
use crate::refusal::{book_refusal, refused};
use crate::text::reserve;
use crate::turn::{Turn, calls, reads, replies, writes};
use aeg_base::{Memory, Tier};
use std::alloc::Global;

pub fn book_turn(alloc: Global, b: NewBooking, place: BookPlace, told: u64) -> Result<Turn, Memory>
    ensures { IfOk result (IsTurn (book_plan b place told) (book_budget place)) }
{
    match place {
        BookPlace::Begins => Ok(reads(0, b.trip, Course::Books(b, BookPlace::HasCap))),
        BookPlace::HasCap => {
            let left = BookPlace::HasCount { cap: told };
            Ok(reads(3, b.trip, Course::Books(b, left)))
        }
        BookPlace::HasCount { cap } => {
            let left = BookPlace::HasLink { cap, count: told };
            Ok(reads(2, b.trip, Course::Books(b, left)))
        }
        BookPlace::HasLink { cap, count } => {
            let left = BookPlace::HasLive {
                cap,
                count,
                link: told,
            };
            Ok(reads(4, u32::from(b.client), Course::Books(b, left)))
        }
        BookPlace::HasLive { cap, count, link } => {
            let state = TripState {
                cap,
                count,
                link,
                live: told,
            };
            book_state(alloc, b, state)
        }
        BookPlace::HasLinkCap(state) => {
            let left = BookPlace::HasLinkCount {
                state,
                link_cap: told,
            };
            Ok(reads(3, narrow(state.link), Course::Books(b, left)))
        }
        BookPlace::HasLinkCount { state, link_cap } => book_with(alloc, b, state, link_cap, told),
    }
}

fn book_state(alloc: Global, b: NewBooking, state: TripState) -> Result<Turn, Memory>
    ensures { IfOk result (IsTurn (has_state b state) 8) }
{
    if state.link == 0 {
        return book_with(alloc, b, state, 0, 0);
    }
    let left = Course::Books(b, BookPlace::HasLinkCap(state));
    Ok(reads(0, narrow(state.link), left))
}

/// All is read: the first rule refuses, or the first write is made.
fn book_with(
    alloc: Global,
    b: NewBooking,
    state: TripState,
    link_cap: u64,
    link_count: u64,
) -> Result<Turn, Memory>
    ensures { IfOk result (IsTurn (books_with b state link_cap link_count) 6) }
{
    if let Some(row) = book_refusal(b.qty, &state, link_cap, link_count) {
        let left = Course::Enters(b, EntryPlace::Reserves);
        return Ok(replies(refused(alloc, row)?, left));
    }
    let count = state.count.saturating_add(u64::from(b.qty));
    if state.link == 0 {
        let left = EntryPlace::PutsLive { live: state.live };
        return Ok(writes(3, b.trip, count, Course::Enters(b, left)));
    }
    let left = EntryPlace::PutsLinkCount { state, link_count };
    Ok(writes(3, b.trip, count, Course::Enters(b, left)))
}

pub fn entry_turn(alloc: Global, b: NewBooking, place: EntryPlace) -> Result<Turn, Memory>
    ensures { IfOk result (IsTurn (entry_plan b place) (entry_budget place)) }
{
    let booking = b.booking;
    match place {
        EntryPlace::PutsLinkCount { state, link_count } => {
            let count = link_count.saturating_add(u64::from(b.qty));
            let left = EntryPlace::PutsLive { live: state.live };
            Ok(writes(3, narrow(state.link), count, Course::Enters(b, left)))
        }
        EntryPlace::PutsLive { live } => {
            let live = live.saturating_add(1);
            let left = Course::Enters(b, EntryPlace::PutsStatus);
            Ok(writes(4, u32::from(b.client), live, left))
        }
        EntryPlace::PutsStatus => {
            Ok(writes(5, booking, 1, Course::Enters(b, EntryPlace::PutsTrip)))
        }
        EntryPlace::PutsTrip => {
            let left = Course::Enters(b, EntryPlace::PutsQty);
            Ok(writes(6, booking, u64::from(b.trip), left))
        }
        EntryPlace::PutsQty => {
            let left = Course::Enters(b, EntryPlace::Reserves);
            Ok(writes(7, booking, u64::from(b.qty), left))
        }
        EntryPlace::Reserves => {
            let text = reserve(alloc, b.trip, b.qty)?;
            Ok(calls(Tier::Inv, text, Course::Enters(b, place)))
        }
    }
}
