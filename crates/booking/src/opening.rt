// Opening a trip.
ghost use Rattle.std.specs.Prelude.{IfOk};
ghost use Rattle.booking.specs.Course.{IsTurn, open_plan, open_budget};

use crate::course::{Course, NewTrip, OpenPlace};
use crate::refusal::{open_refusal, refused};
use crate::text::opened;
use crate::turn::{Turn, reads, replies, writes};
use aeg_base::Memory;
use std::alloc::Global;

pub fn open_turn(alloc: Global, trip: NewTrip, place: OpenPlace, told: u64) -> Result<Turn, Memory>
    ensures { IfOk result (IsTurn (open_plan trip place told) (open_budget place)) }
{
    let id = trip.trip;
    match place {
        OpenPlace::Begins => Ok(reads(0, id, Course::Opens(trip, OpenPlace::HasCap))),
        OpenPlace::HasCap => open_with(alloc, trip, told),
        OpenPlace::PutsPrice => {
            let price = u64::from(trip.price);
            Ok(writes(1, id, price, Course::Opens(trip, OpenPlace::PutsLink)))
        }
        OpenPlace::PutsLink => {
            let link = u64::from(trip.link);
            Ok(writes(2, id, link, Course::Opens(trip, OpenPlace::Opened)))
        }
        OpenPlace::Opened => Ok(replies(opened(alloc, id)?, Course::Opens(trip, place))),
    }
}

fn open_with(alloc: Global, trip: NewTrip, cap: u64) -> Result<Turn, Memory>
    ensures { IfOk result (IsTurn (open_plan trip OpenPlace.HasCap cap) 3) }
{
    if let Some(row) = open_refusal(trip.trip, trip.link, cap) {
        let left = Course::Opens(trip, OpenPlace::Opened);
        return Ok(replies(refused(alloc, row)?, left));
    }
    let left = Course::Opens(trip, OpenPlace::PutsPrice);
    Ok(writes(0, trip.trip, u64::from(trip.cap), left))
}
