// Going on with a cancellation.
ghost use Rattle.booking.specs.Course.{IsTurn, recall_plan, recall_budget};
ghost use Rattle.booking.specs.Places.{recall_return};
ghost use Rattle.std.specs.Prelude.{◌≡◌, IfOk};

use crate::clear::release_turn;
use crate::course::{AfterReturn, Closing, Course, Recall, RecallPlace, Return, ReturnPlace};
use crate::keys::narrow;
use crate::turn::{Turn, reads};
use aeg_base::Memory;
use std::alloc::Global;

pub fn recall_turn(alloc: Global, c: Recall, place: RecallPlace, told: u64) -> Result<Turn, Memory>
    ensures { IfOk result (IsTurn (recall_plan c place told) (recall_budget place)) }
{
    match place {
        RecallPlace::Begins => Ok(reads(6, c.booking, Course::Recalls(c, RecallPlace::HasTrip))),
        RecallPlace::HasTrip => {
            let left = RecallPlace::HasQty { trip: told };
            Ok(reads(7, c.booking, Course::Recalls(c, left)))
        }
        RecallPlace::HasQty { trip } => {
            if !c.released {
                return release_turn(alloc, narrow(trip), u64::from(narrow(told)), 2);
            }
            let left = RecallPlace::HasLink { trip, qty: told };
            Ok(reads(2, narrow(trip), Course::Recalls(c, left)))
        }
        RecallPlace::HasLink { trip, qty } => {
            let link = told;
            let left = RecallPlace::HasCount { trip, qty, link };
            Ok(reads(3, narrow(trip), Course::Recalls(c, left)))
        }
        RecallPlace::HasCount { trip, qty, link } => {
            let left = ReturnPlace::HasLive { count: told, link };
            let seats = return_of(c, trip, qty);
            Ok(reads(4, u32::from(c.client), Course::Returns(seats, left)))
        }
    }
}

fn return_of(c: Recall, trip: u64, qty: u64) -> Return
    ensures { result ≡ recall_return c trip qty }
{
    Return {
        client: c.client,
        trip: narrow(trip),
        qty,
        after: AfterReturn::Clear {
            booking: c.booking,
            closing: Closing::Cancelled,
        },
    }
}
