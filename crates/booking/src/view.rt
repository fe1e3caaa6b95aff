// Looking at a booking, and cancelling it.
ghost use Rattle.std.specs.Prelude.{IfOk};
ghost use Rattle.booking.specs.Course.{IsTurn, view_plan, view_budget};
ghost use Rattle.booking.specs.Places.{viewed};
ghost use Rattle.std.specs.Prelude.{true, false};

use crate::course::{Course, View, ViewPlace};
use crate::keys::narrow;
use crate::refusal::{cancel_refusal, look_refusal, refused};
use crate::text::{refund, status as status_text};
use crate::turn::{Turn, calls, reads, replies, writes};
use aeg_base::{Memory, Tier};
use std::alloc::Global;

pub fn view_turn(alloc: Global, v: View, place: ViewPlace, told: u64) -> Result<Turn, Memory>
    ensures { IfOk result (IsTurn (view_plan v place told) (view_budget place)) }
{
    match place {
        ViewPlace::Begins => Ok(reads(5, v.booking, Course::Views(v, ViewPlace::HasStatus))),
        ViewPlace::HasStatus => {
            let left = ViewPlace::HasTrip { status: told };
            Ok(reads(6, v.booking, Course::Views(v, left)))
        }
        ViewPlace::HasTrip { status } => {
            let left = ViewPlace::HasQty { status, trip: told };
            Ok(reads(7, v.booking, Course::Views(v, left)))
        }
        ViewPlace::HasQty { status, trip } => {
            if v.cancels {
                return cancel_with(alloc, v, status, trip, told);
            }
            look_with(alloc, v, status, trip, told)
        }
        ViewPlace::HasPrice { qty } => {
            let amount = told.saturating_mul(qty);
            let left = Course::Views(v, ViewPlace::Refunds { amount });
            Ok(writes(5, v.booking, 3, left))
        }
        ViewPlace::Refunds { amount } => {
            let text = refund(alloc, v.client, amount)?;
            Ok(calls(Tier::Pay, text, Course::Views(v, place)))
        }
    }
}

fn look_with(alloc: Global, v: View, status: u64, trip: u64, qty: u64) -> Result<Turn, Memory>
    ensures { IfOk result (IsTurn (viewed false v status trip qty) 2) }
{
    let left = Course::Views(v, ViewPlace::Begins);
    if let Some(row) = look_refusal(v.client, v.booking, status) {
        return Ok(replies(refused(alloc, row)?, left));
    }
    Ok(replies(status_text(alloc, v.booking, status, trip, qty)?, left))
}

fn cancel_with(alloc: Global, v: View, status: u64, trip: u64, qty: u64) -> Result<Turn, Memory>
    ensures { IfOk result (IsTurn (viewed true v status trip qty) 2) }
{
    if let Some(row) = cancel_refusal(v.client, v.booking, status) {
        let left = Course::Views(v, ViewPlace::Begins);
        return Ok(replies(refused(alloc, row)?, left));
    }
    let left = Course::Views(v, ViewPlace::HasPrice { qty });
    Ok(reads(1, narrow(trip), left))
}
