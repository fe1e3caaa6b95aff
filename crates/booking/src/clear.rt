// Clearing a booking, and releasing its seats.
ghost use Rattle.std.specs.Prelude.{◌≡◌, IfOk};
ghost use Rattle.booking.specs.Course.{IsTurn, clear_plan, clear_budget};
ghost use Rattle.booking.specs.declared.course.Course.TheVariants.{Clears};
ghost use Rattle.booking.specs.Places.{closing_text as closing_text_of, releases};

use crate::course::{ClearPlace, Closing, Course};
use crate::text::{cancelled, fixed, release};
use crate::turn::{Turn, calls, replies, writes};
use aeg_base::{Bytes, Memory, Tier};
use std::alloc::Global;

// A booking's keys are cleared from this place on.
fn clears(booking: u32, closing: Closing, place: ClearPlace) -> Course
    ensures { result ≡ Clears booking closing place }
{
    Course::Clears {
        booking,
        closing,
        place,
    }
}

pub fn clear_turn(
    alloc: Global,
    booking: u32,
    closing: Closing,
    place: ClearPlace,
) -> Result<Turn, Memory>
    ensures { IfOk result (IsTurn (clear_plan booking closing place) (clear_budget place)) }
{
    match place {
        ClearPlace::Status => Ok(writes(5, booking, 0, clears(booking, closing, ClearPlace::Trip))),
        ClearPlace::Trip => Ok(writes(6, booking, 0, clears(booking, closing, ClearPlace::Qty))),
        ClearPlace::Qty => Ok(writes(7, booking, 0, clears(booking, closing, ClearPlace::Closes))),
        ClearPlace::Closes => {
            let text = closing_text(alloc, booking, closing)?;
            Ok(replies(text, clears(booking, closing, place)))
        }
    }
}

fn closing_text(alloc: Global, booking: u32, closing: Closing) -> Result<Bytes, Memory>
    ensures { IfOk result (λ text. text ≡ closing_text_of booking closing) }
{
    match closing {
        Closing::NoStock => fixed(alloc, "refused 7 NoStock"),
        Closing::Declined => fixed(alloc, "refused 8 Declined"),
        Closing::Cancelled => cancelled(alloc, booking),
    }
}

pub fn release_turn(alloc: Global, trip: u32, qty: u64, stage: u8) -> Result<Turn, Memory>
    ensures { IfOk result (IsTurn (releases trip qty stage) 0) }
{
    let text = release(alloc, trip, qty)?;
    Ok(calls(Tier::Inv, text, Course::Releases { trip, qty, stage }))
}
