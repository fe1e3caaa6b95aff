// Going on with a booking once its call is answered.
ghost use Rattle.std.specs.Prelude.{◌≡◌, IfOk};
ghost use Rattle.booking.specs.Course.{IsTurn, answer_plan};
ghost use Rattle.booking.specs.Places.{charges_with, reply_booked, return_of as return_for};

use crate::course::{AfterReturn, Asked, Closing, Course, NewBooking, Return, ReturnPlace};
use crate::text::{booked, charge};
use crate::turn::{Turn, calls, reads, replies, writes};
use aeg_base::{Memory, Tier};
use std::alloc::Global;

pub fn answer_turn(b: NewBooking, asked: Asked, code: u64) -> Turn
    ensures { IsTurn (answer_plan b asked code) 10 result }
{
    match asked {
        Asked::Reserve if code == 0 => reads(1, b.trip, Course::Charges(b)),
        Asked::Reserve => {
            let closing = Closing::NoStock;
            let after = AfterReturn::Clear {
                booking: b.booking,
                closing,
            };
            reads(
                3,
                b.trip,
                Course::Returns(return_of(b, after), ReturnPlace::HasCount),
            )
        }
        Asked::Charge if code == 0 => {
            let booking = b.booking;
            writes(5, booking, 2, Course::Booked { booking })
        }
        Asked::Charge => {
            let seats = return_of(b, AfterReturn::Release);
            reads(3, b.trip, Course::Returns(seats, ReturnPlace::HasCount))
        }
    }
}

fn return_of(b: NewBooking, after: AfterReturn) -> Return
    ensures { result ≡ return_for b after }
{
    Return {
        client: b.client,
        trip: b.trip,
        qty: u64::from(b.qty),
        after,
    }
}

pub fn charge_turn(alloc: Global, b: NewBooking, price: u64) -> Result<Turn, Memory>
    ensures { IfOk result (IsTurn (charges_with b price) 0) }
{
    let amount = price.saturating_mul(u64::from(b.qty));
    let text = charge(alloc, b.client, amount)?;
    Ok(calls(Tier::Pay, text, Course::Charges(b)))
}

pub fn booked_turn(alloc: Global, booking: u32) -> Result<Turn, Memory>
    ensures { IfOk result (IsTurn (reply_booked booking) 0) }
{
    Ok(replies(booked(alloc, booking)?, Course::Booked { booking }))
}
