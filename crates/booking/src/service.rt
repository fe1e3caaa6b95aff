// The booking service.
ghost use Rattle.std.specs.Prelude.{◌≡◌, ◌<◌};
ghost use Rattle.aeg_base.specs.Locks.{with_lock, lock_number};
ghost use Rattle.server_model.specs.Booking.{cell, booking_of, booking_table, declared_locks};
ghost use Rattle.svc_api.specs.Requests.{IsRequest};
ghost use Rattle.booking.specs.Beginning.{first_course as course_of, new_booking, with_booking, cancel_course as cancel_course_of, view_course as view_course_of, recall_course as recall_course_of, with_trip, with_own};

use crate::course::{
    Asked, BookPlace, ClearPlace, Closing, Course, NewBooking, NewTrip, OpenPlace, Recall,
    RecallPlace, View, ViewPlace,
};
use crate::keys::locking;
use crate::program::BookProg;
use crate::request::read_request;
use aeg_base::{Bytes, LockSet, Memory, ReqId};
use server_model::Request;
use std::alloc::Global;
use svc_api::Service;

/// Trips that are opened, and bookings of their seats.
#[derive(Clone, Copy)]
pub struct Booking {
    alloc: Global,
}

impl Booking {
    pub fn new(alloc: Global) -> Self {
        Booking { alloc }
    }
}

impl Service for Booking {
    ghost use Rattle.booking.specs.Beginning.{booking_beginning};
    ghost use Rattle.booking.specs.Folds.{booking_folds};
    ghost use Rattle.booking.specs.Proper.{booking_proper};
    ghost use Rattle.booking.specs.Again.{booking_again};

    type Prog = BookProg;

    ghost beginning = { λ _ who body stage. booking_beginning who body stage };

    ghost table = { λ _ who body stage. booking_table who body stage };

    fn begin(&self, who: ReqId, body: &Bytes, stage: u8) -> Result<Option<BookProg>, Memory> {
        let Ok(request) = read_request(body.items()) else {
            return Ok(None);
        };
        let Some(course) = first_course(who, request, stage) else {
            return Ok(None);
        };
        Ok(Some(BookProg {
            alloc: self.alloc,
            course,
            lock_set: lock_set(who, request),
        }))
    }

    ghost folds = { λ _ who body stage. booking_folds who body stage };

    ghost proper = { λ _ who body stage is_request. booking_proper who body stage is_request };

    ghost again = { λ _ who body stage. booking_again who body stage };
}

/// The booking number of a request.
fn booking_number(who: ReqId) -> u32
    requires { IsRequest who }
    ensures { result ≡ booking_of who }
{
    (who.seq - 1) * 16 + u32::from(who.client)
}

/// Where the segment of a request begins at a stage, if it has one.
fn first_course(who: ReqId, request: Request, stage: u8) -> Option<Course>
    requires { IsRequest who }
    ensures { result ≡ course_of who request stage }
{
    match request {
        Request::Open {
            trip,
            cap,
            price,
            link,
        } => {
            if stage != 0 {
                return None;
            }
            let trip = NewTrip {
                trip,
                cap,
                price,
                link,
            };
            Some(Course::Opens(trip, OpenPlace::Begins))
        }
        Request::Book { trip, qty } => book_course(who, trip, qty, stage),
        Request::Cancel { booking } => cancel_course(who.client, booking, stage),
        Request::Look { booking } => {
            if stage != 0 {
                return None;
            }
            Some(view_course(who.client, booking, false))
        }
    }
}

fn book_course(who: ReqId, trip: u32, qty: u32, stage: u8) -> Option<Course>
    requires { IsRequest who }
    ensures { result ≡ with_booking (new_booking who trip qty) stage }
{
    let booking = booking_number(who);
    let client = who.client;
    let asked = NewBooking {
        client,
        booking,
        trip,
        qty,
    };
    match stage {
        0 => Some(Course::Books(asked, BookPlace::Begins)),
        1 => Some(Course::Answers(asked, Asked::Reserve)),
        2 => Some(Course::Answers(asked, Asked::Charge)),
        3 => Some(Course::Clears {
            booking,
            closing: Closing::Declined,
            place: ClearPlace::Status,
        }),
        _ => None,
    }
}

fn cancel_course(client: u8, booking: u32, stage: u8) -> Option<Course>
    ensures { result ≡ cancel_course_of client booking stage }
{
    match stage {
        0 => Some(view_course(client, booking, true)),
        1 => Some(recall_course(client, booking, false)),
        2 => Some(recall_course(client, booking, true)),
        _ => None,
    }
}

fn view_course(client: u8, booking: u32, cancels: bool) -> Course
    ensures { result ≡ view_course_of client booking cancels }
{
    let view = View {
        client,
        booking,
        cancels,
    };
    Course::Views(view, ViewPlace::Begins)
}

fn recall_course(client: u8, booking: u32, released: bool) -> Course
    ensures { result ≡ recall_course_of client booking released }
{
    let recall = Recall {
        client,
        booking,
        released,
    };
    Course::Recalls(recall, RecallPlace::Begins)
}

/// The locks that a request declares.
fn lock_set(who: ReqId, request: Request) -> LockSet
    requires { IsRequest who }
    ensures { result ≡ declared_locks who request }
{
    let none = LockSet::new();
    match request {
        Request::Open { trip, .. } => trip_locks(none, trip),
        Request::Book { trip, .. } => {
            let own = booking_locks(none, booking_number(who));
            let client = locking(own, 4, u32::from(who.client));
            trip_locks(locking(client, 3, trip), trip)
        }
        Request::Cancel { booking } => {
            locking(booking_locks(none, booking), 4, u32::from(who.client))
        }
        Request::Look { booking } => booking_locks(none, booking),
    }
}

/// With the locks of a trip's cap, price and link.
fn trip_locks(locks: LockSet, trip: u32) -> LockSet
    ensures { result ≡ with_trip locks trip }
{
    locking(locking(locking(locks, 2, trip), 1, trip), 0, trip)
}

/// With the locks of a booking's status, trip and quantity.
fn booking_locks(locks: LockSet, booking: u32) -> LockSet
    ensures { result ≡ with_own locks booking }
{
    locking(locking(locking(locks, 7, booking), 6, booking), 5, booking)
}
