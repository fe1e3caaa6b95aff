// Jobs of the booking service that run by a schedule, by an executor that has one, and in a given order.
ghost use Rattle.std.specs.Prelude.{◌≤◌, length};
ghost use Rattle.exec_model.specs.Groups.{IsOrder};

use crate::booking_jobs::{
    BOOKS, BOTH_HELD, FIRST_WINS, SAME_TRIP, SECOND_WINS, Turns, are_same, blank, is_run, job_of,
    linked, run_asks, run_on_blank, schedule,
};
use booking::Booking;
use exec_core::{GivenExec, Ran, run_serial};
use kv_store::Store;
use std::alloc::Global;
use std::test::Fail;
use svc_api::{Ending, Outcome, Service};

/// A schedule with the first turns for the second segment.
const SECOND_FIRST: Turns = &[(1, 5), (0, 5)];

/// A schedule, the steps that it comes to, the order in which they end, and the runs again.
type Row = (Turns, Turns, &'static [u8], u8);

const TURNS: [Row; 3] = [
    (FIRST_WINS, FIRST_WINS, &[0, 1], 0),
    (SECOND_WINS, SECOND_WINS, &[1, 0], 0),
    (BOTH_HELD, &[(0, 6), (1, 5)], &[0, 1], 1),
];

/// The second of two segments runs first.
const TURNED: [u8; 2] = [1, 0];

fn text_of(ending: &Ending) -> &[u8] {
    match ending {
        Ending::Reply(text) => text.items(),
        Ending::Call { body, .. } => body.items(),
    }
}

/// Whether the end of the segment with this number has this text.
pub fn tells(outcome: &Outcome, number: usize, text: &str) -> bool {
    match outcome.ends.items().get(number) {
        Some(ending) => text_of(ending) == text.as_bytes(),
        None => false,
    }
}

/// Whether this is the run in which the first client opens the trip.
fn is_opened_once(ran: &Ran) -> bool {
    is_run(ran, &[0, 0, 0, 0, 0, 1, 1], &[0, 1], 0)
        && tells(&ran.outcome, 0, "opened 1")
        && tells(&ran.outcome, 1, "refused 1 AlreadyOpen")
}

#[test]
fn one_trip_is_opened_once(rt: HostRuntime) -> Result<(), Fail> {
    let svc = Booking::new(rt.alloc());
    let mut store = blank(rt.alloc());
    let ran = run_asks(rt.alloc(), &svc, &SAME_TRIP, SECOND_FIRST, &mut store)?;
    assert!(rt; is_opened_once(&ran));
    Ok(())
}

#[test]
fn an_executor_goes_by_its_schedule(rt: HostRuntime) -> Result<(), Fail> {
    let svc = Booking::new(rt.alloc());
    let mut exec = GivenExec::new(rt.alloc(), schedule(rt.alloc(), SECOND_FIRST)?);
    let ran = run_on_blank(rt.alloc(), &mut exec, &svc, &SAME_TRIP)?;
    assert!(rt; is_opened_once(&ran));
    Ok(())
}

/// Both bookings, run by a schedule on a store where they want one seat.
fn booked_by<S: Service>(alloc: Global, svc: &S, by: Turns) -> Result<Ran, Fail> {
    let mut store = linked(alloc, svc)?;
    run_asks(alloc, svc, &BOOKS, by, &mut store)
}

/// Whether both bookings, run by a schedule, take these steps, in this order, with so many runs again.
fn books_so<S: Service>(alloc: Global, svc: &S, row: Row) -> Result<bool, Fail> {
    let (by, steps, order, redo) = row;
    let ran = booked_by(alloc, svc, by)?;
    Ok(is_run(&ran, &schedule(alloc, steps)?, order, redo))
}

#[test]
fn turns_decide_who_gets_the_seat(rt: HostRuntime) -> Result<(), Fail> {
    let svc = Booking::new(rt.alloc());
    for row in TURNS {
        assert!(rt; books_so(rt.alloc(), &svc, row)?);
    }
    Ok(())
}

/// Both bookings, one after another.
fn books_in_order<S: Service>(
    alloc: Global,
    svc: &S,
    order: &[u8],
    store: &mut Store,
) -> Result<Ran, Fail>
    requires { IsOrder 2 order.now }
{
    let job = job_of(alloc, svc, &BOOKS)?;
    let ran = run_serial(alloc, svc, &job, order, store)?;
    Ok(ran)
}

/// Whether this is the run in which the second booking gets the seat.
fn second_wins(alloc: Global, ran: &Ran) -> Result<bool, Fail> {
    let steps = schedule(alloc, SECOND_WINS)?;
    Ok(
        is_run(ran, &steps, &TURNED, 0)
            && tells(&ran.outcome, 0, "refused 5 LinkFull")
            && tells(&ran.outcome, 1, "reserve 2 1"),
    )
}

/// Runs both bookings, the second before the first, which so gets the seat.
fn second_wins_in_order(alloc: Global, svc: &Booking, store: &mut Store) -> Result<bool, Fail> {
    let ran = books_in_order(alloc, svc, &TURNED, store)?;
    second_wins(alloc, &ran)
}

/// Whether this is the store that is left where turns let the second booking get the seat.
fn is_left_by_turns(alloc: Global, svc: &Booking, store: &Store) -> Result<bool, Fail> {
    let mut here = linked(alloc, svc)?;
    run_asks(alloc, svc, &BOOKS, SECOND_WINS, &mut here)?;
    are_same(&here, store)
}

#[test]
fn segments_run_in_the_order_that_is_given(rt: HostRuntime) -> Result<(), Fail> {
    let svc = Booking::new(rt.alloc());
    let mut store = linked(rt.alloc(), &svc)?;
    assert!(rt; second_wins_in_order(rt.alloc(), &svc, &mut store)?);
    assert!(rt; is_left_by_turns(rt.alloc(), &svc, &store)?);
    Ok(())
}
