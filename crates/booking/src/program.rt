// The program of a request's segment.
ghost use Rattle.std.specs.Prelude.{◌≡◌, IfOk};
ghost use Rattle.booking.specs.Course.{IsTurn, course_plan, course_budget, course_stage};

use crate::answer::{answer_turn, booked_turn, charge_turn};
use crate::book::{book_turn, entry_turn};
use crate::clear::{clear_turn, release_turn};
use crate::course::{Course, EntryPlace, ViewPlace};
use crate::opening::open_turn;
use crate::recall::recall_turn;
use crate::returning::return_turn;
use crate::turn::Turn;
use crate::view::view_turn;
use aeg_base::{LockSet, Memory};
use std::alloc::Global;
use svc_api::{Action, Program};

/// A segment of a request in the middle of its actions.
#[derive(Drop)]
pub struct BookProg {
    pub(crate) alloc: Global,
    pub(crate) course: Course,
    pub(crate) lock_set: LockSet,
}

impl Program for BookProg {
    ghost use Rattle.std.specs.Prelude.{unwrap_or};

    ghost plan = { λ p last. course_plan p.course (unwrap_or last 0) };

    ghost budget = { λ p. course_budget p.course };

    ghost locks = { λ p. p.lock_set };

    ghost stage_of = { λ p. course_stage p.course };

    fn next(&mut self, last: Option<u64>) -> Result<Action, Memory> {
        let Turn { action, left } = course_turn(self.alloc, self.course, last.unwrap_or(0))?;
        self.course = left;
        Ok(action)
    }

    fn declared(&self) -> LockSet {
        self.lock_set
    }

    fn stage(&self) -> u8 {
        stage_after(self.course)
    }
}

fn course_turn(alloc: Global, course: Course, told: u64) -> Result<Turn, Memory>
    ensures { IfOk result (λ turn. IsTurn (course_plan course told) (course_budget course) turn) }
{
    match course {
        Course::Opens(trip, place) => open_turn(alloc, trip, place, told),
        Course::Books(booking, place) => book_turn(alloc, booking, place, told),
        Course::Enters(booking, place) => entry_turn(alloc, booking, place),
        Course::Answers(booking, asked) => Ok(answer_turn(booking, asked, told)),
        Course::Charges(booking) => charge_turn(alloc, booking, told),
        Course::Booked { booking } => booked_turn(alloc, booking),
        Course::Returns(seats, place) => Ok(return_turn(seats, place, told)),
        Course::Clears {
            booking,
            closing,
            place,
        } => clear_turn(alloc, booking, closing, place),
        Course::Releases { trip, qty, stage } => release_turn(alloc, trip, qty, stage),
        Course::Views(view, place) => view_turn(alloc, view, place, told),
        Course::Recalls(recall, place) => recall_turn(alloc, recall, place, told),
    }
}

/// The stage at which the request goes on after a call.
fn stage_after(course: Course) -> u8
    ensures { result ≡ course_stage course }
{
    match course {
        Course::Enters(_, EntryPlace::Reserves) => 1,
        Course::Charges(_) => 2,
        Course::Releases { stage, .. } => stage,
        Course::Views(_, ViewPlace::Refunds { .. }) => 1,
        _ => 0,
    }
}
