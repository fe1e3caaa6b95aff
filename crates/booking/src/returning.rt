// Giving seats back.
ghost use Rattle.std.specs.Prelude.{◌≡◌, ◌<◌};
ghost use Rattle.booking.specs.Course.{IsTurn, return_plan, return_budget, course_plan, course_budget};
ghost use Rattle.booking.specs.Places.{is_returned, return_has_live, returns_with};

use crate::course::{AfterReturn, ClearPlace, Course, Return, ReturnPlace};
use crate::keys::narrow;
use crate::turn::{Turn, reads, writes};

pub fn return_turn(r: Return, place: ReturnPlace, told: u64) -> Turn
    ensures { IsTurn (return_plan r place told) (return_budget place) result }
{
    match place {
        ReturnPlace::HasCount => {
            let left = ReturnPlace::HasLink { count: told };
            reads(2, r.trip, Course::Returns(r, left))
        }
        ReturnPlace::HasLink { count } => {
            let left = ReturnPlace::HasLive { count, link: told };
            reads(4, u32::from(r.client), Course::Returns(r, left))
        }
        ReturnPlace::HasLive { count, link } => {
            if link == 0 {
                return return_count(r, count, link, told, 0);
            }
            let live = told;
            let left = ReturnPlace::HasLinkCount { count, link, live };
            reads(3, narrow(link), Course::Returns(r, left))
        }
        ReturnPlace::HasLinkCount { count, link, live } => return_count(r, count, link, live, told),
        ReturnPlace::PutsLinkCount {
            link,
            link_count,
            live,
        } => {
            let count = link_count.saturating_sub(r.qty);
            let left = ReturnPlace::PutsLive { live };
            writes(3, narrow(link), count, Course::Returns(r, left))
        }
        ReturnPlace::PutsLive { live } => {
            writes(
                4,
                u32::from(r.client),
                live.saturating_sub(1),
                after_return(r),
            )
        }
    }
}

/// All is read: the first write is made.
fn return_count(r: Return, count: u64, link: u64, live: u64, link_count: u64) -> Turn
    ensures { IsTurn (returns_with r count link live link_count) 6 result }
{
    let count = count.saturating_sub(r.qty);
    if link == 0 {
        let left = Course::Returns(r, ReturnPlace::PutsLive { live });
        return writes(3, r.trip, count, left);
    }
    let left = ReturnPlace::PutsLinkCount {
        link,
        link_count,
        live,
    };
    writes(3, r.trip, count, Course::Returns(r, left))
}

fn after_return(r: Return) -> Course
    ensures plan { course_plan result 0 ≡ is_returned r r.after }
    ensures budget { course_budget result < 4 }
{
    match r.after {
        AfterReturn::Release => Course::Releases {
            trip: r.trip,
            qty: r.qty,
            stage: 3,
        },
        AfterReturn::Clear { booking, closing } => {
            let place = ClearPlace::Status;
            Course::Clears {
                booking,
                closing,
                place,
            }
        }
    }
}
