// Jobs of the booking service, and runs of them.
ghost use Rattle.std.specs.Prelude.{◌≡◌, ◌≤◌, IfOk, OnOk, length};
ghost use Rattle.std.specs.List.{All};
ghost use Rattle.exec_core.specs.Jobs.{BeginsWell};
ghost use Rattle.rollback.specs.Runs.{AreNumbers};

use crate::texts::bytes_of;
use aeg_base::{ReqId, Seq};
use exec_core::{Exec, Job, Ran, Seg, run_by};
use kv_store::Store;
use std::alloc::Global;
use std::test::Fail;
use svc_api::Service;

/// A client's request with its number.
pub type Ask = (u8, u32, &'static str);

/// Two trips that are linked to a third with one seat.
pub const LINKED: [Ask; 3] = [
    (1, 1, "open 1 5 10 3"),
    (2, 1, "open 2 5 10 3"),
    (3, 1, "open 3 1 10 0"),
];

/// Both want that seat, whose lock they don't declare.
pub const BOOKS: [Ask; 2] = [(1, 2, "book 1 1"), (2, 2, "book 2 1")];

/// A schedule, as segments with the numbers of their turns.
pub type Turns = &'static [(u8, usize)];

/// The first booking runs to its end and gets the seat: it makes 13 steps, and the one that finds it gone 7.
pub const FIRST_WINS: Turns = &[(0, 13), (1, 7)];

pub const SECOND_WINS: Turns = &[(1, 13), (0, 7)];

/// Both bookings find a lock held.
pub const BOTH_HELD: Turns = &[(0, 6), (1, 6)];

/// Two clients open one trip.
pub const SAME_TRIP: [Ask; 2] = [(1, 1, "open 1 5 10 0"), (2, 1, "open 1 5 10 0")];

fn segment<S: Service>(alloc: Global, svc: &S, ask: Ask) -> Result<Seg, Fail>
    ensures { IfOk result (BeginsWell (S.beginning svc.now)) }
{
    let (client, seq, text) = ask;
    if client == 0 || client > 16 || seq == 0 || seq > 65536 {
        return Err("a number out of range".into());
    }
    let who = ReqId { client, seq };
    let body = bytes_of(alloc, text)?;
    if svc.begin(who, &body, 0)?.is_none() {
        return Err("no request".into());
    }
    Ok(Seg {
        who,
        body,
        stage: 0,
        answer: None,
    })
}

pub fn job_of<S: Service>(alloc: Global, svc: &S, asks: &[Ask]) -> Result<Job, Fail>
    requires { length asks.now ≤ 32 }
    ensures begins { IfOk result (λ job. All (BeginsWell (S.beginning svc.now)) job.segs) }
    ensures count { IfOk result (λ job. length job.segs ≡ length asks.now) }
{
    let mut segs = Vec::new(alloc);
    'asks: for &ask in asks {
        segs.push(segment(alloc, svc, ask)?)?;
    }
    Ok(Job {
        round: 1,
        segs: Seq::of(segs),
    })
}

/// A schedule of segments, each so many times.
pub fn schedule(alloc: Global, items: Turns) -> Result<Vec<u8>, Fail> {
    let mut schedule = Vec::new(alloc);
    for &(seg, count) in items {
        schedule.extend_from_slice(&vec![in alloc; seg; count]?)?;
    }
    Ok(schedule)
}

pub fn run_asks<S: Service>(
    alloc: Global,
    svc: &S,
    asks: &[Ask],
    items: Turns,
    store: &mut Store,
) -> Result<Ran, Fail>
    requires few { length asks.now ≤ 32 }
    requires numbers { AreNumbers store.old.map }
    ensures { OnOk result (AreNumbers store.new.map) }
{
    let job = job_of(alloc, svc, asks)?;
    let by = schedule(alloc, items)?;
    let ran = run_by(alloc, svc, &job, &by, store)?;
    Ok(ran)
}

pub fn blank(alloc: Global) -> Store
    ensures { AreNumbers result.map }
{
    Store::new(alloc)
}

/// A store with two trips that are linked to a third with one seat.
pub fn linked<S: Service>(alloc: Global, svc: &S) -> Result<Store, Fail>
    ensures { IfOk result (λ store. AreNumbers store.map) }
{
    let mut store = blank(alloc);
    run_asks(alloc, svc, &LINKED, &[], &mut store)?;
    Ok(store)
}

/// Runs a job on a store that is let go.
pub fn run_on_blank<S: Service, E: Exec<S>>(
    alloc: Global,
    exec: &mut E,
    svc: &S,
    asks: &[Ask],
) -> Result<Ran, Fail>
    requires { length asks.now ≤ 32 }
{
    let job = job_of(alloc, svc, asks)?;
    let ran = exec.run(svc, &job, &mut blank(alloc))?;
    Ok(ran)
}

pub fn are_same(a: &Store, b: &Store) -> Result<bool, Fail> {
    Ok(a.pairs()? == b.pairs()?)
}

/// Whether the run took these steps, in this order, with so many runs again.
pub fn is_run(ran: &Ran, steps: &[u8], order: &[u8], redo: u8) -> bool {
    ran.steps.items() == steps && ran.order.items() == order && ran.redo == redo
}
