// Threads that meet, segments that one thread runs one after another, and a group that threads run again.
ghost use Rattle.std.specs.Prelude.{◌≤◌, length};

use crate::booking_jobs::{Ask, BOOKS, SAME_TRIP, blank, is_run, job_of, linked, run_on_blank};
use crate::in_turn::run_in_turn;
use booking::Booking;
use exec_core::{CrossGate, Gate, OpenGate, Ran};
use exec_locked::LockedExec;
use kv_store::Store;
use std::alloc::Global;
use std::sync::Wait;
use std::sync::atomic::AtomicU64;
use std::sync::atomic::Ordering::SeqCst;
use std::test::Fail;
use std::thread;
use std::thread::Threads;
use svc_api::Service;

/// Their locks are disjoint, so both stand in one group.
const TWO: [Ask; 2] = [(1, 1, "open 1 5 10 0"), (2, 1, "open 2 5 10 0")];

/// The first booking reads all that it reads, and then the second does until it finds a lock held.
const CROSSED: [u8; 11] = [0, 0, 0, 0, 0, 0, 1, 1, 1, 1, 1];

/// The runs again, and the number of steps.
fn counts(ran: &Ran) -> (u8, usize) {
    (ran.redo, ran.steps.items().len())
}

#[test]
fn threads_meet(rt: HostRuntime) -> Result<(), Fail> {
    let svc = Booking::new(rt.alloc());
    let mut exec = LockedExec::new(rt.alloc(), rt, CrossGate::new(500_000_000));
    let counts = counts(&run_on_blank(rt.alloc(), &mut exec, &svc, &TWO)?);
    assert!(rt; counts == (0, 10));
    assert!(rt; exec.gate().met());
    Ok(())
}

fn is_in_order(ran: &Ran) -> bool {
    ran.order.items() == [0, 1].as_slice()
}

/// Whether one thread that runs the segments one after another ends them in their order.
fn turned_in_order<S: Service, G: Gate>(
    alloc: Global,
    gate: &G,
    svc: &S,
    asks: &[Ask],
) -> Result<bool, Fail>
    requires { length asks.now ≤ 32 }
{
    let job = job_of(alloc, svc, asks)?;
    let ran = run_in_turn(gate, alloc, svc, &job, &mut blank(alloc))?;
    Ok(is_in_order(&ran))
}

#[test]
fn one_after_another_never_meets(rt: HostRuntime) -> Result<(), Fail> {
    let svc = Booking::new(rt.alloc());
    let gate = CrossGate::new(1_000);
    assert!(rt; turned_in_order(rt.alloc(), &gate, &svc, &TWO)?);
    assert!(rt; !gate.met());
    Ok(())
}

/// Whether the first client's segment made its steps before the other's.
fn is_one_after_another(ran: &Ran) -> bool {
    is_in_order(ran) && ran.steps.items() == [0, 0, 0, 0, 0, 1, 1].as_slice()
}

#[test]
fn groups_run_one_after_another(rt: HostRuntime) -> Result<(), Fail> {
    let svc = Booking::new(rt.alloc());
    let mut exec = LockedExec::new(rt.alloc(), rt, OpenGate);
    let ran = run_on_blank(rt.alloc(), &mut exec, &svc, &SAME_TRIP)?;
    assert!(rt; is_one_after_another(&ran));
    Ok(())
}

/// Lets the segments step in this order, and freely afterwards. A step waits for at most a million turns.
#[derive(Drop)]
struct OrderGate {
    order: [u8; 11],
    made: AtomicU64,
}

impl OrderGate {
    fn is_due(&self, seg: u8) -> bool {
        let made = self.made.load(SeqCst);
        if made < 11 {
            return self.order[made as usize] == seg;
        }
        true
    }
}

impl Gate for OrderGate {
    fn before(&self, seg: u8, _step: u16) {
        for _ in 0..1_000_000 {
            if self.is_due(seg) {
                return;
            }
            thread::yield_now();
        }
    }

    fn after(&self, _seg: u8, _step: u16) {
        self.made.fetch_add(1, SeqCst);
    }
}

/// Runs both bookings on threads that this gate holds.
fn held_run<S: Service + Sync, R: Threads + Wait + Drop>(
    alloc: Global,
    exec: &mut LockedExec<R, OrderGate>,
    svc: &S,
    store: &mut Store,
) -> Result<Ran, Fail>
where
    S::Prog: Send,
{
    let job = job_of(alloc, svc, &BOOKS)?;
    let ran = exec.run_on(svc, &job, store)?;
    Ok(ran)
}

/// Runs them on a store where both want one seat; whether each step of the gate's order was made, and one was run again.
fn is_held<S: Service + Sync, R: Threads + Wait + Drop>(
    alloc: Global,
    exec: &mut LockedExec<R, OrderGate>,
    svc: &S,
) -> Result<bool, Fail>
where
    S::Prog: Send,
{
    let mut store = linked(alloc, svc)?;
    let ran = held_run(alloc, exec, svc, &mut store)?;
    Ok(is_run(&ran, &CROSSED, &[0, 1], 1))
}

#[test]
fn a_held_lock_runs_the_group_again(rt: HostRuntime) -> Result<(), Fail> {
    let svc = Booking::new(rt.alloc());
    let gate = OrderGate {
        order: CROSSED,
        made: AtomicU64::new(0),
    };
    let mut exec = LockedExec::new(rt.alloc(), rt, gate);
    assert!(rt; is_held(rt.alloc(), &mut exec, &svc)?);
    Ok(())
}
