// A job by a schedule, and one segment after another.
ghost use Rattle.std.specs.Prelude.{◌≡◌, ◌≤◌, ◌<◌, ℕ, IfOk, OnErr, length, [], ◌∷◌, map, unwrap_or};
ghost use Rattle.std.specs.List.{All};
ghost use Rattle.exec_model.specs.Machine.{end_of, concat};
ghost use Rattle.exec_model.specs.Groups.{AreFull, IsOrder};
ghost use Rattle.exec_model.specs.Jobs.{Run, locks_at, said_nothing, below, run_job};
ghost use Rattle.key_mixer.specs.Lists.{lists_of, set_at};
ghost use Rattle.exec_core.specs.States.{progress_of, slot_progress, AreBegun};
ghost use Rattle.exec_core.specs.Jobs.{BeginsWell, IsRan, IsDone, run_in_groups, serial_run};
ghost use Rattle.exec_core.specs.Underway.{left_by};

use crate::batch::Batch;
use crate::machine::{Machine, Slot};
use crate::ran::{Done, Ran};
use crate::rounds::run_groups;
use crate::segments::begin_one;
use aeg_base::{Bytes, LockSet, Memory, Seq};
use exec_model::{Job, Seg};
use key_mixer::groups;
use kv_store::Store;
use std::alloc::Global;
use std::mem;
use svc_api::{Ending, Outcome, Program, Service};

/// Runs a job by a schedule. The groups of the mixer run one after another; an entry of the schedule lets its segment
/// make one step, and where the schedule is used up the lowest unfinished segment goes on. After want of memory the
/// store holds what it held.
pub fn run_by<S: Service>(
    alloc: Global,
    svc: &S,
    job: &Job,
    schedule: &[u8],
    store: &mut Store,
) -> Result<Ran, Memory>
    requires begins { All (BeginsWell (S.beginning svc.now)) job.now.segs }
    requires few { length job.now.segs ≤ 32 }
    ensures ran { IfOk result (IsRan store.old.map store.new.map (run_job (S.beginning svc.now) job.now.segs store.old.map schedule.now)) }
    ensures room { IfOk result (λ ran. ran.undo.top ≤ store.new.room) }
    ensures unchanged { OnErr result (store.new.map ≡ store.old.map) }
{
    let mut batch = Batch::new(alloc, mem::replace(store, Store::new(alloc)));
    let done = by_schedule(alloc, svc, job.segs.items(), schedule, &mut batch);
    leave(batch, done, store)
}

/// Runs the segments of a job one after another in this order. After want of memory the store holds what it held.
pub fn run_serial<S: Service>(
    alloc: Global,
    svc: &S,
    job: &Job,
    order: &[u8],
    store: &mut Store,
) -> Result<Ran, Memory>
    requires begins { All (BeginsWell (S.beginning svc.now)) job.now.segs }
    requires few { length job.now.segs ≤ 32 }
    requires order { IsOrder (length job.now.segs) order.now }
    ensures ran { IfOk result (IsRan store.old.map store.new.map (serial_run (S.beginning svc.now) job.now.segs store.old.map order.now)) }
    ensures room { IfOk result (λ ran. ran.undo.top ≤ store.new.room) }
    ensures unchanged { OnErr result (store.new.map ≡ store.old.map) }
{
    let mut batch = Batch::new(alloc, mem::replace(store, Store::new(alloc)));
    let done = in_order(alloc, svc, job.segs.items(), order, &mut batch);
    leave(batch, done, store)
}

// Hands the store back: with what was done, or as it was at the batch's start.
pub fn leave(batch: Batch, done: Result<Done, Memory>, store: &mut Store) -> Result<Ran, Memory>
    ensures ran { (run : Run) → IfOk done (IsDone batch.start batch.now run) → IfOk result (IsRan batch.start store.new.map run) }
    ensures room { IfOk result (λ ran. ran.undo.top ≤ store.new.room) }
    ensures unchanged { OnErr result (store.new.map ≡ batch.start) }
{
    match done {
        Ok(done) => {
            let (after, undo) = batch.finish();
            *store = after;
            Ok(Ran {
                steps: done.steps,
                order: done.order,
                redo: done.redo,
                outcome: done.outcome,
                undo,
            })
        }
        Err(Memory) => {
            *store = batch.give_up();
            Err(Memory)
        }
    }
}

// Runs the segments in the mixer's groups.
pub fn by_schedule<S: Service>(
    alloc: Global,
    svc: &S,
    segs: &[Seg],
    schedule: &[u8],
    batch: &mut Batch,
) -> Result<Done, Memory>
    requires begins { All (BeginsWell (S.beginning svc.now)) segs.now }
    requires few { length segs.now ≤ 32 }
    ensures done { IfOk result (IsDone batch.old.start batch.new.now (run_job (S.beginning svc.now) segs.now batch.old.now schedule.now)) }
    ensures start { batch.new.start ≡ batch.old.start }
{
    let (slots, sets) = begin_all(alloc, svc, segs)?;
    let groups = groups(alloc, &sets)?;
    in_groups(alloc, svc, segs, slots, &groups, schedule, batch)
}

// Runs each segment as a group of its own.
fn in_order<S: Service>(
    alloc: Global,
    svc: &S,
    segs: &[Seg],
    order: &[u8],
    batch: &mut Batch,
) -> Result<Done, Memory>
    requires begins { All (BeginsWell (S.beginning svc.now)) segs.now }
    requires few { length segs.now ≤ 32 }
    requires order { IsOrder (length segs.now) order.now }
    ensures done { IfOk result (IsDone batch.old.start batch.new.now (serial_run (S.beginning svc.now) segs.now batch.old.now order.now)) }
    ensures start { batch.new.start ≡ batch.old.start }
{
    let (slots, _) = begin_all(alloc, svc, segs)?;
    let groups = alone(alloc, order)?;
    in_groups(alloc, svc, segs, slots, &groups, &[], batch)
}

// Runs the segments in these groups. Room for all their puts is taken before the first step.
fn in_groups<S: Service>(
    alloc: Global,
    svc: &S,
    segs: &[Seg],
    slots: Vec<Slot<S::Prog>>,
    groups: &[Vec<u8>],
    schedule: &[u8],
    batch: &mut Batch,
) -> Result<Done, Memory>
    requires begins { All (BeginsWell (S.beginning svc.now)) segs.now }
    requires few { length segs.now ≤ 32 }
    requires slots { AreBegun S.Prog.plan (S.beginning svc.now) segs.now slots.items }
    requires full { AreFull (lists_of groups.now) }
    requires order { IsOrder (length segs.now) (concat (lists_of groups.now)) }
    ensures done { IfOk result (IsDone batch.old.start batch.new.now (run_in_groups (S.beginning svc.now) segs.now (lists_of groups.now) batch.old.now schedule.now)) }
    ensures start { batch.new.start ≡ batch.old.start }
{
    batch.reserve(segs.len() * 8)?;
    let mut m = Machine::new(alloc, slots)?;
    let mut order = Vec::new(alloc);
    run_groups(svc, segs, groups, schedule, &mut m, &mut order, batch)?;
    done_of(alloc, m, order, batch)
}

/// What a run made, once its segments have ended.
pub fn done_of<P: Program>(
    alloc: Global,
    m: Machine<P>,
    order: Vec<u8>,
    batch: &Batch,
) -> Result<Done, Memory>
    ensures { IfOk result (IsDone batch.now.start batch.now.now (left_by P.plan m order.items batch.now.now)) }
{
    let ends = ends_of(alloc, m.slots)?;
    let pairs = batch.changed()?;
    Ok(Done {
        steps: Seq::of(m.steps),
        order: Seq::of(order),
        redo: m.redo,
        outcome: Outcome {
            pairs: Seq::of(pairs),
            ends: Seq::of(ends),
        },
    })
}

// The programs of the segments, and the locks that they declare.
pub fn begin_all<S: Service>(
    alloc: Global,
    svc: &S,
    segs: &[Seg],
) -> Result<(Vec<Slot<S::Prog>>, Vec<LockSet>), Memory>
    requires begins { All (BeginsWell (S.beginning svc.now)) segs.now }
    requires few { length segs.now ≤ 32 }
    ensures slots { IfOk result (λ r. AreBegun S.Prog.plan (S.beginning svc.now) segs.now r.0.items) }
    ensures sets { IfOk result (λ r. length r.1.items ≡ length segs.now) }
    ensures locks { IfOk result (λ r. (j : ℕ) → j < length segs.now → set_at r.1.items j ≡ locks_at (S.beginning svc.now) segs.now j) }
{
    let mut slots = Vec::new(alloc);
    let mut sets = Vec::new(alloc);
    'segments: for i in 0..segs.len() {
        let (prog, answer) = begin_one(svc, segs, i as u8)?;
        sets.push(prog.declared())?;
        slots.push(Slot::Running(prog, answer))?;
    }
    Ok((slots, sets))
}

// Each number in a group of its own.
fn alone(alloc: Global, order: &[u8]) -> Result<Vec<Vec<u8>>, Memory>
    ensures { IfOk result (λ groups. lists_of groups.items ≡ map (λ i. i ∷ []) order.now) }
{
    let mut groups = Vec::new(alloc);
    'numbers: for i in order {
        let mut group = Vec::new(alloc);
        group.push(*i)?;
        groups.push(group)?;
    }
    Ok(groups)
}

// How the segments ended, in job order.
fn ends_of<P: Program>(alloc: Global, slots: Vec<Slot<P>>) -> Result<Vec<Ending>, Memory>
    ensures { IfOk result (λ ends. ends.items ≡ map (λ i. unwrap_or (end_of (progress_of P.plan slots.items i)) said_nothing) (below (length slots.items))) }
{
    let mut ends = Vec::new(alloc);
    'slots: for slot in slots {
        ends.push(end_of_slot(alloc, slot))?;
    }
    Ok(ends)
}

fn end_of_slot<P: Program>(alloc: Global, slot: Slot<P>) -> Ending
    ensures { result ≡ unwrap_or (end_of (slot_progress P.plan slot)) said_nothing }
{
    match slot {
        Slot::Running(_, _) => Ending::Reply(Bytes::new(alloc)),
        Slot::Ended(ending) => ending,
    }
}
