// An executor that runs jobs on threads.
ghost use Rattle.std.specs.Prelude.{◌≡◌, ◌≤◌, Some, None, IfOk, OnOk, OnErr, length};
ghost use Rattle.std.specs.List.{All};
ghost use Rattle.exec_model.specs.Jobs.{run_job};
ghost use Rattle.exec_core.specs.Counts.{one_more};
ghost use Rattle.exec_core.specs.Jobs.{BeginsWell, IsRan};
ghost use Rattle.exec_locked.specs.Locked.{count_of, last_of, gate_of};

use crate::group::run_group;
use aeg_base::Memory;
use booking::Booking;
use exec_core::{CrossGate, Exec, Gate, Job, JobRun, OpenGate, Ran, Runs, Task};
use kv_store::Store;
use std::alloc::Global;
use std::marker::Brand;
use std::sync::{Mutex, Wait};
use std::thread::Threads;
use svc_api::Service;

/// Runs the segments of a group on threads that take turns under one lock.
#[derive(Drop)]
pub struct LockedExec<R: Drop, G: Drop> {
    alloc: Global,
    rt: R,
    gate: G,
    runs: Runs,
}

impl<R: Drop, G: Drop> LockedExec<R, G> {
    pub fn new(alloc: Global, rt: R, gate: G) -> Self
        ensures gate { gate_of result ≡ gate }
        ensures runs { count_of result ≡ 0 }
        ensures last { last_of result ≡ None }
    {
        LockedExec {
            alloc,
            rt,
            gate,
            runs: Runs::new(),
        }
    }

    pub fn gate(&self) -> &G
        ensures { result.now ≡ gate_of self.now }
    {
        &self.gate
    }
}

impl<R: Threads + Wait + Drop, G: Gate + Sync + Drop> LockedExec<R, G> {
    /// Runs a job of any service that threads can share. Its steps lead the machine to what it left.
    pub fn run_on<S: Service + Sync>(
        &mut self,
        svc: &S,
        job: &Job,
        store: &mut Store,
    ) -> Result<Ran, Memory>
    where
        S::Prog: Send,
        requires begins { All (BeginsWell (S.beginning svc.now)) job.now.segs }
        requires few { length job.now.segs ≤ 32 }
        ensures ran { IfOk result (λ ran. IsRan store.old.map store.new.map (run_job (S.beginning svc.now) job.now.segs store.old.map ran.steps) ran) }
        ensures room { IfOk result (λ ran. ran.undo.top ≤ store.new.room) }
        ensures unchanged { OnErr result (store.new.map ≡ store.old.map) }
        ensures counted { OnOk result (count_of self.new ≡ one_more (count_of self.old)) }
        ensures noted { IfOk result (λ ran. last_of self.new ≡ Some (record { round = job.now.round; steps = ran.steps })) }
        ensures not_counted { OnErr result (count_of self.new ≡ count_of self.old) }
        ensures not_noted { OnErr result (last_of self.new ≡ last_of self.old) }
        ensures gate { gate_of self.new ≡ gate_of self.old }
    {
        let ran = run_task::<S, G, R, Brand>(&self.rt, &self.gate, self.alloc, svc, job, store)?;
        self.runs.note(self.alloc, job.round, ran, store)
    }
}

// Runs the task's job. A group that the threads left unfinished makes the caller run the job itself, in job order.
fn run_task<S: Service + Sync, G: Gate + Sync, R: Threads + Wait, T: Task + Send + Sync>(
    rt: &R,
    gate: &G,
    alloc: Global,
    svc: &S,
    job: &Job,
    store: &mut Store,
) -> Result<Ran, Memory>
where
    S::Prog: Send,
    requires begins { All (BeginsWell (S.beginning svc.now)) job.now.segs }
    requires few { length job.now.segs ≤ 32 }
    requires service { S.beginning svc.now ≡ T.begins }
    requires job { job.now.segs ≡ T.segs }
    requires start { store.old.map ≡ T.start }
    ensures ran { IfOk result (λ ran. IsRan T.start store.new.map (run_job T.begins T.segs T.start ran.steps) ran) }
    ensures room { IfOk result (λ ran. ran.undo.top ≤ store.new.room) }
    ensures unchanged { OnErr result (store.new.map ≡ T.start) }
{
    let run: JobRun<'_, S, T> = JobRun::begin(alloc, svc, job, store)?;
    let run = in_threads(rt, gate, alloc, run, job.segs.items().len());
    run.leave(alloc, store)
}

// Runs one group after another, of which there are at most so many.
fn in_threads<'a, S: Service + Sync, G: Gate + Sync, R: Threads + Wait, T: Task + Send + Sync>(
    rt: &R,
    gate: &G,
    alloc: Global,
    run: JobRun<'a, S, T>,
    most: usize,
) -> JobRun<'a, S, T>
where
    S::Prog: Send,
{
    let mut shared = Mutex::new(run);
    for _ in 0..most {
        match shared.get_mut().group(alloc) {
            Ok(group) => run_group(rt, gate, &shared, &group),
            Err(Memory) => break,
        }
    }
    shared.into_inner()
}

impl<R: Threads + Wait + Drop> Exec<Booking> for LockedExec<R, OpenGate> {
    ghost use Rattle.std.specs.Prelude.{None};
    ghost use Rattle.exec_locked.specs.Locked.{count_of, last_of};

    ghost runs = { λ x. count_of x };

    ghost last = { λ x. last_of x };

    ghost given = { λ x. None };

    fn run(&mut self, svc: &Booking, job: &Job, store: &mut Store) -> Result<Ran, Memory> {
        self.run_on(svc, job, store)
    }
}

impl<R: Threads + Wait + Drop> Exec<Booking> for LockedExec<R, CrossGate> {
    ghost use Rattle.std.specs.Prelude.{None};
    ghost use Rattle.exec_locked.specs.Locked.{count_of, last_of};

    ghost runs = { λ x. count_of x };

    ghost last = { λ x. last_of x };

    ghost given = { λ x. None };

    fn run(&mut self, svc: &Booking, job: &Job, store: &mut Store) -> Result<Ran, Memory> {
        self.run_on(svc, job, store)
    }
}
