// A job in the middle of its run, as it may lie under a lock.
ghost use Rattle.std.specs.Prelude.{◌≡◌, ◌≤◌, ◌++◌, ◌∷◌, ◌⊎◌, [], true, false, IsTrue, IsErr, IfOk, OnErr, length};
ghost use Rattle.std.specs.List.{All};
ghost use Rattle.exec_model.specs.Jobs.{groups_of, run_job};
ghost use Rattle.exec_core.specs.Jobs.{BeginsWell, IsRan};
ghost use Rattle.exec_core.specs.Underway.{IsUnderway, can_step, first_of, state_after};

use crate::batch::Batch;
use crate::ran::Ran;
use crate::run::{by_schedule, done_of, leave};
use crate::work::{Work, begin_work, turn_of};
use aeg_base::Memory;
use exec_model::{Job, Seg};
use kv_store::Store;
use std::alloc::Global;
use std::marker::{Brand, Model, PhantomData};
use svc_api::Service;

/// What is to be run: the segments of a job, how they begin, and the store that they start on. Each call of a program
/// picks it.
pub trait Task {
    ghost use Rattle.std.specs.Prelude.{List};
    ghost use Rattle.aeg_base.specs.Store.{Store};
    ghost use Rattle.exec_model.specs.declared.job.Seg.{Seg};
    ghost use Rattle.exec_model.specs.Jobs.{Beginnings};

    ghost begins: { Beginnings };

    ghost segs: { List Seg };

    ghost start: { Store };
}

impl Task for Brand {
    ghost use Rattle.std.specs.Prelude.{[], None};
    ghost use Rattle.aeg_base.specs.Store.{empty};

    ghost begins = { λ who body stage. None };

    ghost segs = { [] };

    ghost start = { empty };
}

/// A run of the task's job. Contracts see the steps that were made, the groups that are left, and whether memory was
/// wanting. If it was not, the type keeps that the machine begun on this job and store is in this state after just these
/// steps.
#[derive(Drop)]
pub struct JobRun<'a, S: Service, T: Task> {
    svc: &'a S,
    segs: &'a [Seg],
    work: Work<S::Prog>,
    short: bool,
    task: PhantomData<T>,
}

impl<'a, S: Service, T: Task> Model for JobRun<'a, S, T> {
    ghost use Rattle.std.specs.Prelude.{drop};
    ghost use Rattle.key_mixer.specs.Lists.{lists_of};
    ghost use Rattle.exec_core.specs.Underway.{RunView, run_code, IsUnderway};

    ghost Value = { RunView };

    ghost coded = { run_code };

    ghost view = { λ r. record { steps = r.work.m.steps.items; left = drop r.work.at (lists_of r.work.groups.items); short = r.short } };

    ghost invariant = { λ r. IsUnderway S.Prog.plan (S.beginning r.svc.now) r.segs.now r.work r.short T.begins T.segs T.start };
}

impl<'a, S: Service, T: Task> JobRun<'a, S, T> {
    /// Begins a job, and takes the store until the run leaves it.
    pub fn begin(alloc: Global, svc: &'a S, job: &'a Job, store: &mut Store) -> Result<Self, Memory>
        requires begins { All (BeginsWell (S.beginning svc.now)) job.now.segs }
        requires few { length job.now.segs ≤ 32 }
        requires service { S.beginning svc.now ≡ T.begins }
        requires job { job.now.segs ≡ T.segs }
        requires start { store.old.map ≡ T.start }
        ensures run { IfOk result (λ run. run ≡ record { steps = []; left = groups_of T.begins T.segs; short = false }) }
        ensures unchanged { OnErr result (store.new.map ≡ store.old.map) }
    {
        let segs = job.segs.items();
        let work = begin_work(alloc, svc, segs, store)?;
        Ok(JobRun {
            svc,
            segs,
            work,
            short: false,
            task: PhantomData,
        })
    }

    /// The members of the group at work, none where all groups are over.
    pub fn group(&self, alloc: Global) -> Result<Vec<u8>, Memory>
        ensures { IfOk result (λ group. group.items ≡ first_of self.now.left) }
    {
        if self.work.at < self.work.groups.len() {
            let members = Vec::from_slice(alloc, &self.work.groups[self.work.at])?;
            return Ok(members);
        }
        Ok(Vec::new(alloc))
    }

    /// Segment `i` makes one step, if it runs and its group is at work. Answers whether it can make another: its group is
    /// still at work, it runs, and memory was not wanting.
    pub fn turn(&mut self, i: u8) -> bool
        ensures on { IsTrue result → self.new ≡ record self.old { steps = self.old.steps ++ i ∷ [] } }
        ensures runs { self.new.short ≡ false → result ≡ can_step (state_after T.begins T.segs T.start self.new.steps) i }
        ensures wanting { self.new.short ≡ true → result ≡ false }
        ensures idle { self.old.short ≡ true → self.new ≡ self.old }
        ensures made { self.old.short ≡ false → can_step (state_after T.begins T.segs T.start self.old.steps) i ≡ true → (self.new.short ≡ true) ⊎ (self.new.steps ≡ self.old.steps ++ i ∷ []) }
        ensures noted { self.new.short ≡ false → (self.new.steps ≡ self.old.steps) ⊎ (self.new.steps ≡ self.old.steps ++ i ∷ []) }
    {
        if self.short {
            return false;
        }
        match turn_of(self.svc, self.segs, &mut self.work, i) {
            Ok(on) => on,
            Err(Memory) => {
                self.short = true;
                false
            }
        }
    }

    /// Leaves what was made. Where a group is left, the job is run again in job order; after want of memory the store is
    /// as it was.
    pub fn leave(self, alloc: Global, store: &mut Store) -> Result<Ran, Memory>
        ensures ran { IfOk result (λ ran. IsRan T.start store.new.map (run_job T.begins T.segs T.start ran.steps) ran) }
        ensures steps { self.entry.left ≡ [] → IfOk result (λ ran. ran.steps ≡ self.entry.steps) }
        ensures afresh { (self.entry.left ≡ [] → ⊥) → IfOk result (λ ran. ran.steps ≡ (run_job T.begins T.segs T.start []).steps) }
        ensures room { IfOk result (λ ran. ran.undo.top ≤ store.new.room) }
        ensures short { self.entry.short ≡ true → IsErr result }
        ensures unchanged { OnErr result (store.new.map ≡ T.start) }
    {
        let work = self.work;
        if self.short {
            *store = work.cells.give_up();
            return Err(Memory);
        }
        if work.at < work.groups.len() {
            let mut batch = Batch::new(alloc, work.cells.give_up());
            let done = by_schedule(alloc, self.svc, self.segs, &[], &mut batch);
            return leave(batch, done, store);
        }
        let done = done_of(alloc, work.m, work.order, &work.cells);
        leave(work.cells, done, store)
    }
}
