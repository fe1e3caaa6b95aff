// The rounds that are applied, and the run of the next one.
ghost use Rattle.std.specs.Prelude.{◌≡◌, ℕ, List, ◌≤◌, ◌<◌, not, map, Some, None, IfOk, OnOk, IfSome, is_none, length, option_map, option_copied, IsTrue};
ghost use Rattle.std.specs.List.{All, AllByRecursion};
ghost use Rattle.aeg_base.specs.declared.limits.TheConstants.{ROUNDS};
ghost use Rattle.aeg_base.specs.declared.names.Tier.{Tier as SomeTier};
ghost use Rattle.exec_core.specs.Counts.{one_more};
ghost use Rattle.exec_core.specs.Jobs.{BeginsWell, UsesGiven};
ghost use Rattle.exec_model.specs.Jobs.{run_job};
ghost use Rattle.log_values.specs.declared.entry.Entry.{Entry as SomeEntry};
ghost use Rattle.log_values.specs.declared.mid_value.MidValue.TheVariants as values;
ghost use Rattle.log_values.specs.Values.{FitsEntry, FitsMid};
ghost use Rattle.batcher.specs.Clients.{Agrees};
ghost use Rattle.pipeline.specs.Answers.{has_no_batch, job_in, job_settled, missing_in as missing_for, missing_settled};
ghost use Rattle.pipeline.specs.Jobs.{IsNextJob, lacks, read};
ghost use Rattle.pipeline.specs.States.{by_tier, call_of, calling, next_wants, numbered};
ghost use Rattle.round_model.specs.Held.{held_code, usable};
ghost use Rattle.round_model.specs.Lists.{and_then, concat, is_nil, is_some};
ghost use Rattle.round_model.specs.Numbered.{rises};
ghost use Rattle.rollback.specs.Settled.{IsReadable, IsSerial};
ghost use Rattle.round_model.specs.Service.{Finish};
ghost use Rattle.round_model.specs.Settling.{finish_of};
ghost use Rattle.round_model.specs.Tables.{batch_of, first_missing, job_of, wants};
ghost use Rattle.row_laws.specs.Mids.{AreTablesIn, rounds_in};
ghost use Rattle.tier_laws.specs.Said.{IsStore};
ghost use Rattle.applied_rounds.specs.States.{ComesTo, after_round, after_round_if, claim_by, none_applied, programs_of};
ghost use Rattle.applied_rounds.specs.Told.{missing_in, told_in, tolds};

use crate::clients_after::{end_all, replies_of};
use crate::running::run;
use crate::settling::settle;
use crate::told::{Applying, Told, let_out};
use aeg_base::limits::{CLIENTS, ROUNDS};
use aeg_base::{Bytes, CallNo, Memory, Round, Tier};
use batcher::{Clients, Pending, fresh_entries_in, make_batch_in};
use exec_core::{Exec, Job};
use kv_store::Store;
use log_values::{Entry, Token, Verdict};
use pipeline::{JobState, Rounds, Settled};
use resp_durable::Held;
use rollback::Spec;
use spec_barrier::Barrier;
use std::alloc::Global;
use std::marker::Model;
use svc_api::{Ending, Service};
use tier_model::RunNote;

/// The store, the clients' table and the requests that wait, as the rounds that are applied left them; the run of the
/// next round, where it was run: the store holds its writes then. What a round tells passes the barrier once it is
/// applied.
#[derive(Drop)]
pub struct Applied {
    alloc: Global,
    store: Store,
    clients: Clients,
    rounds: Rounds,
    run: Option<Spec>,
    barrier: Barrier<Told>,
}

impl Model for Applied {
    ghost use Rattle.applied_rounds.specs.States.{AppliedState, AreKept, claim_of, start_of, tables_of};

    ghost Value = { AppliedState };

    ghost view = { λ a. record {
      applied = a.rounds.next;
      tables = tables_of (start_of a.run a.store.map) a.clients a.rounds;
      run = claim_of a.run;
    } };

    ghost invariant = { λ a. AreKept a.store a.clients a.rounds a.run a.barrier };
}

impl Applied {
    /// No round is applied, in a pipeline of this depth.
    pub fn new(alloc: Global, depth: u8) -> Result<Self, Memory>
        requires { 1 ≤ depth }
        ensures { IfOk result (λ applied. applied ≡ none_applied depth) }
    {
        Ok(Applied {
            alloc,
            store: Store::new(alloc),
            clients: Clients::new(),
            rounds: Rounds::new(alloc, depth)?,
            run: None,
            barrier: Barrier::new(alloc),
        })
    }

    /// How many rounds are applied.
    pub fn applied(&self) -> Round
        ensures is { result ≡ self.now.applied }
        ensures few { result ≤ ROUNDS }
    {
        self.barrier.applied()
    }

    /// Whether the next round was run.
    pub fn has_run(&self) -> bool
        ensures { result ≡ is_some self.now.run }
    {
        self.run.is_some()
    }

    /// The token of the next round's run, where it was run.
    pub fn token(&self) -> Option<&Token>
        ensures { option_copied result ≡ option_map (λ claim. claim.token) self.now.run }
    {
        match &self.run {
            None => None,
            Some(run) => Some(run.token()),
        }
    }

    /// What is kept of the clients.
    pub fn clients(&self) -> &Clients
        ensures { Agrees result.now self.now.tables }
    {
        &self.clients
    }

    /// Whether a request waits for its call.
    pub fn waits(&self) -> bool
        ensures { result ≡ not (is_nil (concat self.now.tables.queue)) }
    {
        'clients: for client in 0..CLIENTS {
            if self.clients.busy(client + 1) {
                return true;
            }
        }
        false
    }

    /// The fresh ones among the requests that wait for a round, of the lowest eight clients that have one.
    pub fn batch<S: Service>(&self, svc: &S, pending: &Pending) -> Result<Vec<Entry>, Memory>
        ensures { IfOk result (λ batch. batch.items ≡ batch_of (programs_of (S.table svc.now) (S.beginning svc.now)) self.now.tables pending.now) }
    {
        make_batch_in(self.alloc, svc, &self.clients, pending)
    }

    /// The next round's job, where its batch is learned and each answer is usable.
    pub fn job<S: Service>(
        &self,
        svc: &S,
        batch: Option<&[Entry]>,
        held: &Held,
    ) -> Result<JobState, Memory>
        requires tables { (depth : ℕ) × AreTablesIn (programs_of (S.table svc.now) (S.beginning svc.now)) depth self.now.applied self.now.tables }
        requires batch { IfSome batch (λ es. AllByRecursion FitsEntry es.now) }
        ensures round { IfOk result (λ state. IfSome (job_in state) (λ job. job.round ≡ self.now.applied)) }
        ensures ready { IfOk result (λ state. option_map (λ job. job.segs) (job_in state) ≡ and_then (read batch.entry)
            (λ es. job_of (usable held.now) (wants (programs_of (S.table svc.now) (S.beginning svc.now)) self.now.tables es))) }
        ensures no_answer { IfOk result (λ state. missing_for state ≡ and_then (read batch.entry)
            (λ es. first_missing (usable held.now) (wants (programs_of (S.table svc.now) (S.beginning svc.now)) self.now.tables es))) }
        ensures no_batch { IfOk result (λ state. has_no_batch state ≡ is_none batch.entry) }
        ensures begins { IfOk result (λ state. IfSome (job_in state) (λ job. All (BeginsWell (S.beginning svc.now)) job.segs)) }
        ensures few { IfOk result (λ state. IfSome (job_in state) (λ job. length job.segs ≤ 16)) }
    {
        let Some(batch) = batch else {
            return Ok(JobState::NoBatch);
        };
        let fresh = fresh_entries_in(self.alloc, svc, &self.clients, batch)?;
        self.rounds.next_job(Some(&fresh), held)
    }

    /// Runs the job of the next round by the executor, and keeps the run.
    pub fn run<S: Service, X: Exec<S>>(
        &mut self,
        svc: &S,
        exec: &mut X,
        job: Job,
    ) -> Result<RunNote, Memory>
        requires idle { self.old.run ≡ None }
        requires round { job.round ≡ self.old.applied }
        requires begins { All (BeginsWell (S.beginning svc.now)) job.segs }
        requires few { length job.segs ≤ 16 }
        requires store { IsStore self.old.tables.store }
        ensures steps { IfOk result (λ note. note ≡ record {
          round = self.old.applied;
          steps = (run_job (S.beginning svc.now) job.segs self.old.tables.store note.steps).steps;
          order = (run_job (S.beginning svc.now) job.segs self.old.tables.store note.steps).order;
          redo = (run_job (S.beginning svc.now) job.segs self.old.tables.store note.steps).redo;
        }) }
        ensures claim { IfOk result (λ note. self.new ≡ record self.old {
          run = Some (claim_by (programs_of (S.table svc.now) (S.beginning svc.now))
              self.old.tables.store (run_job (S.beginning svc.now) job.segs self.old.tables.store note.steps));
        }) }
        ensures by_given { IfOk result (λ note. UsesGiven (S.beginning svc.now) job.segs self.old.tables.store (X.given exec.old) note.steps) }
        ensures counted { OnOk result (X.runs exec.new ≡ one_more (X.runs exec.old)) }
        ensures noted { IfOk result (λ note. X.last exec.new ≡ Some (record { round = note.round; steps = note.steps })) }
        ensures kept { X.given exec.new ≡ X.given exec.old }
    {
        let (ran, note) = run(self.alloc, svc, exec, job, &mut self.store)?;
        self.run = Some(ran);
        Ok(note)
    }

    /// Whether the next round's verdict can be applied: its job, or what it lacks. Nothing is applied.
    pub fn can_apply<S: Service>(
        &self,
        svc: &S,
        batch: &[Entry],
        verdict: &Verdict,
        held: &Held,
    ) -> Result<Settled, Memory>
        requires tables { (depth : ℕ) × AreTablesIn (programs_of (S.table svc.now) (S.beginning svc.now)) depth self.now.applied self.now.tables }
        requires batch { AllByRecursion FitsEntry batch.now }
        ensures ready { IfOk result (λ settled. is_some (job_settled settled) ≡ is_some (finish_of (programs_of (S.table svc.now) (S.beginning svc.now))
            (held_code held.now) (wants (programs_of (S.table svc.now) (S.beginning svc.now)) self.now.tables batch.now) self.now.tables verdict.now)) }
        ensures no_answer { IfOk result (λ settled. missing_settled settled ≡ lacks (held_code held.now)
            (wants (programs_of (S.table svc.now) (S.beginning svc.now)) self.now.tables batch.now) verdict.now) }
    {
        let fresh = fresh_entries_in(self.alloc, svc, &self.clients, batch)?;
        self.rounds.settled_job(svc, &fresh, verdict, held)
    }

    /// Goes on to the round behind the next one, whose job came to these ends in this store.
    fn move_on(&mut self, job: &Job, ends: &[Ending]) -> Result<Vec<Told>, Memory>
        requires idle { self.old.run ≡ None }
        requires next { (fresh : List SomeEntry) × IsNextJob (rounds_in self.old.applied self.old.tables) fresh job.now }
        requires rounds { self.old.applied < ROUNDS }
        requires each { length ends.now ≡ length job.now.segs }
        ensures state { (fresh : List SomeEntry) → IsNextJob (rounds_in self.old.applied self.old.tables) fresh job.now
            → OnOk result (self.new ≡ after_round self.old (next_wants (rounds_in self.old.applied self.old.tables) fresh)
            (record { store = self.old.tables.store; ends = ends.now })) }
        ensures told { (fresh : List SomeEntry) → IsNextJob (rounds_in self.old.applied self.old.tables) fresh job.now
            → IfOk result (λ told. told.items ≡ tolds self.old.tables.next (next_wants (rounds_in self.old.applied self.old.tables) fresh) ends.now) }
    {
        let replies = replies_of(self.alloc, ends)?;
        let calls = self.rounds.park(job, ends)?;
        end_all(&mut self.clients, job.segs.items(), replies);
        let_out(self.alloc, &mut self.barrier, job, ends, calls)
    }

    /// Settles the next round by its verdict, with the job that the verdict is for.
    fn settle<S: Service>(
        &mut self,
        svc: &S,
        job: &Job,
        verdict: &Verdict,
    ) -> Result<Vec<Told>, Memory>
        requires next { (fresh : List SomeEntry) × IsNextJob (rounds_in self.old.applied self.old.tables) fresh job.now }
        requires rounds { self.old.applied < ROUNDS }
        requires reads { IsReadable verdict.now (length job.now.segs) }
        requires begins { IsSerial verdict.now → All (BeginsWell (S.beginning svc.now)) job.now.segs }
        requires few { length job.now.segs ≤ 16 }
        ensures state { (fresh : List SomeEntry) (o : Finish) → IsNextJob (rounds_in self.old.applied self.old.tables) fresh job.now
            → ComesTo (S.beginning svc.now) job.now.segs verdict.now self.old.tables.store o
            → OnOk result (self.new ≡ after_round self.old (next_wants (rounds_in self.old.applied self.old.tables) fresh) o) }
        ensures told { (fresh : List SomeEntry) (o : Finish) → IsNextJob (rounds_in self.old.applied self.old.tables) fresh job.now
            → ComesTo (S.beginning svc.now) job.now.segs verdict.now self.old.tables.store o
            → IfOk result (λ told. told.items ≡ tolds self.old.tables.next (next_wants (rounds_in self.old.applied self.old.tables) fresh) o.ends) }
    {
        let run = self.run.take();
        let outcome = settle(self.alloc, svc, run, job, verdict, &mut self.store)?;
        self.move_on(job, outcome.ends.items())
    }

    /// Applies the verdict of the next round, where it can be. A run with a Commit's token is kept, any other is undone.
    /// A Serial lacks an answer that isn't held, a Commit may not fit: nothing is changed then.
    pub fn apply<S: Service>(
        &mut self,
        svc: &S,
        batch: &[Entry],
        verdict: &Verdict,
        held: &Held,
    ) -> Result<Applying, Memory>
        requires tables { (depth : ℕ) × AreTablesIn (programs_of (S.table svc.now) (S.beginning svc.now)) depth self.old.applied self.old.tables }
        requires batch { AllByRecursion FitsEntry batch.now }
        requires verdict { FitsMid (values.Verdict verdict.now) }
        requires rounds { self.old.applied < ROUNDS }
        ensures state { OnOk result (self.new ≡ after_round_if self.old
            (wants (programs_of (S.table svc.now) (S.beginning svc.now)) self.old.tables batch.now)
            (finish_of (programs_of (S.table svc.now) (S.beginning svc.now)) (held_code held.now)
            (wants (programs_of (S.table svc.now) (S.beginning svc.now)) self.old.tables batch.now) self.old.tables verdict.now)) }
        ensures told { IfOk result (λ applying. told_in applying ≡ option_map (λ o. tolds self.old.tables.next
            (wants (programs_of (S.table svc.now) (S.beginning svc.now)) self.old.tables batch.now) o.ends)
            (finish_of (programs_of (S.table svc.now) (S.beginning svc.now)) (held_code held.now)
            (wants (programs_of (S.table svc.now) (S.beginning svc.now)) self.old.tables batch.now) self.old.tables verdict.now)) }
        ensures no_answer { IfOk result (λ applying. missing_in applying ≡ lacks (held_code held.now)
            (wants (programs_of (S.table svc.now) (S.beginning svc.now)) self.old.tables batch.now) verdict.now) }
    {
        let fresh = fresh_entries_in(self.alloc, svc, &self.clients, batch)?;
        match self.rounds.settled_job(svc, &fresh, verdict, held)? {
            Settled::NoAnswer { tier, no } => Ok(Applying::NoAnswer { tier, no }),
            Settled::Misfit => Ok(Applying::Misfit),
            Settled::Ready(job) => {
                let told = self.settle(svc, &job, verdict)?;
                Ok(Applying::Applied(told))
            }
        }
    }

    /// The calls of the requests that wait, by tier, then number.
    pub fn parked(&self) -> Result<Vec<(Tier, CallNo, Bytes)>, Memory>
        ensures calls { IfOk result (λ calls. calls.items ≡ map call_of (by_tier (concat self.now.tables.queue))) }
        ensures rise { (t : SomeTier) → IsTrue (rises 1 (numbered (calling t (concat self.now.tables.queue)))) }
    {
        self.rounds.parked()
    }
}
