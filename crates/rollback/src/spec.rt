// What a round ran before it was agreed.
ghost use Rattle.std.specs.Prelude.{◌≡◌, ◌≤◌, Some, IfOk, IfErr, OnErr, IsTrue, false, length};
ghost use Rattle.std.specs.List.{All};
ghost use Rattle.kv_store.specs.Stores.{unwound};
ghost use Rattle.exec_core.specs.Jobs.{BeginsWell};
ghost use Rattle.log_values.specs.Outcomes.{outcome as spelling};
ghost use Rattle.rollback.specs.Settled.{told, IsReadable, IsSerial, HasToken, Settled};
ghost use Rattle.rollback.specs.Runs.{WasRun};
ghost use Rattle.rollback.specs.Specs.{IsLeftBy};

use crate::cold::settle_cold;
use aeg_base::Memory;
use exec_core::{Job, Ran};
use kv_store::Store;
use log_values::{Token, Verdict, encode_outcome};
use std::alloc::Global;
use svc_api::{Outcome, Service};

/// A job that ran, with the token of its outcome. The store holds what the run left until it is settled.
#[derive(Debug, Drop)]
pub struct Spec {
    alloc: Global,
    job: Job,
    ran: Ran,
    token: Token,
    ghost told: { told token ≡ Some ran.outcome },
}

impl Spec {
    ghost use Rattle.rollback.specs.Views.{job_of, ran_of, token_of};

    /// Takes over a job and its run. Where there is no memory for the token, both are handed back.
    pub fn begin(alloc: Global, job: Job, ran: Ran) -> Result<Spec, (Job, Ran, Memory)>
        requires ran { WasRun job ran }
        ensures job { IfOk result (λ spec. job_of spec ≡ job) }
        ensures ran { IfOk result (λ spec. ran_of spec ≡ ran) }
        ensures token { IfOk result (λ spec. token_of spec ≡ spelling ran.outcome) }
        ensures job_back { IfErr result (λ back. back.0 ≡ job) }
        ensures ran_back { IfErr result (λ back. back.1 ≡ ran) }
    {
        match encode_outcome(alloc, &ran.outcome) {
            Ok(token) => Ok(Spec {
                alloc,
                job,
                ran,
                token,
            }),
            Err(Memory) => Err((job, ran, Memory)),
        }
    }

    /// The token of the run's outcome.
    pub fn token(&self) -> &Token
        ensures { result.now ≡ token_of self.now }
    {
        &self.token
    }

    /// Settles the round by its verdict. A run with a Commit's token is kept, which takes no memory; any other is undone,
    /// and the verdict applied to the store at the job's start. After want of memory the store is the one at the job's
    /// start.
    pub fn settle<S: Service>(
        self,
        svc: &S,
        verdict: &Verdict,
        store: &mut Store,
    ) -> Result<Outcome, Memory>
        requires left { IsLeftBy (ran_of self) store.old }
        requires reads { IsReadable verdict.now (length (job_of self).segs) }
        requires begins { IsSerial verdict.now → All (BeginsWell (S.beginning svc.now)) (job_of self).segs }
        requires few { IsSerial verdict.now → length (job_of self).segs ≤ 32 }
        ensures kept { HasToken verdict.now (token_of self) → (result ≡ Ok (ran_of self).outcome) × (store.new ≡ store.old) }
        ensures settled { IfOk result (Settled (S.beginning svc.now) (job_of self).segs verdict.now (unwound (ran_of self).undo.entries store.old.map) store.new.map) }
        ensures undone { OnErr result (store.new.map ≡ unwound (ran_of self).undo.entries store.old.map) }
    {
        let agreed = self.is_told_by(verdict);
        let Spec {
            alloc,
            job,
            ran,
            ..
        } = self;
        if agreed {
            return Ok(ran.outcome);
        }
        let mut list = ran.undo;
        store.undo(&mut list);
        settle_cold(alloc, svc, &job, verdict, store)
    }

    /// Undoes the run: the store is then the one at the job's start.
    pub fn drop_all(self, store: &mut Store)
        requires left { IsLeftBy (ran_of self) store.old }
        ensures undone { store.new.map ≡ unwound (ran_of self).undo.entries store.old.map }
        ensures room { store.new.room ≡ store.old.room }
    {
        let Spec { ran, .. } = self;
        let mut undo = ran.undo;
        store.undo(&mut undo);
    }

    fn is_told_by(&self, verdict: &Verdict) -> bool
        ensures yes { IsTrue result → HasToken verdict.now (token_of self.now) }
        ensures no { result ≡ false → ¬ HasToken verdict.now (token_of self.now) }
    {
        match verdict {
            Verdict::Commit { token, .. } => token.same(&self.token),
            Verdict::Serial => false,
        }
    }
}
