// What a verdict makes of the store.
ghost use Rattle.std.specs.Prelude.{◌≡◌, ◌≤◌, ◌↔◌, true, length, IfOk, IfSome};
ghost use Rattle.std.specs.List.{All};
ghost use Rattle.kv_store.specs.Stores.{unwound};
ghost use Rattle.exec_core.specs.Jobs.{BeginsWell};
ghost use Rattle.rollback.specs.Settled.{HasToken, IsReadable, IsSerial, Settled};
ghost use Rattle.rollback.specs.Views.{job_of, ran_of, token_of};
ghost use Rattle.applied_rounds.specs.States.{Stands, start_of};

use aeg_base::Memory;
use exec_core::Job;
use kv_store::Store;
use log_values::{Token, Verdict};
use rollback::{Spec, settle_cold};
use std::alloc::Global;
use svc_api::{Outcome, Service};

/// Whether the verdict commits to this token.
fn commits_to(verdict: &Verdict, own: &Token) -> bool
    ensures { result ≡ true ↔ HasToken verdict.now own.now }
{
    match verdict {
        Verdict::Commit { token, .. } => token.same(own),
        Verdict::Serial => false,
    }
}

/// The verdict of a round that was run: a run with the Commit's token is kept, any other is undone first.
fn settle_run<S: Service>(
    alloc: Global,
    svc: &S,
    run: Spec,
    job: &Job,
    verdict: &Verdict,
    store: &mut Store,
) -> Result<Outcome, Memory>
    requires stands { Stands run store.old }
    requires reads { IsReadable verdict.now (length job.now.segs) }
    requires begins { IsSerial verdict.now → All (BeginsWell (S.beginning svc.now)) job.now.segs }
    requires few { length job.now.segs ≤ 16 }
    ensures { IfOk result (Settled (S.beginning svc.now) job.now.segs verdict.now (unwound (ran_of run).undo.entries store.old.map) store.new.map) }
{
    if commits_to(verdict, run.token()) {
        return run.settle(svc, verdict, store);
    }
    run.drop_all(store);
    settle_cold(alloc, svc, job, verdict, store)
}

/// Applies the verdict of the next round to the store at its start, whether it was run or not.
pub fn settle<S: Service>(
    alloc: Global,
    svc: &S,
    run: Option<Spec>,
    job: &Job,
    verdict: &Verdict,
    store: &mut Store,
) -> Result<Outcome, Memory>
    requires stands { IfSome run (λ r. Stands r store.old) }
    requires reads { IsReadable verdict.now (length job.now.segs) }
    requires begins { IsSerial verdict.now → All (BeginsWell (S.beginning svc.now)) job.now.segs }
    requires few { length job.now.segs ≤ 16 }
    ensures { IfOk result (Settled (S.beginning svc.now) job.now.segs verdict.now (start_of run store.old.map) store.new.map) }
{
    match run {
        None => settle_cold(alloc, svc, job, verdict, store),
        Some(run) => settle_run(alloc, svc, run, job, verdict, store),
    }
}
