// The run of a job before its verdict.
ghost use Rattle.std.specs.Prelude.{◌≡◌, ◌≤◌, length, IfOk, OnOk, OnErr};
ghost use Rattle.std.specs.List.{All};
ghost use Rattle.exec_core.specs.Counts.{one_more};
ghost use Rattle.exec_core.specs.Jobs.{BeginsWell, UsesGiven};
ghost use Rattle.exec_model.specs.Jobs.{run_job};
ghost use Rattle.kv_store.specs.Stores.{unwound};
ghost use Rattle.rollback.specs.Runs.{WasRun};
ghost use Rattle.rollback.specs.Specs.{IsLeftBy};
ghost use Rattle.rollback.specs.Views.{job_of, ran_of, token_of};
ghost use Rattle.log_values.specs.Outcomes.{outcome as spelling};
ghost use Rattle.tier_laws.specs.Said.{IsStore};
ghost use Rattle.applied_rounds.specs.States.{Stands, claim_by, claim_of, programs_of};

use aeg_base::{Memory, Round, Seq};
use exec_core::{Exec, Job, Ran};
use kv_store::Store;
use rollback::Spec;
use std::alloc::Global;
use svc_api::Service;
use tier_model::RunNote;

/// What is told of a run.
fn note_of(alloc: Global, round: Round, ran: &Ran) -> Result<RunNote, Memory>
    ensures { IfOk result (λ note. note ≡ record { round = round; steps = ran.now.steps; order = ran.now.order; redo = ran.now.redo }) }
{
    let steps = Vec::from_slice(alloc, ran.steps.items())?;
    let order = Vec::from_slice(alloc, ran.order.items())?;
    Ok(RunNote {
        round,
        steps: Seq::of(steps),
        order: Seq::of(order),
        redo: ran.redo,
    })
}

/// Undoes a run that has just left the store.
fn undo(ran: Ran, store: &mut Store)
    requires left { IsLeftBy ran store.old }
    ensures undone { store.new.map ≡ unwound ran.undo.entries store.old.map }
{
    let mut list = ran.undo;
    store.undo(&mut list);
}

/// Keeps a run that has just left the store. Where there is no memory for its token, it is undone.
fn keep(alloc: Global, job: Job, ran: Ran, store: &mut Store) -> Result<Spec, Memory>
    requires ran { WasRun job ran }
    requires left { IsLeftBy ran store.old }
    ensures job { IfOk result (λ spec. job_of spec ≡ job) }
    ensures ran { IfOk result (λ spec. ran_of spec ≡ ran) }
    ensures token { IfOk result (λ spec. token_of spec ≡ spelling ran.outcome) }
    ensures store { OnOk result (store.new ≡ store.old) }
    ensures undone { OnErr result (store.new.map ≡ unwound ran.undo.entries store.old.map) }
{
    match Spec::begin(alloc, job, ran) {
        Ok(spec) => Ok(spec),
        Err((_job, ran, Memory)) => {
            undo(ran, store);
            Err(Memory)
        }
    }
}

/// Runs a job by the executor. The store holds what the run left.
pub fn run<S: Service, X: Exec<S>>(
    alloc: Global,
    svc: &S,
    exec: &mut X,
    job: Job,
    store: &mut Store,
) -> Result<(Spec, RunNote), Memory>
    requires begins { All (BeginsWell (S.beginning svc.now)) job.segs }
    requires few { length job.segs ≤ 16 }
    requires store { IsStore store.old.map }
    ensures note { IfOk result (λ r. r.1 ≡ record {
      round = job.round;
      steps = (run_job (S.beginning svc.now) job.segs store.old.map r.1.steps).steps;
      order = (run_job (S.beginning svc.now) job.segs store.old.map r.1.steps).order;
      redo = (run_job (S.beginning svc.now) job.segs store.old.map r.1.steps).redo;
    }) }
    ensures claim { IfOk result (λ r. claim_of (Some r.0)
        ≡ Some (claim_by (programs_of (S.table svc.now) (S.beginning svc.now)) store.old.map
        (run_job (S.beginning svc.now) job.segs store.old.map r.1.steps))) }
    ensures stands { IfOk result (λ r. Stands r.0 store.new) }
    ensures start { IfOk result (λ r. unwound (ran_of r.0).undo.entries store.new.map ≡ store.old.map) }
    ensures by_given { IfOk result (λ r. UsesGiven (S.beginning svc.now) job.segs store.old.map (X.given exec.old) r.1.steps) }
    ensures counted { OnOk result (X.runs exec.new ≡ one_more (X.runs exec.old)) }
    ensures noted { IfOk result (λ r. X.last exec.new ≡ Some (record { round = r.1.round; steps = r.1.steps })) }
    ensures kept { X.given exec.new ≡ X.given exec.old }
{
    let round = job.round;
    let ran = exec.run(svc, &job, store)?;
    match note_of(alloc, round, &ran) {
        Ok(note) => {
            let spec = keep(alloc, job, ran, store)?;
            Ok((spec, note))
        }
        Err(Memory) => {
            drop(job);
            undo(ran, store);
            Err(Memory)
        }
    }
}
