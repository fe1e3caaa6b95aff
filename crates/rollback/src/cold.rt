// A verdict at a node that hasn't run the job.
ghost use Rattle.std.specs.Prelude.{◌≡◌, ◌≤◌, ◌<◌, Some, IfOk, OnOk, OnErr, length};
ghost use Rattle.std.specs.List.{All, AllByRecursion};
ghost use Rattle.aeg_base.specs.Store.{written_all};
ghost use Rattle.svc_api.specs.declared.outcome.Outcome.{Outcome};
ghost use Rattle.exec_model.specs.Jobs.{below, serial_store};
ghost use Rattle.exec_core.specs.Jobs.{BeginsWell};
ghost use Rattle.log_values.specs.Outcomes.{FitsPair};
ghost use Rattle.rollback.specs.Settled.{told, IsReadable, IsSerial, Settled, serial_outcome};

use aeg_base::{Key, Memory};
use exec_core::{Job, run_serial};
use kv_store::{Store, UndoList};
use log_values::{Token, Verdict, read_outcome};
use std::alloc::Global;
use svc_api::{Outcome, Service};

/// Applies a round's verdict to the store at the job's start. A Commit's pairs are written, and no answer is looked at;
/// at Serial the segments run one after another in job order. After want of memory the store holds what it held.
pub fn settle_cold<S: Service>(
    alloc: Global,
    svc: &S,
    job: &Job,
    verdict: &Verdict,
    store: &mut Store,
) -> Result<Outcome, Memory>
    requires reads { IsReadable verdict.now (length job.now.segs) }
    requires begins { IsSerial verdict.now → All (BeginsWell (S.beginning svc.now)) job.now.segs }
    requires few { IsSerial verdict.now → length job.now.segs ≤ 32 }
    ensures settled { IfOk result (Settled (S.beginning svc.now) job.now.segs verdict.now store.old.map store.new.map) }
    ensures unchanged { OnErr result (store.new.map ≡ store.old.map) }
{
    match verdict {
        Verdict::Commit { token, .. } => write_told(alloc, token, store),
        Verdict::Serial => run_in_job_order(alloc, svc, job, store),
    }
}

// Writes the pairs of the outcome that a token tells.
fn write_told(alloc: Global, token: &Token, store: &mut Store) -> Result<Outcome, Memory>
    requires { (o : Outcome) × (told token.now ≡ Some o) }
    ensures told { IfOk result (λ o. told token.now ≡ Some o) }
    ensures written { IfOk result (λ o. store.new.map ≡ written_all store.old.map o.pairs) }
    ensures unchanged { OnErr result (store.new.map ≡ store.old.map) }
{
    let Some(outcome) = read_outcome(alloc, token)? else {
        unreachable!()
    };
    write_all(alloc, outcome.pairs.items(), store)?;
    Ok(outcome)
}

// Writes these pairs, once there is room for all of them.
fn write_all(alloc: Global, pairs: &[(Key, u64)], store: &mut Store) -> Result<(), Memory>
    requires { AllByRecursion FitsPair pairs.now }
    ensures written { OnOk result (store.new.map ≡ written_all store.old.map pairs.now) }
    ensures unchanged { OnErr result (store.new.map ≡ store.old.map) }
{
    let mut undo = UndoList::new(alloc);
    store.reserve(&mut undo, pairs.len())?;
    'pairs: for &(key, value) in pairs {
        store.put_logged(&mut undo, key, value);
    }
    Ok(())
}

fn run_in_job_order<S: Service>(
    alloc: Global,
    svc: &S,
    job: &Job,
    store: &mut Store,
) -> Result<Outcome, Memory>
    requires begins { All (BeginsWell (S.beginning svc.now)) job.now.segs }
    requires few { length job.now.segs ≤ 32 }
    ensures store { OnOk result (store.new.map ≡ serial_store (S.beginning svc.now) job.now.segs store.old.map (below (length job.now.segs))) }
    ensures outcome { IfOk result (λ o. o ≡ serial_outcome (S.beginning svc.now) job.now.segs store.old.map (below (length job.now.segs))) }
    ensures unchanged { OnErr result (store.new.map ≡ store.old.map) }
{
    let order = numbers(alloc, job.segs.items().len())?;
    let ran = run_serial(alloc, svc, job, &order, store)?;
    Ok(ran.outcome)
}

// The numbers below this, in order.
fn numbers(alloc: Global, count: usize) -> Result<Vec<u8>, Memory>
    requires { count ≤ 256 }
    ensures { IfOk result (λ order. order.items ≡ below count) }
{
    let mut order = Vec::new(alloc);
    'numbers: for i in 0..count {
        order.push(i as u8)?;
    }
    Ok(order)
}
