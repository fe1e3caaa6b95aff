// A job whose segments one thread runs, those of a group one after another.
ghost use Rattle.std.specs.Prelude.{◌≡◌, ◌≤◌, length};
ghost use Rattle.std.specs.List.{All};
ghost use Rattle.exec_core.specs.Jobs.{BeginsWell};

use exec_core::{Gate, Job, JobRun, Ran, Task};
use kv_store::Store;
use std::alloc::Global;
use std::marker::Brand;
use std::test::Fail;
use svc_api::Service;

/// Runs a job turn by turn, with a gate.
pub fn run_in_turn<S: Service, G: Gate>(
    gate: &G,
    alloc: Global,
    svc: &S,
    job: &Job,
    store: &mut Store,
) -> Result<Ran, Fail>
    requires begins { All (BeginsWell (S.beginning svc.now)) job.now.segs }
    requires few { length job.now.segs ≤ 32 }
{
    run_task::<S, G, Brand>(gate, alloc, svc, job, store)
}

fn run_task<S: Service, G: Gate, T: Task>(
    gate: &G,
    alloc: Global,
    svc: &S,
    job: &Job,
    store: &mut Store,
) -> Result<Ran, Fail>
    requires begins { All (BeginsWell (S.beginning svc.now)) job.now.segs }
    requires few { length job.now.segs ≤ 32 }
    requires service { S.beginning svc.now ≡ T.begins }
    requires job { job.now.segs ≡ T.segs }
    requires start { store.old.map ≡ T.start }
{
    let mut run: JobRun<'_, S, T> = JobRun::begin(alloc, svc, job, store)?;
    turn_groups(gate, alloc, &mut run, job.segs.items().len())?;
    let ran = run.leave(alloc, store)?;
    Ok(ran)
}

/// Runs one group after another, of which there are at most so many.
fn turn_groups<S: Service, G: Gate, T: Task>(
    gate: &G,
    alloc: Global,
    run: &mut JobRun<'_, S, T>,
    most: usize,
) -> Result<(), Fail> {
    for _ in 0..most {
        let group = run.group(alloc)?;
        turn_members(gate, run, &group);
    }
    Ok(())
}

fn turn_members<S: Service, G: Gate, T: Task>(gate: &G, run: &mut JobRun<'_, S, T>, group: &[u8]) {
    for i in group {
        turn_segment(gate, run, *i);
    }
}

/// The turns of one segment, as long as it runs on.
fn turn_segment<S: Service, G: Gate, T: Task>(gate: &G, run: &mut JobRun<'_, S, T>, i: u8) {
    for step in 0..u16::MAX {
        gate.before(i, step);
        let on = run.turn(i);
        gate.after(i, step);
        if !on {
            return;
        }
    }
}
