// The threads of a group, each with the turns of its segment.
use exec_core::{Gate, JobRun, Task};
use std::sync::{Mutex, Wait};
use std::thread;
use std::thread::Threads;
use svc_api::Service;

/// Runs the segments of a group, each on a thread of its own, and joins them. Where no thread can be made the caller runs
/// the segment itself.
pub fn run_group<S: Service + Sync, G: Gate + Sync, R: Threads + Wait, T: Task + Send + Sync>(
    rt: &R,
    gate: &G,
    shared: &Mutex<JobRun<'_, S, T>>,
    group: &[u8],
)
where
    S::Prog: Send,
{
    thread::scope(thread::scope_env(), rt, |scope| {
        for member in group {
            let i = *member;
            if scope.spawn(move || run_segment(gate, shared, i)).is_err() {
                run_segment(gate, shared, i);
            }
        }
    });
}

/// The turns of one segment, until it has ended or its group was undone. The gate is called round each, outside the lock.
pub fn run_segment<S: Service, G: Gate, T: Task>(
    gate: &G,
    shared: &Mutex<JobRun<'_, S, T>>,
    i: u8,
) {
    for step in 0..u16::MAX {
        gate.before(i, step);
        let on = make_step(shared, i);
        gate.after(i, step);
        if !on {
            return;
        }
    }
}

/// One step under the lock. Answers whether the segment runs on.
fn make_step<S: Service, T: Task>(shared: &Mutex<JobRun<'_, S, T>>, i: u8) -> bool {
    for _ in 0..u64::MAX {
        match shared.try_lock() {
            Some(mut run) => return run.turn(i),
            None => thread::yield_now(),
        }
    }
    false
}
