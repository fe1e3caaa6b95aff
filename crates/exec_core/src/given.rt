// An executor with a schedule.
ghost use Rattle.std.specs.Prelude.{◌≡◌, None};
ghost use Rattle.exec_core.specs.Given.{schedule_of, count_of, last_of};

use crate::exec::Exec;
use crate::noted::Runs;
use crate::ran::Ran;
use crate::run::run_by;
use aeg_base::Memory;
use exec_model::Job;
use kv_store::Store;
use std::alloc::Global;
use svc_api::Service;

/// Runs each job by the same schedule.
#[derive(Debug, Drop)]
pub struct GivenExec {
    alloc: Global,
    schedule: Vec<u8>,
    runs: Runs,
}

impl GivenExec {
    pub fn new(alloc: Global, schedule: Vec<u8>) -> Self
        ensures given { schedule_of result ≡ schedule.items }
        ensures runs { count_of result ≡ 0 }
        ensures last { last_of result ≡ None }
    {
        GivenExec {
            alloc,
            schedule,
            runs: Runs::new(),
        }
    }
}

impl<S: Service> Exec<S> for GivenExec {
    ghost use Rattle.std.specs.Prelude.{Some};
    ghost use Rattle.exec_core.specs.Given.{schedule_of, count_of, last_of};

    ghost runs = { λ x. count_of x };

    ghost last = { λ x. last_of x };

    ghost given = { λ x. Some (schedule_of x) };

    fn run(&mut self, svc: &S, job: &Job, store: &mut Store) -> Result<Ran, Memory> {
        let ran = run_by(self.alloc, svc, job, &self.schedule, store)?;
        self.runs.note(self.alloc, job.round, ran, store)
    }
}
