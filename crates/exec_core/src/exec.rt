// Executors.
ghost use Rattle.std.specs.Prelude.{◌≡◌, ◌≤◌, ℕ, List, Option, Some, IfOk, OnOk, OnErr, length};
ghost use Rattle.std.specs.List.{All};
ghost use Rattle.exec_model.specs.Jobs.{run_job};
ghost use Rattle.exec_core.specs.Counts.{one_more};
ghost use Rattle.exec_core.specs.Jobs.{BeginsWell, IsRan, UsesGiven};
ghost use Rattle.exec_core.specs.declared.noted.Noted.{Noted};

use crate::Ran;
use aeg_base::Memory;
use exec_model::Job;
use kv_store::Store;
use svc_api::Service;

/// Runs jobs of a service.
pub trait Exec<S: Service> {
    /// How many runs were made.
    ghost runs: { Self → ℕ };

    /// The last of them.
    ghost last: { Self → Option Noted };

    /// The schedule that its runs use, where it has one.
    ghost given: { Self → Option (List ℕ) };

    /// Runs a job. Its steps lead the machine to what it left.
    fn run(&mut self, svc: &S, job: &Job, store: &mut Store) -> Result<Ran, Memory>
        requires begins { All (BeginsWell (S.beginning svc.now)) job.now.segs }
        requires few { length job.now.segs ≤ 32 }
        ensures ran { IfOk result (λ ran. IsRan store.old.map store.new.map (run_job (S.beginning svc.now) job.now.segs store.old.map ran.steps) ran) }
        ensures by_given { IfOk result (λ ran. UsesGiven (S.beginning svc.now) job.now.segs store.old.map (given self.old) ran.steps) }
        ensures room { IfOk result (λ ran. ran.undo.top ≤ store.new.room) }
        ensures unchanged { OnErr result (store.new.map ≡ store.old.map) }
        ensures counted { OnOk result (runs self.new ≡ one_more (runs self.old)) }
        ensures noted { IfOk result (λ ran. last self.new ≡ Some (record { round = job.now.round; steps = ran.steps })) }
        ensures not_counted { OnErr result (runs self.new ≡ runs self.old) }
        ensures not_noted { OnErr result (last self.new ≡ last self.old) }
        ensures kept { given self.new ≡ given self.old };
}
