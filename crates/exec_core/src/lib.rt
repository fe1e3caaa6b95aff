//! Running a job: by a schedule, one after another, and by an executor.
#![tactic(auto)]

mod batch;
mod exec;
mod gate;
mod given;
mod job_run;
mod locks;
mod machine;
mod noted;
mod ran;
mod rounds;
mod run;
mod segments;
mod steps;
mod work;

pub use exec::Exec;
pub use exec_model::{Job, Seg};
pub use gate::{CrossGate, Gate, OpenGate};
pub use given::GivenExec;
pub use job_run::{JobRun, Task};
pub use noted::{Noted, Runs};
pub use ran::Ran;
pub use run::{run_by, run_serial};
