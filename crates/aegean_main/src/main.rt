//! The program: `aegean single` reads steps of the one server and writes what they tell, and `aegean replay` plays a
//! script in the three tiers and writes what its events print. The nodes' disks are in memory.
#![tactic(auto)]

ghost use Rattle.std.specs.Prelude.{◌≡◌};
ghost use Rattle.std.specs.Process.{exit_status};
ghost use Rattle.aegean_main.specs.Report.{Tells};
ghost use Rattle.aegean_main.specs.Status.{code_of, line_for};

mod count;
mod lines;
mod playing;
mod reading;
mod replay;
mod report;
mod run;
mod status;
#[cfg(test)]
mod tests;
mod told;
mod top;

use aeg_io::{Sink, StdSink, StdSource};
pub use replay::replay_call;
use report::report;
pub use status::{LimitKind, Status};
use std::process::ExitCode;
use std::{env, io};
pub use top::{aegean, single_call};
use world::memory_disks;

/// The words of the command line behind the program's name.
fn words_of(rt: &(impl std::rt::Env + AllocGlobal)) -> io::Result<Vec<String>> {
    let mut words = Vec::new(rt.alloc());
    for word in env::args(rt)?.skip(1) {
        words.push(word)?;
    }
    Ok(words)
}

/// Tells that there is no memory for the words of the command line or for the disks.
fn out_of_memory<E: Sink>(err: &mut E) -> ExitCode
    ensures code { exit_status result ≡ code_of Status.Memory }
    ensures tells { Tells (line_for Status.Memory) (E.taken err.old) (E.taken err.new) (E.faults err.old) (E.faults err.new) }
{
    report(err, Status::Memory);
    Status::Memory.exit_code()
}

fn main(rt: HostRuntime) -> ExitCode {
    let mut source = StdSource::new(rt.reader());
    let mut out = StdSink::new(io::writer(&rt));
    let mut err = StdSink::new(rt.stderr());
    let Ok(words) = words_of(&rt) else {
        return out_of_memory(&mut err);
    };
    let Ok(mut disks) = memory_disks(rt.alloc(), Vec::new(rt.alloc())) else {
        return out_of_memory(&mut err);
    };
    let status = aegean(
        rt.alloc(),
        &words,
        &mut source,
        &mut out,
        &mut err,
        &mut disks,
    );
    status.exit_code()
}
