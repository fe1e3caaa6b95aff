// The command `replay`.
ghost use Rattle.std.specs.Prelude.{◌≡◌, ℕ, ◌≤◌, List, length, map, IfSome};
ghost use Rattle.aeg_base.specs.declared.limits.TheConstants.{INPUT_BYTES, MAX_FAULTS};
ghost use Rattle.aeg_disk.specs.Disk.{DiskState};
ghost use Rattle.run_model.specs.declared.trace.TraceEvent.{TraceEvent};
ghost use Rattle.world.specs.Disks.{AreBlank};
ghost use Rattle.aegean_main.specs.DiskFaults.{NoneRose};
ghost use Rattle.aegean_main.specs.Faults.{IsCounted};
ghost use Rattle.aegean_main.specs.Headline.{Keeps};
ghost use Rattle.aegean_main.specs.Replay.{ReadsAs, Comes, Answers, PlaysOut};
ghost use Rattle.aegean_main.specs.Report.{Tells};
ghost use Rattle.aegean_main.specs.Status.{line_for};
ghost use Rattle.aegean_main.specs.Top.{LeavesAlone};
ghost use Rattle.aegean_main.specs.declared.status.Status.{Status};

use crate::lines::has_lines_within;
use crate::playing::{Halt, play_script};
use crate::report::report;
use crate::status::{LimitKind, Status};
use aeg_base::limits::{INPUT_BYTES, INPUT_LINES, MAX_FAULTS};
use aeg_disk::Device;
use aeg_io::{ReadErr, Sink, Source, read_all};
use net_script::{Script, ScriptErr, parse_script};
use std::alloc::Global;
use tier_laws::{booking_agreement, booking_headline};

/// Every run of the booking service keeps what the laws of the tiers say, whatever its events are.
pub fn every_run_keeps()
    ensures { (u depth : ℕ) (es : List TraceEvent) → u ≤ MAX_FAULTS → Keeps u depth es }
{
    booking_agreement();
    booking_headline();
}

/// So does every run of a script.
fn its_runs_keep(script: &Script)
    ensures { (es : List TraceEvent) → Keeps script.now.u script.now.depth es }
{
    let few = script.u() <= MAX_FAULTS;
    prove!(few);
    every_run_keeps();
}

/// An input has one status and one text: on disks that counted no fault two ways in which it ends are one.
pub fn input_has_one_status()
    ensures status { (input : List ℕ) (before after later : List DiskState) (s t : Status) (a b : List ℕ) → NoneRose before after → NoneRose before later → Comes input before after s a → Comes input before later t b → s ≡ t }
    ensures text { (input : List ℕ) (before after later : List DiskState) (s t : Status) (a b : List ℕ) → NoneRose before after → NoneRose before later → Comes input before after s a → Comes input before later t b → a ≡ b }
{}

/// Plays a script and tells how its run ended.
fn play<D: Device, K: Sink>(alloc: Global, script: &Script, disks: &mut [D], out: &mut K) -> Status
    requires blank { AreBlank (map D.state disks.old) }
    ensures follows { (input : List ℕ) → ReadsAs input script.now → Answers input (map D.state disks.old) (map D.state disks.new) (K.taken out.old) (K.taken out.new) result }
    ensures nothing { LeavesAlone result (K.taken out.old) (K.taken out.new) }
    ensures disks { LeavesAlone result disks.old disks.new }
    ensures write { IsCounted (result ≡ Status.WriteFault) (K.faults out.old) (K.faults out.new) }
    ensures read { ¬ (result ≡ Status.ReadFault) }
    ensures command { ¬ (result ≡ Status.Usage) }
{
    its_runs_keep(script);
    match play_script(alloc, script, disks, out) {
        Ok(()) => Status::Done,
        Err(Halt::Limit) => Status::Limit(LimitKind::Packets),
        Err(Halt::Write) => Status::WriteFault,
        Err(Halt::Memory) => Status::Memory,
    }
}

/// Answers an input and writes what its run prints.
fn answer<D: Device, K: Sink>(alloc: Global, input: &[u8], disks: &mut [D], out: &mut K) -> Status
    requires bytes { length input.now ≤ INPUT_BYTES }
    requires blank { AreBlank (map D.state disks.old) }
    ensures follows { Answers input.now (map D.state disks.old) (map D.state disks.new) (K.taken out.old) (K.taken out.new) result }
    ensures nothing { LeavesAlone result (K.taken out.old) (K.taken out.new) }
    ensures disks { LeavesAlone result disks.old disks.new }
    ensures write { IsCounted (result ≡ Status.WriteFault) (K.faults out.old) (K.faults out.new) }
    ensures read { ¬ (result ≡ Status.ReadFault) }
    ensures command { ¬ (result ≡ Status.Usage) }
{
    if !has_lines_within(input, INPUT_LINES) {
        return Status::Limit(LimitKind::Lines);
    }
    match parse_script(alloc, input) {
        Ok(script) => play(alloc, &script, disks, out),
        Err(ScriptErr::BadLine { line, row }) => Status::Script { line, row },
        Err(ScriptErr::Memory) => Status::Memory,
    }
}

/// Reads the input, answers it and writes what its run prints.
fn replay_status<S: Source, K: Sink, D: Device>(
    alloc: Global,
    source: &mut S,
    out: &mut K,
    disks: &mut [D],
) -> Status
    requires blank { AreBlank (map D.state disks.old) }
    ensures follows { IfSome (S.left source.old) (λ input. Answers input (map D.state disks.old) (map D.state disks.new) (K.taken out.old) (K.taken out.new) result) }
    ensures nothing { LeavesAlone result (K.taken out.old) (K.taken out.new) }
    ensures disks { LeavesAlone result disks.old disks.new }
    ensures read { IsCounted (result ≡ Status.ReadFault) (S.faults source.old) (S.faults source.new) }
    ensures write { IsCounted (result ≡ Status.WriteFault) (K.faults out.old) (K.faults out.new) }
    ensures command { ¬ (result ≡ Status.Usage) }
{
    match read_all(alloc, source, INPUT_BYTES) {
        Ok(input) => answer(alloc, input.items(), disks, out),
        Err(ReadErr::Fault) => Status::ReadFault,
        Err(ReadErr::TooLong) => Status::Limit(LimitKind::Bytes),
        Err(ReadErr::Memory) => Status::Memory,
    }
}

/// The command `replay`: the events that the input's script comes to are made one after another, and what each prints is
/// written before the next begins. At the end come the closing lines. `disks` are those of five middle nodes, of five of
/// inventory and of five of payment; a script of fewer nodes leaves the others blank.
pub fn replay_call<S: Source, K: Sink, E: Sink, D: Device>(
    alloc: Global,
    source: &mut S,
    out: &mut K,
    err: &mut E,
    disks: &mut [D],
) -> Status
    requires blank { AreBlank (map D.state disks.old) }
    ensures follows { IfSome (S.left source.old) (λ input. Answers input (map D.state disks.old) (map D.state disks.new) (K.taken out.old) (K.taken out.new) result) }
    // At the end of all input a whole run was written, and it keeps what every run keeps.
    ensures headline { result ≡ Status.Done → IfSome (S.left source.old) (λ input. PlaysOut input (map D.state disks.old) (map D.state disks.new) (K.taken out.old) (K.taken out.new)) }
    ensures every { (u depth : ℕ) (es : List TraceEvent) → u ≤ MAX_FAULTS → Keeps u depth es }
    ensures nothing { LeavesAlone result (K.taken out.old) (K.taken out.new) }
    ensures disks { LeavesAlone result disks.old disks.new }
    ensures read { IsCounted (result ≡ Status.ReadFault) (S.faults source.old) (S.faults source.new) }
    ensures write { IsCounted (result ≡ Status.WriteFault) (K.faults out.old) (K.faults out.new) }
    ensures command { ¬ (result ≡ Status.Usage) }
    ensures tells { Tells (line_for result) (E.taken err.old) (E.taken err.new) (E.faults err.old) (E.faults err.new) }
{
    every_run_keeps();
    let status = replay_status(alloc, source, out, disks);
    report(err, status);
    status
}
