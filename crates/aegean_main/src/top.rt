// The top call.
ghost use Rattle.std.specs.Prelude.{◌≡◌, ℕ, List, ◌≤◌, ◌↔◌, ◌⊎◌, ◌∷◌, [], map, string_bytes, length, IfSome, IsTrue};
ghost use Rattle.aeg_base.specs.declared.limits.TheConstants.{INPUT_BYTES, MAX_FAULTS};
ghost use Rattle.aeg_io.specs.Causes.{Rose};
ghost use Rattle.run_model.specs.declared.trace.TraceEvent.{TraceEvent};
ghost use Rattle.world.specs.Disks.{AreBlank};
ghost use Rattle.aegean_main.specs.Answer.{answer_of};
ghost use Rattle.aegean_main.specs.Faults.{IsCounted};
ghost use Rattle.aegean_main.specs.Headline.{Keeps};
ghost use Rattle.aegean_main.specs.Report.{Tells};
ghost use Rattle.aegean_main.specs.Running.{told_with};
ghost use Rattle.aegean_main.specs.Status.{line_for};
ghost use Rattle.aegean_main.specs.Replay.{Answers, PlaysOut, IsItsOwn, IsTheStatus};
ghost use Rattle.aegean_main.specs.Top.{IsSingle, IsReplay, IsCommand, Follows, LeavesAlone, TellsHistory};

use crate::count::BadLine;
use crate::lines::has_lines_within;
use crate::replay::{every_run_keeps, replay_call};
use crate::report::report;
use crate::run::{RunErr, Telling, run_lines};
use crate::status::{LimitKind, Status};
use aeg_base::limits::{INPUT_BYTES, INPUT_LINES};
use aeg_disk::Device;
use aeg_io::{Failed, ReadErr, Sink, Source, put_all, read_all};
use std::alloc::Global;

/// Writes what an input's steps told.
fn send<K: Sink>(out: &mut K, telling: &Telling) -> Status
    ensures follows { Follows (told_with telling.now.text.items telling.now.refused) (K.taken out.old) (K.taken out.new) result }
    ensures nothing { LeavesAlone result (K.taken out.old) (K.taken out.new) }
    ensures write { IsCounted (result ≡ Status.WriteFault) (K.faults out.old) (K.faults out.new) }
    ensures read { ¬ (result ≡ Status.ReadFault) }
    ensures command { ¬ (result ≡ Status.Usage) }
    ensures packets { ¬ (result ≡ Status.Limit LimitKind.Packets) }
{
    if let Err(Failed) = put_all(out, &telling.text) {
        return Status::WriteFault;
    }
    match telling.refused {
        None => Status::Done,
        Some((line, row)) => Status::Illegal { line, row },
    }
}

/// Answers an input and writes what it tells.
fn answer<K: Sink>(alloc: Global, input: &[u8], out: &mut K) -> Status
    requires { length input.now ≤ INPUT_BYTES }
    ensures follows { Follows (answer_of input.now) (K.taken out.old) (K.taken out.new) result }
    ensures nothing { LeavesAlone result (K.taken out.old) (K.taken out.new) }
    ensures write { IsCounted (result ≡ Status.WriteFault) (K.faults out.old) (K.faults out.new) }
    ensures read { ¬ (result ≡ Status.ReadFault) }
    ensures command { ¬ (result ≡ Status.Usage) }
    ensures packets { ¬ (result ≡ Status.Limit LimitKind.Packets) }
{
    if !has_lines_within(input, INPUT_LINES) {
        return Status::Limit(LimitKind::Lines);
    }
    match run_lines(alloc, input) {
        Ok(telling) => send(out, &telling),
        Err(RunErr::Bad(BadLine { line, row })) => Status::Script { line, row },
        Err(RunErr::Memory) => Status::Memory,
    }
}

/// Reads the input, answers it and writes what it tells.
fn single_status<S: Source, K: Sink>(alloc: Global, source: &mut S, out: &mut K) -> Status
    ensures follows { IfSome (S.left source.old) (λ input. Follows (answer_of input) (K.taken out.old) (K.taken out.new) result) }
    ensures nothing { LeavesAlone result (K.taken out.old) (K.taken out.new) }
    ensures read { IsCounted (result ≡ Status.ReadFault) (S.faults source.old) (S.faults source.new) }
    ensures write { IsCounted (result ≡ Status.WriteFault) (K.faults out.old) (K.faults out.new) }
    ensures command { ¬ (result ≡ Status.Usage) }
    ensures packets { ¬ (result ≡ Status.Limit LimitKind.Packets) }
{
    match read_all(alloc, source, INPUT_BYTES) {
        Ok(input) => answer(alloc, input.items(), out),
        Err(ReadErr::Fault) => Status::ReadFault,
        Err(ReadErr::TooLong) => Status::Limit(LimitKind::Bytes),
        Err(ReadErr::Memory) => Status::Memory,
    }
}

/// The command `single`: the steps of the input's lines are made on one server, and what each tells is written.
pub fn single_call<S: Source, K: Sink, E: Sink>(
    alloc: Global,
    source: &mut S,
    out: &mut K,
    err: &mut E,
) -> Status
    ensures follows { IfSome (S.left source.old) (λ input. Follows (answer_of input) (K.taken out.old) (K.taken out.new) result) }
    ensures nothing { LeavesAlone result (K.taken out.old) (K.taken out.new) }
    ensures read { IsCounted (result ≡ Status.ReadFault) (S.faults source.old) (S.faults source.new) }
    ensures write { IsCounted (result ≡ Status.WriteFault) (K.faults out.old) (K.faults out.new) }
    ensures command { ¬ (result ≡ Status.Usage) }
    ensures packets { ¬ (result ≡ Status.Limit LimitKind.Packets) }
    ensures tells { Tells (line_for result) (E.taken err.old) (E.taken err.new) (E.faults err.old) (E.faults err.new) }
{
    let status = single_status(alloc, source, out);
    report(err, status);
    status
}

/// Whether the command line is this word alone.
fn is_word(words: &[String], name: &str) -> bool
    ensures { IsTrue result ↔ (map string_bytes words.now ≡ name.now ∷ []) }
{
    match words {
        [word] => word.as_str() == name,
        _ => false,
    }
}

/// All that the program does, for the words of its command line. `disks` are those of the nodes of `replay`.
pub fn aegean<S: Source, K: Sink, E: Sink, D: Device>(
    alloc: Global,
    words: &[String],
    source: &mut S,
    out: &mut K,
    err: &mut E,
    disks: &mut [D],
) -> Status
    requires blank { AreBlank (map D.state disks.old) }
    ensures usage { (result ≡ Status.Usage) ↔ ¬ IsCommand (map string_bytes words.now) }
    ensures nothing { LeavesAlone result (K.taken out.old) (K.taken out.new) }
    ensures disks { LeavesAlone result disks.old disks.new }
    ensures read { IsCounted (result ≡ Status.ReadFault) (S.faults source.old) (S.faults source.new) }
    ensures write { IsCounted (result ≡ Status.WriteFault) (K.faults out.old) (K.faults out.new) }
    ensures tells { Tells (line_for result) (E.taken err.old) (E.taken err.new) (E.faults err.old) (E.faults err.new) }
    ensures packets { IsSingle (map string_bytes words.now) → ¬ (result ≡ Status.Limit LimitKind.Packets) }
    ensures single { IsSingle (map string_bytes words.now) → IfSome (S.left source.old) (λ input. Follows (answer_of input) (K.taken out.old) (K.taken out.new) result) }
    // At the end of all input the history is legal, and what it tells was written.
    ensures single_history { IsSingle (map string_bytes words.now) → result ≡ Status.Done → IfSome (S.left source.old) (λ input. TellsHistory input (K.taken out.old) (K.taken out.new)) }
    // Without a fault and with memory the status is the one that the input has.
    ensures single_complete { IsSingle (map string_bytes words.now) → ¬ Rose (S.faults source.old) (S.faults source.new) → ¬ Rose (K.faults out.old) (K.faults out.new)
        → IfSome (S.left source.old) (λ input. (result ≡ (answer_of input).status) ⊎ (result ≡ Status.Memory)) }
    ensures single_disks { IsSingle (map string_bytes words.now) → disks.new ≡ disks.old }
    ensures replay { IsReplay (map string_bytes words.now) → IfSome (S.left source.old) (λ input. Answers input (map D.state disks.old) (map D.state disks.new) (K.taken out.old) (K.taken out.new) result) }
    // At the end of all input a whole run was written, and it keeps what every run keeps.
    ensures replay_headline { IsReplay (map string_bytes words.now) → result ≡ Status.Done → IfSome (S.left source.old) (λ input. PlaysOut input (map D.state disks.old) (map D.state disks.new) (K.taken out.old) (K.taken out.new)) }
    ensures replay_complete { IsReplay (map string_bytes words.now) → ¬ Rose (S.faults source.old) (S.faults source.new) → ¬ Rose (K.faults out.old) (K.faults out.new)
        → IfSome (S.left source.old) (λ input. IsItsOwn input (map D.state disks.old) (map D.state disks.new) result) }
    // And where no disk counted a fault either, it has no other.
    ensures replay_only { IsReplay (map string_bytes words.now) → ¬ Rose (S.faults source.old) (S.faults source.new) → ¬ Rose (K.faults out.old) (K.faults out.new)
        → IfSome (S.left source.old) (λ input. IsTheStatus input (map D.state disks.old) (map D.state disks.new) result) }
    // Every run of the booking service keeps what the laws of the tiers say.
    ensures every { (u depth : ℕ) (es : List TraceEvent) → u ≤ MAX_FAULTS → Keeps u depth es }
{
    every_run_keeps();
    if is_word(words, "single") {
        return single_call(alloc, source, out, err);
    }
    if is_word(words, "replay") {
        return replay_call(alloc, source, out, err, disks);
    }
    report(err, Status::Usage);
    Status::Usage
}
