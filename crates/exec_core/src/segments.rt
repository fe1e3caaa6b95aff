// Segments of a job: how each begins, and one after another whole.
ghost use Rattle.std.specs.Prelude.{◌≡◌, ℕ, ◌*◌, ◌<◌, ◌≤◌, Option, Some, None, IfOk, OnOk, length};
ghost use Rattle.std.specs.List.{All};
ghost use Rattle.svc_api.specs.Plan.{store_after, ending_of};
ghost use Rattle.exec_model.specs.Serial.{serial, serial_end};
ghost use Rattle.exec_model.specs.Machine.{or_ended};
ghost use Rattle.exec_model.specs.Groups.{times};
ghost use Rattle.exec_model.specs.Jobs.{plan_at, locks_at};
ghost use Rattle.exec_core.specs.Jobs.{BeginsWell};
ghost use Rattle.exec_core.specs.States.{progress_of};

use crate::machine::Slot;
use aeg_base::{Cells, Memory};
use exec_model::Seg;
use svc_api::{Ending, Service, run_segment};

/// A segment's program, and the answer that it is told first.
pub fn begin_one<S: Service>(svc: &S, segs: &[Seg], i: u8) -> Result<(S::Prog, Option<u64>), Memory>
    requires begins { All (BeginsWell (S.beginning svc.now)) segs.now }
    requires here { i < length segs.now }
    ensures plan { IfOk result (λ p. S.Prog.plan p.0 p.1 ≡ plan_at (S.beginning svc.now) segs.now i) }
    ensures locks { IfOk result (λ p. S.Prog.locks p.0 ≡ locks_at (S.beginning svc.now) segs.now i) }
{
    let seg = &segs[usize::from(i)];
    let Some(prog) = svc.begin(seg.who, &seg.body, seg.stage)? else {
        unreachable!()
    };
    Ok((prog, widened(seg.answer)))
}

fn widened(answer: Option<u8>) -> Option<u64>
    ensures { result ≡ answer }
{
    match answer {
        Some(code) => Some(u64::from(code)),
        None => None,
    }
}

/// Runs one segment of a job whole.
fn run_one<S: Service, C: Cells>(
    svc: &S,
    segs: &[Seg],
    cells: &mut C,
    i: u8,
) -> Result<Ending, Memory>
    requires begins { All (BeginsWell (S.beginning svc.now)) segs.now }
    requires here { i < length segs.now }
    ensures ending { IfOk result (λ end. end ≡ ending_of (plan_at (S.beginning svc.now) segs.now i) (C.store cells.old)) }
    ensures store { OnOk result (C.store cells.new ≡ store_after (plan_at (S.beginning svc.now) segs.now i) (C.store cells.old)) }
    ensures start { C.start cells.new ≡ C.start cells.old }
{
    let (mut prog, answer) = begin_one(svc, segs, i)?;
    run_segment(&mut prog, answer, cells)
}

/// Runs the segments of a group whole, one after another.
pub fn rerun<S: Service, C: Cells>(
    svc: &S,
    segs: &[Seg],
    slots: &mut [Slot<S::Prog>],
    cells: &mut C,
    group: &[u8],
) -> Result<(), Memory>
    requires begins { All (BeginsWell (S.beginning svc.now)) segs.now }
    requires here { All (λ j. j < length segs.now) group.now }
    requires members { All (λ j. j < length slots.old) group.now }
    requires once { (j : ℕ) → times j group.now ≤ 1 }
    ensures store { OnOk result (C.store cells.new ≡ serial (plan_at (S.beginning svc.now) segs.now) (C.store cells.old) group.now) }
    ensures ends { OnOk result ((j : ℕ) → progress_of S.Prog.plan slots.new j ≡
        or_ended (serial_end (plan_at (S.beginning svc.now) segs.now) (C.store cells.old) group.now j) (progress_of S.Prog.plan slots.old j)) }
    ensures start { C.start cells.new ≡ C.start cells.old }
{
    for i in group {
        let ending = run_one(svc, segs, cells, *i)?;
        slots[usize::from(*i)] = Slot::Ended(ending);
    }
    Ok(())
}
