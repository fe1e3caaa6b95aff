// Groups of segments that take turns: by the schedule, then lowest first, and again where a lock is found held.
ghost use Rattle.std.specs.Prelude.{◌≡◌, ℕ, ◌+◌, ◌*◌, ◌<◌, ◌≤◌, IfOk, OnOk, true, false, length, drop, [], ◌∷◌, ◌++◌};
ghost use Rattle.std.specs.List.{All};
ghost use Rattle.exec_model.specs.Serial.{serial, serial_end};
ghost use Rattle.exec_model.specs.Machine.{State, or_ended, is_running as runs, any_running as any_runs, turn as turn_of, turns as turns_of, finish as finish_of, complete as complete_of, concat, next};
ghost use Rattle.svc_api.specs.Orders.{mem};
ghost use Rattle.exec_model.specs.Groups.{times, AreFull};
ghost use Rattle.exec_model.specs.Jobs.{plan_at};
ghost use Rattle.key_mixer.specs.Lists.{lists_of};
ghost use Rattle.exec_core.specs.Jobs.{BeginsWell};
ghost use Rattle.exec_core.specs.Rounds.{CanRun, LeavesOthers, RunsOn};
ghost use Rattle.exec_core.specs.States.{owner_of, progress_of, whole_of, going, begun, AreMembers, left_of};

use crate::locks::clear;
use crate::machine::{Logged, Machine, any_running, is_running};
use crate::segments::rerun;
use crate::steps::{Went, step};
use aeg_base::Memory;
use exec_model::Seg;
use svc_api::Service;

pub fn contains(xs: &[u8], i: u8) -> bool
    ensures { result ≡ mem i xs.now }
{
    for x in xs {
        if *x == i {
            return true;
        }
    }
    false
}

/// Puts these numbers in the place of what a list has.
fn replace(list: &mut Vec<u8>, with: &[u8]) -> Result<(), Memory>
    ensures { OnOk result (list.new.items ≡ with.now) }
{
    list.clear();
    if list.extend_from_slice(with).is_err() {
        return Err(Memory);
    }
    Ok(())
}

/// Undoes a group, and runs it again one segment after another; `i` is the segment that found a lock held.
fn again<S: Service, C: Logged>(
    svc: &S,
    segs: &[Seg],
    group: &[u8],
    m: &mut Machine<S::Prog>,
    cells: &mut C,
    i: u8,
) -> Result<(), Memory>
    requires group { CanRun (S.beginning svc.now) segs.now group.now m.old }
    ensures store { OnOk result (C.store cells.new ≡ serial (plan_at (S.beginning svc.now) segs.now) (C.base cells.old) group.now) }
    ensures owner { OnOk result ((l : ℕ) → owner_of m.new.owner.items l ≡ 0) }
    ensures ends { OnOk result ((j : ℕ) → progress_of S.Prog.plan m.new.slots.items j ≡
        or_ended (serial_end (plan_at (S.beginning svc.now) segs.now) (C.base cells.old) group.now j) (progress_of S.Prog.plan m.old.slots.items j)) }
    ensures done { OnOk result (m.new.done.items ≡ group.now) }
    ensures steps { OnOk result (m.new.steps.items ≡ m.old.steps.items ++ i ∷ []) }
    ensures redo { OnOk result (m.new.redo ≡ m.old.redo + 1) }
    ensures slots { OnOk result (length m.new.slots.items ≡ length m.old.slots.items) }
    ensures locks { OnOk result (length m.new.owner.items ≡ length m.old.owner.items) }
    ensures start { C.start cells.new ≡ C.start cells.old }
{
    cells.undo();
    rerun(svc, segs, &mut m.slots, cells, group)?;
    clear(&mut m.owner);
    replace(&mut m.done, group)?;
    m.redo += 1;
    if m.steps.push(i).is_err() {
        return Err(Memory);
    }
    Ok(())
}

/// One entry of the schedule, at a segment of the group. Answers whether the group is over with it.
pub fn turn<S: Service, C: Logged>(
    svc: &S,
    segs: &[Seg],
    group: &[u8],
    m: &mut Machine<S::Prog>,
    cells: &mut C,
    i: u8,
) -> Result<bool, Memory>
    requires group { CanRun (S.beginning svc.now) segs.now group.now m.old }
    requires member { mem i group.now ≡ true }
    requires locks { length m.old.owner.items ≡ 256 }
    requires small { i < 255 }
    ensures turn { IfOk result (λ over. (t : State) → t.group ≡ group.now →
        going S.Prog.plan m.new (C.store cells.new) (C.base cells.new) over t
        ≡ turn_of (plan_at (S.beginning svc.now) segs.now) (whole_of S.Prog.plan m.old (C.store cells.old) (C.base cells.old) t) i) }
    ensures over { IfOk result (RunsOn S.Prog.plan group.now m.old m.new) }
    ensures ended { IfOk result (λ over. over ≡ true → any_runs (progress_of S.Prog.plan m.new.slots.items) group.now ≡ false) }
    ensures slots { OnOk result (length m.new.slots.items ≡ length m.old.slots.items) }
    ensures locks { OnOk result (length m.new.owner.items ≡ 256) }
    ensures redo { IfOk result (λ over. over ≡ false → m.new.redo ≡ m.old.redo) }
    ensures falls { IfOk result (λ over. over ≡ false → runs (progress_of S.Prog.plan m.old.slots.items i) ≡ true →
        left_of S.Prog.budget m.new.slots.items i < left_of S.Prog.budget m.old.slots.items i) }
    ensures outside { OnOk result (LeavesOthers S.Prog.plan group.now m.old m.new) }
    ensures redo_most { OnOk result (m.new.redo ≤ m.old.redo + 1) }
    ensures start { C.start cells.new ≡ C.start cells.old }
{
    match step(m, cells, i)? {
        Went::Skipped => Ok(false),
        Went::Moved | Went::Left => Ok(!any_running(&m.slots, group)),
        Went::Busy => {
            again(svc, segs, group, m, cells, i)?;
            Ok(true)
        }
    }
}

/// One entry of the schedule, which is passed over where its segment is not in the group. Answers whether the group is
/// over with it.
fn entry<S: Service, C: Logged>(
    svc: &S,
    segs: &[Seg],
    group: &[u8],
    m: &mut Machine<S::Prog>,
    cells: &mut C,
    i: u8,
) -> Result<bool, Memory>
    requires group { CanRun (S.beginning svc.now) segs.now group.now m.old }
    requires numbers { All (λ j. j < 255) group.now }
    requires locks { length m.old.owner.items ≡ 256 }
    ensures turn { IfOk result (λ over. (t : State) → t.group ≡ group.now →
        going S.Prog.plan m.new (C.store cells.new) (C.base cells.new) over t
        ≡ turn_of (plan_at (S.beginning svc.now) segs.now) (whole_of S.Prog.plan m.old (C.store cells.old) (C.base cells.old) t) i) }
    ensures over { IfOk result (RunsOn S.Prog.plan group.now m.old m.new) }
    ensures slots { OnOk result (length m.new.slots.items ≡ length m.old.slots.items) }
    ensures locks { OnOk result (length m.new.owner.items ≡ 256) }
    ensures redo { IfOk result (λ over. over ≡ false → m.new.redo ≡ m.old.redo) }
    ensures outside { OnOk result (LeavesOthers S.Prog.plan group.now m.old m.new) }
    ensures redo_most { OnOk result (m.new.redo ≤ m.old.redo + 1) }
    ensures start { C.start cells.new ≡ C.start cells.old }
{
    if contains(group, i) {
        turn(svc, segs, group, m, cells, i)
    } else {
        Ok(false)
    }
}

/// Uses up a schedule, as long as the group is not over: how many entries were used, and whether it is over.
fn use_schedule<S: Service, C: Logged>(
    svc: &S,
    segs: &[Seg],
    group: &[u8],
    schedule: &[u8],
    m: &mut Machine<S::Prog>,
    cells: &mut C,
) -> Result<(usize, bool), Memory>
    requires group { CanRun (S.beginning svc.now) segs.now group.now m.old }
    requires numbers { All (λ j. j < 255) group.now }
    requires locks { length m.old.owner.items ≡ 256 }
    requires runs { any_runs (progress_of S.Prog.plan m.old.slots.items) group.now ≡ true }
    ensures turns { IfOk result (λ r. (t : State) → t.group ≡ group.now →
        turns_of (plan_at (S.beginning svc.now) segs.now) (going S.Prog.plan m.new (C.store cells.new) (C.base cells.new) r.1 t) (drop r.0 schedule.now)
        ≡ turns_of (plan_at (S.beginning svc.now) segs.now) (whole_of S.Prog.plan m.old (C.store cells.old) (C.base cells.old) t) schedule.now) }
    ensures used { IfOk result (λ r. r.1 ≡ false → r.0 ≡ length schedule.now) }
    ensures within { IfOk result (λ r. r.0 ≤ length schedule.now) }
    ensures slots { OnOk result (length m.new.slots.items ≡ length m.old.slots.items) }
    ensures locks { OnOk result (length m.new.owner.items ≡ 256) }
    ensures redo { IfOk result (λ r. r.1 ≡ false → m.new.redo ≡ m.old.redo) }
    ensures outside { OnOk result (LeavesOthers S.Prog.plan group.now m.old m.new) }
    ensures redo_most { OnOk result (m.new.redo ≤ m.old.redo + 1) }
    ensures running { IfOk result (λ r. r.1 ≡ false → any_runs (progress_of S.Prog.plan m.new.slots.items) group.now ≡ true) }
    ensures start { C.start cells.new ≡ C.start cells.old }
{
    let mut over = false;
    let mut used: usize = 0;
    'entries: while !over && used < schedule.len() {
        over = entry(svc, segs, group, m, cells, schedule[used])?;
        used += 1;
    }
    Ok((used, over))
}

/// Finishes a group, the lowest unfinished segment first.
fn finish_group<S: Service, C: Logged>(
    svc: &S,
    segs: &[Seg],
    group: &[u8],
    m: &mut Machine<S::Prog>,
    cells: &mut C,
) -> Result<(), Memory>
    requires group { CanRun (S.beginning svc.now) segs.now group.now m.old }
    requires numbers { All (λ j. j < 255) group.now }
    requires locks { length m.old.owner.items ≡ 256 }
    requires runs { any_runs (progress_of S.Prog.plan m.old.slots.items) group.now ≡ true }
    ensures finished { OnOk result ((t : State) → t.group ≡ group.now →
        finish_of (plan_at (S.beginning svc.now) segs.now) (concat t.later) (next (whole_of S.Prog.plan m.new (C.store cells.new) (C.base cells.new) t))
        ≡ finish_of (plan_at (S.beginning svc.now) segs.now) (group.now ++ concat t.later) (whole_of S.Prog.plan m.old (C.store cells.old) (C.base cells.old) t)) }
    ensures slots { OnOk result (length m.new.slots.items ≡ length m.old.slots.items) }
    ensures locks { OnOk result (length m.new.owner.items ≡ 256) }
    ensures outside { OnOk result (LeavesOthers S.Prog.plan group.now m.old m.new) }
    ensures redo_most { OnOk result (m.new.redo ≤ m.old.redo + 1) }
    ensures start { C.start cells.new ≡ C.start cells.old }
{
    let mut over = false;
    'members: for i in group {
        'one: while !over && is_running(&m.slots[usize::from(*i)]) {
            over = turn(svc, segs, group, m, cells, *i)?;
        }
    }
    Ok(())
}

/// Runs a group to its end: by the schedule, and then lowest first. Answers how many entries it used up.
fn run_group<S: Service, C: Logged>(
    svc: &S,
    segs: &[Seg],
    group: &[u8],
    schedule: &[u8],
    m: &mut Machine<S::Prog>,
    cells: &mut C,
) -> Result<usize, Memory>
    requires group { CanRun (S.beginning svc.now) segs.now group.now m.old }
    requires numbers { All (λ j. j < 255) group.now }
    requires locks { length m.old.owner.items ≡ 256 }
    requires runs { any_runs (progress_of S.Prog.plan m.old.slots.items) group.now ≡ true }
    ensures run { IfOk result (λ used. (t : State) → t.group ≡ group.now →
        complete_of (plan_at (S.beginning svc.now) segs.now) (turns_of (plan_at (S.beginning svc.now) segs.now) (next (whole_of S.Prog.plan m.new (C.store cells.new) (C.base cells.new) t)) (drop used schedule.now))
        ≡ complete_of (plan_at (S.beginning svc.now) segs.now) (turns_of (plan_at (S.beginning svc.now) segs.now) (whole_of S.Prog.plan m.old (C.store cells.old) (C.base cells.old) t) schedule.now)) }
    ensures used { IfOk result (λ used. used ≤ length schedule.now) }
    ensures slots { OnOk result (length m.new.slots.items ≡ length m.old.slots.items) }
    ensures locks { OnOk result (length m.new.owner.items ≡ 256) }
    ensures outside { OnOk result (LeavesOthers S.Prog.plan group.now m.old m.new) }
    ensures redo_most { OnOk result (m.new.redo ≤ m.old.redo + 2) }
    ensures start { C.start cells.new ≡ C.start cells.old }
{
    let (used, over) = use_schedule(svc, segs, group, schedule, m, cells)?;
    if !over {
        finish_group(svc, segs, group, m, cells)?;
    }
    Ok(used)
}

/// Runs a job by a schedule, from a machine that holds no lock.
pub fn run_groups<S: Service, C: Logged>(
    svc: &S,
    segs: &[Seg],
    groups: &[Vec<u8>],
    schedule: &[u8],
    m: &mut Machine<S::Prog>,
    order: &mut Vec<u8>,
    cells: &mut C,
) -> Result<(), Memory>
    requires begins { All (BeginsWell (S.beginning svc.now)) segs.now }
    requires here { length m.old.slots.items ≡ length segs.now }
    requires groups { AreMembers (length m.old.slots.items) (lists_of groups.now) }
    requires full { AreFull (lists_of groups.now) }
    requires once { (j : ℕ) → times j (concat (lists_of groups.now)) ≤ 1 }
    requires locks { length m.old.owner.items ≡ 256 }
    requires redo { m.old.redo + 2 * length groups.now < 255 }
    requires runs { (j : ℕ) → mem j (concat (lists_of groups.now)) ≡ true → runs (progress_of S.Prog.plan m.old.slots.items j) ≡ true }
    ensures run { OnOk result ((t : State) → begun S.Prog.plan m.new (C.store cells.new) order.new.items [] t
        ≡ complete_of (plan_at (S.beginning svc.now) segs.now) (turns_of (plan_at (S.beginning svc.now) segs.now) (begun S.Prog.plan m.old (C.store cells.old) order.old.items (lists_of groups.now) t) schedule.now)) }
    ensures slots { OnOk result (length m.new.slots.items ≡ length m.old.slots.items) }
    ensures start { C.start cells.new ≡ C.start cells.old }
{
    let mut at: usize = 0;
    'groups: for group in groups {
        m.done.clear();
        cells.mark();
        at += run_group(svc, segs, group, &schedule[at..], m, cells)?;
        if order.extend_from_slice(&m.done).is_err() {
            return Err(Memory);
        }
    }
    Ok(())
}
