// The machine with its groups, as it stands between two turns.
ghost use Rattle.std.specs.Prelude.{◌≡◌, ◌≤◌, ◌<◌, ◌+◌, ◌++◌, ◌∷◌, ◌⊎◌, ℕ, [], true, IfOk, OnOk, OnErr, length};
ghost use Rattle.std.specs.List.{All};
ghost use Rattle.exec_model.specs.Machine.{next, turns};
ghost use Rattle.exec_core.specs.Jobs.{BeginsWell};
ghost use Rattle.exec_core.specs.Underway.{IsReached, can_step, state_at};

use crate::batch::Batch;
use crate::machine::{Logged, Machine, is_running};
use crate::rounds::{contains, turn};
use crate::run::begin_all;
use aeg_base::Memory;
use exec_model::Seg;
use key_mixer::groups;
use kv_store::Store;
use std::alloc::Global;
use std::mem;
use svc_api::{Program, Service};

/// A machine with the cells that it works on, its groups, which of them is at work, and the order of finishing of those
/// before.
#[derive(Drop)]
pub struct Work<P> {
    pub m: Machine<P>,
    pub cells: Batch,
    pub groups: Vec<Vec<u8>>,
    pub at: usize,
    pub order: Vec<u8>,
}

/// Begins on a job. The store moves into the work.
pub fn begin_work<S: Service>(
    alloc: Global,
    svc: &S,
    segs: &[Seg],
    store: &mut Store,
) -> Result<Work<S::Prog>, Memory>
    requires begins { All (BeginsWell (S.beginning svc.now)) segs.now }
    requires few { length segs.now ≤ 32 }
    ensures reached { IfOk result (IsReached S.Prog.plan (S.beginning svc.now) segs.now store.old.map) }
    ensures steps { IfOk result (λ w. w.m.steps.items ≡ []) }
    ensures at { IfOk result (λ w. w.at ≡ 0) }
    ensures start { IfOk result (λ w. w.cells.start ≡ store.old.map) }
    ensures unchanged { OnErr result (store.new.map ≡ store.old.map) }
{
    let (slots, sets) = begin_all(alloc, svc, segs)?;
    let groups = groups(alloc, &sets)?;
    let m = Machine::new(alloc, slots)?;
    let mut cells = Batch::new(alloc, mem::replace(store, Store::new(alloc)));
    if cells.reserve(segs.len() * 8).is_err() {
        *store = cells.give_up();
        return Err(Memory);
    }
    cells.mark();
    Ok(Work {
        m,
        cells,
        groups,
        at: 0,
        order: Vec::new(alloc),
    })
}

/// Segment `i` makes one step, if it runs and its group is at work. Answers whether it can make another.
pub fn turn_of<S: Service>(
    svc: &S,
    segs: &[Seg],
    w: &mut Work<S::Prog>,
    i: u8,
) -> Result<bool, Memory>
    requires begins { All (BeginsWell (S.beginning svc.now)) segs.now }
    requires few { length segs.now ≤ 32 }
    requires reached { IsReached S.Prog.plan (S.beginning svc.now) segs.now w.old.cells.start w.old }
    ensures reached { OnOk result (IsReached S.Prog.plan (S.beginning svc.now) segs.now w.old.cells.start w.new) }
    ensures on { IfOk result (λ on. on ≡ true → (w.new.m.steps.items ≡ w.old.m.steps.items ++ i ∷ []) × (w.new.at ≡ w.old.at)) }
    ensures runs { IfOk result (λ on. on ≡ can_step (state_at S.Prog.plan w.new) i) }
    ensures made { OnOk result (can_step (state_at S.Prog.plan w.old) i ≡ true → w.new.m.steps.items ≡ w.old.m.steps.items ++ i ∷ []) }
    ensures noted { OnOk result ((w.new.m.steps.items ≡ w.old.m.steps.items) ⊎ (w.new.m.steps.items ≡ w.old.m.steps.items ++ i ∷ [])) }
    ensures groups { w.new.groups ≡ w.old.groups }
    ensures start { w.new.cells.start ≡ w.old.cells.start }
{
    if w.at >= w.groups.len() {
        return Ok(false);
    }
    let group = w.groups[w.at].as_slice();
    if !contains(group, i) {
        return Ok(false);
    }
    let over = turn(svc, segs, group, &mut w.m, &mut w.cells, i)?;
    if over {
        next_group(w)?;
        return Ok(false);
    }
    Ok(is_running(&w.m.slots[usize::from(i)]))
}

/// Goes on to the next group.
fn next_group<P: Program>(w: &mut Work<P>) -> Result<(), Memory>
    requires { w.old.at < length w.old.groups.items }
    ensures state { OnOk result (state_at P.plan w.new ≡ next (state_at P.plan w.old)) }
    ensures at { OnOk result (w.new.at ≡ w.old.at + 1) }
    ensures machine { OnOk result ((w.new.m.slots ≡ w.old.m.slots) × (w.new.m.owner ≡ w.old.m.owner) × (w.new.m.redo ≡ w.old.m.redo) × (w.new.m.steps ≡ w.old.m.steps)) }
    ensures groups { w.new.groups ≡ w.old.groups }
    ensures start { w.new.cells.start ≡ w.old.cells.start }
{
    if w.order.extend_from_slice(&w.m.done).is_err() {
        return Err(Memory);
    }
    w.m.done.clear();
    w.cells.mark();
    w.at += 1;
    Ok(())
}
