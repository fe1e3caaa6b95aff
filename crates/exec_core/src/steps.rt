// One step of a segment, under the locks of the keys that it touches.
ghost use Rattle.std.specs.Prelude.{◌≡◌, ◌≢◌, ℕ, ◌+◌, ◌*◌, ◌<◌, ◌⊎◌, ◌||◌, Some, None, IfOk, OnOk, length};
ghost use Rattle.svc_api.specs.Plan.{Plan};
ghost use Rattle.exec_model.specs.Machine.{State, is_running as runs, next};
ghost use Rattle.exec_core.specs.States.{owner_of, slot_progress, progress_of, state_of, went_on, slot_left, left_of, Goes};

use crate::locks::{release, take};
use crate::machine::{Logged, Machine, Slot};
use aeg_base::{Memory, lock_of};
use svc_api::{Action, Ending, Program};

/// What a segment's step came to.
#[derive(Clone, Copy, Debug)]
pub enum Went {
    Moved,
    Left,
    Busy,
    Skipped,
}

/// The segment with the number `i` makes one step.
fn go<P: Program, C: Logged>(
    slot: &mut Slot<P>,
    owner: &mut [u8],
    cells: &mut C,
    i: u8,
) -> Result<Went, Memory>
    requires locks { length owner.old ≡ 256 }
    requires small { i < 255 }
    ensures goes { IfOk result (λ went. Goes i (slot_progress P.plan slot.old) (owner_of owner.old) (C.store cells.old) went
        (slot_progress P.plan slot.new) (owner_of owner.new) (C.store cells.new)) }
    ensures length { length owner.new ≡ 256 }
    ensures base { OnOk result (C.base cells.new ≡ C.base cells.old) }
    ensures start { C.start cells.new ≡ C.start cells.old }
    ensures falls { IfOk result (λ went. (went ≡ Went.Moved) ⊎ (went ≡ Went.Left) → slot_left P.budget slot.new < slot_left P.budget slot.old) }
{
    match slot {
        Slot::Running(prog, last) => match prog.next(*last)? {
            Action::Get(key) => {
                if take(owner, usize::from(lock_of(key)), i + 1) {
                    *last = Some(cells.get(key));
                    Ok(Went::Moved)
                } else {
                    Ok(Went::Busy)
                }
            }
            Action::Put(key, value) => {
                if take(owner, usize::from(lock_of(key)), i + 1) {
                    cells.write(key, value)?;
                    *last = None;
                    Ok(Went::Moved)
                } else {
                    Ok(Went::Busy)
                }
            }
            Action::Call(tier, body) => {
                let stage = prog.stage();
                release(owner, i + 1);
                *slot = Slot::Ended(Ending::Call { tier, stage, body });
                Ok(Went::Left)
            }
            Action::Reply(text) => {
                release(owner, i + 1);
                *slot = Slot::Ended(Ending::Reply(text));
                Ok(Went::Left)
            }
        },
        Slot::Ended(_) => Ok(Went::Skipped),
    }
}

/// Segment `i` makes one step, if it runs. Where a lock that it wants is another's, nothing but its program is changed.
pub fn step<P: Program, C: Logged>(m: &mut Machine<P>, cells: &mut C, i: u8) -> Result<Went, Memory>
    requires slots { i < length m.old.slots.items }
    requires locks { length m.old.owner.items ≡ 256 }
    requires small { i < 255 }
    ensures went { IfOk result (λ went. (went ≡ Went.Moved) ⊎ (went ≡ Went.Left) → (plans : ℕ → Plan) (t : State) →
        state_of P.plan m.new (C.store cells.new) t ≡ went_on plans (state_of P.plan m.old (C.store cells.old) t) i) }
    ensures goes { IfOk result (λ went. Goes i (progress_of P.plan m.old.slots.items i) (owner_of m.old.owner.items) (C.store cells.old) went
        (progress_of P.plan m.new.slots.items i) (owner_of m.new.owner.items) (C.store cells.new)) }
    ensures others { OnOk result ((j : ℕ) → i ≢ j → progress_of P.plan m.new.slots.items j ≡ progress_of P.plan m.old.slots.items j) }
    ensures stays { IfOk result (λ went. (went ≡ Went.Busy) ⊎ (went ≡ Went.Skipped) → (m.new.done ≡ m.old.done) × (m.new.steps ≡ m.old.steps)) }
    ensures base { OnOk result (C.base cells.new ≡ C.base cells.old) }
    ensures start { C.start cells.new ≡ C.start cells.old }
    ensures redo { OnOk result (m.new.redo ≡ m.old.redo) }
    ensures slots { OnOk result (length m.new.slots.items ≡ length m.old.slots.items) }
    ensures locks { OnOk result (length m.new.owner.items ≡ 256) }
    ensures falls { IfOk result (λ went. (went ≡ Went.Moved) ⊎ (went ≡ Went.Left) → left_of P.budget m.new.slots.items i < left_of P.budget m.old.slots.items i) }
{
    let went = go(&mut m.slots[usize::from(i)], &mut m.owner, cells, i)?;
    match went {
        Went::Moved => {
            if m.steps.push(i).is_err() {
                return Err(Memory);
            }
        }
        Went::Left => {
            if m.done.push(i).is_err() || m.steps.push(i).is_err() {
                return Err(Memory);
            }
        }
        Went::Busy | Went::Skipped => (),
    }
    Ok(went)
}
