// The machine: the segments of a job in the middle of their turns, and the cells that they work on.
ghost use Rattle.std.specs.Prelude.{◌≡◌, ◌*◌, ◌<◌, ℕ, [], Option, IfOk, OnOk, OnErr, true, false, length};
ghost use Rattle.std.specs.List.{All};
ghost use Rattle.aeg_base.specs.Store.{Store, written};
ghost use Rattle.exec_model.specs.Machine.{is_running as runs, any_running as any_runs, next};
ghost use Rattle.exec_core.specs.States.{owner_of, slot_progress, progress_of};

use aeg_base::{Cells, Key, Memory};
use std::alloc::Global;
use svc_api::{Ending, Program};

/// Cells that can go back to where they were when they were last marked.
pub trait Logged: Cells {
    /// The cells when they were marked.
    ghost base: { Self → Store };

    fn write(&mut self, key: Key, value: u64) -> Result<(), Memory>
        requires { key.class < 8 }
        ensures ok { OnOk result (Self.store self.new ≡ written (Self.store self.old) key value) }
        ensures err { OnErr result (Self.store self.new ≡ Self.store self.old) }
        ensures base { base self.new ≡ base self.old }
        ensures start { Self.start self.new ≡ Self.start self.old };

    fn mark(&mut self)
        ensures store { Self.store self.new ≡ Self.store self.old }
        ensures base { base self.new ≡ Self.store self.old }
        ensures start { Self.start self.new ≡ Self.start self.old };

    fn undo(&mut self)
        ensures store { Self.store self.new ≡ base self.old }
        ensures base { base self.new ≡ base self.old }
        ensures start { Self.start self.new ≡ Self.start self.old };
}

/// A segment's program with what it is to be told next, or its end.
#[derive(Drop)]
pub enum Slot<P> {
    Running(P, Option<u64>),
    Ended(Ending),
}

/// The segments of a group, each with its locks.
#[derive(Drop)]
pub struct Machine<P> {
    pub slots: Vec<Slot<P>>,
    pub owner: Vec<u8>,
    pub done: Vec<u8>,
    pub steps: Vec<u8>,
    pub redo: u8,
}

impl<P: Program> Machine<P> {
    /// Where all segments are about to begin.
    pub fn new(alloc: Global, slots: Vec<Slot<P>>) -> Result<Self, Memory>
        ensures slots { IfOk result (λ m. m.slots.items ≡ slots.items) }
        ensures free { IfOk result (λ m. (l : ℕ) → owner_of m.owner.items l ≡ 0) }
        ensures locks { IfOk result (λ m. length m.owner.items ≡ 256) }
        ensures done { IfOk result (λ m. m.done.items ≡ []) }
        ensures steps { IfOk result (λ m. m.steps.items ≡ []) }
        ensures redo { IfOk result (λ m. m.redo ≡ 0) }
    {
        let owner = vec![in alloc; 0u8; 256]?;
        Ok(Machine {
            slots,
            owner,
            done: Vec::new(alloc),
            steps: Vec::new(alloc),
            redo: 0,
        })
    }
}

pub fn is_running<P: Program>(slot: &Slot<P>) -> bool
    ensures { result ≡ runs (slot_progress P.plan slot.now) }
{
    match slot {
        Slot::Running(_, _) => true,
        Slot::Ended(_) => false,
    }
}

pub fn any_running<P: Program>(slots: &[Slot<P>], group: &[u8]) -> bool
    requires members { All (λ j. j < length slots.now) group.now }
    ensures { result ≡ any_runs (progress_of P.plan slots.now) group.now }
{
    for i in group {
        if is_running(&slots[usize::from(*i)]) {
            return true;
        }
    }
    false
}
