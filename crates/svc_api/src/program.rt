// A program of a service, an action at a time.
ghost use Rattle.std.specs.Prelude.{◌≡◌, ◌<◌, ◌⊎◌, ℕ, List, Bool, Option, IfOk, OnErr};
ghost use Rattle.svc_api.specs.Plan.{Plan, Follows, IsEnd, NamesKey};

use crate::Action;
use aeg_base::{LockSet, Memory};

/// A program in the middle of a segment.
pub trait Program: Drop {
    /// What the program does from here on, when it is told what the last read gave, or the answer of its call.
    ghost plan: { Self → Option ℕ → Plan };

    /// How many actions it has left at most.
    ghost budget: { Self → ℕ };

    /// The locks of the keys that it says it will touch.
    ghost locks: { Self → List Bool };

    /// Where the request goes on after a call.
    ghost stage_of: { Self → ℕ };

    /// The next action. The declared locks stay. It is handed the value of the last read, or the answer's code at a resumption, and else none.
    fn next(&mut self, last: Option<u64>) -> Result<Action, Memory>
        ensures follows { IfOk result (λ action. Follows (plan self.old last) action (plan self.new) (stage_of self.new)) }
        ensures falls { IfOk result (λ action. IsEnd action ⊎ (budget self.new < budget self.old)) }
        ensures keys { IfOk result NamesKey }
        ensures locks { locks self.new ≡ locks self.old }
        ensures unchanged { OnErr result (self.new ≡ self.old) };

    fn declared(&self) -> LockSet
        ensures { result ≡ locks self.now };

    fn stage(&self) -> u8
        ensures { result ≡ stage_of self.now };
}
