// Middle nodes work at their places.
ghost use Rattle.std.specs.Prelude.{◌≡◌, ℕ, List, ◌<◌, Some, None, length, IfOk, IfSome};
ghost use Rattle.applied_rounds.specs.States.{programs_of};
ghost use Rattle.exec_core.specs.Counts.{one_more};
ghost use Rattle.mid_rounds.specs.Mids.{steps_in};
ghost use Rattle.mid_rounds.specs.Running.{note_in};
ghost use Rattle.node_log.specs.Deciding.{idle_in};
ghost use Rattle.tier_model.specs.MidRows.{work};
ghost use Rattle.tier_nodes.specs.Calling.{Tells};
ghost use Rattle.tier_nodes.specs.MidRows.{IsInRange, log_of};
ghost use Rattle.tier_nodes.specs.Seats.{ChangesAt, IsAt, condition_of, seat_of};
ghost use Rattle.tier_nodes.specs.declared.condition.Condition.TheVariants as conditions;

use crate::posts::Post;
use crate::tiers::Tier;
use aeg_base::Memory;
use exec_core::Exec;
use frames::Outbox;
use mid_node::NodeOf;
use svc_api::Service;
use tier_model::{Fault, Idle, Turn};

impl<S: Service + Drop> Post<NodeOf<S>> {
    /// Applies the next round where its verdict is learned, and else runs it by the executor, where it can be run.
    pub fn work<X: Exec<S>>(&mut self, exec: &mut X, out: &mut Outbox) -> Result<Turn, Fault>
        requires up { condition_of (seat_of (λ n. n.node) self.old) ≡ conditions.Up }
        ensures tells { Tells (IsInRange (programs_of (S.table self.old.node.service) (S.beginning self.old.node.service)) self.old.node) log_of
            (seat_of (λ n. n.node) self.old) (seat_of (λ n. n.node) self.new) out.old out.new (λ σ. work self.old.node.node.faults
            (programs_of (S.table self.old.node.service) (S.beginning self.old.node.service)) self.old.node.node.me σ (steps_in result)) result }
        ensures given { (schedule : List ℕ) → X.given exec.old ≡ Some schedule
            → Tells (IsInRange (programs_of (S.table self.old.node.service) (S.beginning self.old.node.service)) self.old.node) log_of
            (seat_of (λ n. n.node) self.old) (seat_of (λ n. n.node) self.new) out.old out.new (λ σ. work self.old.node.node.faults
            (programs_of (S.table self.old.node.service) (S.beginning self.old.node.service)) self.old.node.node.me σ schedule) result }
        ensures ran { IfOk result (λ answer. IfSome (note_in answer) (λ note. (X.runs exec.new ≡ one_more (X.runs exec.old))
            × (X.last exec.new ≡ Some (record { round = note.round; steps = note.steps })))) }
        ensures other { IfOk result (λ answer. note_in answer ≡ None → exec.new ≡ exec.old) }
        ensures kept { X.given exec.new ≡ X.given exec.old }
        ensures stays { self.new.node ≡ record self.old.node { node = self.new.node.node } }
    {
        self.node.keep();
        self.node.work(exec, out)
    }

    /// The cause with which a work would be idle now. None where it would not be.
    pub fn work_idle(&self) -> Result<Option<Idle>, Memory>
        requires { condition_of (seat_of (λ n. n.node) self.now) ≡ conditions.Up }
        ensures { (schedule : List ℕ) → IfOk result (λ cause. IfSome self.now.node.node.up (λ σ. cause ≡ idle_in (work self.now.node.node.faults
            (programs_of (S.table self.now.node.service) (S.beginning self.now.node.service)) self.now.node.node.me σ schedule).answer)) }
    {
        self.node.work_idle()
    }
}

impl<S: Service + Drop> Tier<NodeOf<S>> {
    /// The node there works.
    pub fn work<X: Exec<S>>(
        &mut self,
        at: u8,
        exec: &mut X,
        out: &mut Outbox,
    ) -> Result<Turn, Fault>
        requires there { at < length self.old.posts.items }
        requires up { IsAt self.old.posts.items at (λ post. condition_of (seat_of (λ n. n.node) post) ≡ conditions.Up) }
        ensures tells { ChangesAt self.old.posts.items self.new.posts.items at (λ old new.
            Tells (IsInRange (programs_of (S.table old.node.service) (S.beginning old.node.service)) old.node) log_of
            (seat_of (λ n. n.node) old) (seat_of (λ n. n.node) new) out.old out.new (λ σ. work old.node.node.faults
            (programs_of (S.table old.node.service) (S.beginning old.node.service)) old.node.node.me σ (steps_in result)) result
            × (new.node ≡ record old.node { node = new.node.node })) }
        ensures given { (schedule : List ℕ) → X.given exec.old ≡ Some schedule → ChangesAt self.old.posts.items self.new.posts.items at (λ old new.
            Tells (IsInRange (programs_of (S.table old.node.service) (S.beginning old.node.service)) old.node) log_of
            (seat_of (λ n. n.node) old) (seat_of (λ n. n.node) new) out.old out.new (λ σ. work old.node.node.faults
            (programs_of (S.table old.node.service) (S.beginning old.node.service)) old.node.node.me σ schedule) result
            × (new.node ≡ record old.node { node = new.node.node })) }
        ensures ran { IfOk result (λ answer. IfSome (note_in answer) (λ note. (X.runs exec.new ≡ one_more (X.runs exec.old))
            × (X.last exec.new ≡ Some (record { round = note.round; steps = note.steps })))) }
        ensures other { IfOk result (λ answer. note_in answer ≡ None → exec.new ≡ exec.old) }
        ensures kept { X.given exec.new ≡ X.given exec.old }
    {
        self.posts[usize::from(at)].work(exec, out)
    }
}
