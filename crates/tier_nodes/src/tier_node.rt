// Nodes of any kind, as their tier calls them.
ghost use Rattle.std.specs.Prelude.{◌≡◌, ℕ, List, [], true, false, IfOk, IfSome, OnOk};
ghost use Rattle.aeg_base.specs.declared.names.End.{End};
ghost use Rattle.fact_journal.specs.Fitting.{Fit, all_facts, open_after_all};
ghost use Rattle.frames.specs.Frames.{FitsFrame};
ghost use Rattle.frames.specs.declared.message.Msg.{Msg};
ghost use Rattle.log_model.specs.Log.{LogState};
ghost use Rattle.log_model.specs.Recover.{newest};
ghost use Rattle.log_values.specs.declared.any_value.AnyValue.{AnyValue};
ghost use Rattle.log_values.specs.declared.fact.Fact.{Fact};
ghost use Rattle.node_log.specs.Deciding.{idle_in};
ghost use Rattle.node_log.specs.Received.{on_bytes};
ghost use Rattle.node_log.specs.Views.{MayWrite, Moves, Restarts, Tells, View, is_up, went_down};
ghost use Rattle.tier_model.specs.Kinds.{Kind};
ghost use Rattle.tier_nodes.specs.Moving.{IsMoveOf, IsRestored};

use aeg_base::Memory;
use aeg_disk::Disk;
use frames::Outbox;
use tier_model::{Fault, Idle, Turn};

/// A node as its tier calls it.
pub trait TierNode: Drop {
    /// What it has while it is up.
    ghost State: { Type 0 };

    ghost seen: { Self → View State };

    /// Its rows.
    ghost kind: { Self → Kind State };

    ghost log_in: { State → LogState AnyValue };

    /// It is one of its tier's nodes.
    ghost IsMember: { Self → Type 0 };

    /// What its states keep to.
    ghost IsIn: { Self → State → Type 0 };

    fn up(&self) -> bool
        ensures { result ≡ is_up (seen self.now) };

    /// The place of the gate that ends its journal, as far as it knows.
    fn place(&self) -> u64
        ensures { result ≡ (seen self.now).place };

    /// It is one of its tier's nodes, and its state keeps to its range.
    fn keep(&self)
        ensures member { IsMember self.now }
        ensures range { IfSome (seen self.now).up (IsIn self.now) };

    /// Goes down: all but its disk is lost.
    fn crash(&mut self)
        requires { is_up (seen self.old) ≡ true }
        ensures down { seen self.new ≡ went_down (seen self.old) }
        ensures same { kind self.new ≡ kind self.old };

    /// Takes the bytes of a packet.
    fn deliver<D: Disk>(
        &mut self,
        disk: &mut D,
        bytes: &[u8],
        out: &mut Outbox,
    ) -> Result<Turn, Fault>
        requires up { is_up (seen self.old) ≡ true }
        requires disk { MayWrite (seen self.old) (D.state disk.old) }
        ensures moved { Moves (seen self.old) (seen self.new) (D.state disk.old) (D.state disk.new) out.old out.new
            (on_bytes (kind self.old).on_frame bytes.now) result }
        ensures same { kind self.new ≡ kind self.old };

    /// Begins to lead.
    fn lead<D: Disk>(&mut self, disk: &mut D, out: &mut Outbox) -> Result<Turn, Fault>
        requires up { is_up (seen self.old) ≡ true }
        requires disk { MayWrite (seen self.old) (D.state disk.old) }
        ensures moved { Moves (seen self.old) (seen self.new) (D.state disk.old) (D.state disk.new) out.old out.new (kind self.old).leads result }
        ensures same { kind self.new ≡ kind self.old };

    /// Offers a value, where it leads and there is one.
    fn offer<D: Disk>(&mut self, disk: &mut D, out: &mut Outbox) -> Result<Turn, Fault>
        requires up { is_up (seen self.old) ≡ true }
        requires disk { MayWrite (seen self.old) (D.state disk.old) }
        ensures moved { Moves (seen self.old) (seen self.new) (D.state disk.old) (D.state disk.new) out.old out.new (kind self.old).offers result }
        ensures same { kind self.new ≡ kind self.old };

    /// The cause with which an offer would be idle now. None where it would not be.
    fn offer_idle(&self) -> Result<Option<Idle>, Memory>
        requires { is_up (seen self.now) ≡ true }
        ensures { IfOk result (λ cause. IfSome (seen self.now).up (λ s. cause ≡ idle_in ((kind self.now).offers s).answer)) };

    /// Tells again what may be lost.
    fn retry(&mut self, out: &mut Outbox) -> Result<Turn, Fault>
        requires { is_up (seen self.old) ≡ true }
        ensures told { Tells (seen self.old) (seen self.new) out.old out.new (kind self.old).retry result }
        ensures same { kind self.new ≡ kind self.old };

    /// Comes up from what its disk has.
    fn restart<D: Disk>(&mut self, disk: &mut D) -> Result<(), Fault>
        requires { is_up (seen self.old) ≡ false }
        ensures restarted { Restarts (seen self.old) (seen self.new) (D.state disk.old) (D.state disk.new) (kind self.old).recovered result }
        ensures same { kind self.new ≡ kind self.old };

    /// From a state in range each row makes a move of the tier.
    ghost frames: { (n : Self) (s : State) (from : End) (message : Msg) → IsMember n → IsIn n s → FitsFrame from message
        → IsMoveOf (IsIn n) log_in (seen n).tier (seen n).me s ((kind n).on_frame from message s) };

    ghost leading: { (n : Self) (s : State) → IsMember n → IsIn n s → IsMoveOf (IsIn n) log_in (seen n).tier (seen n).me s ((kind n).leads s) };

    ghost offering: { (n : Self) (s : State) → IsMember n → IsIn n s → IsMoveOf (IsIn n) log_in (seen n).tier (seen n).me s ((kind n).offers s) };

    ghost retries: { (n : Self) (s : State) → IsMember n → IsIn n s → IsMoveOf (IsIn n) log_in (seen n).tier (seen n).me s ((kind n).retry s) };

    /// A retry writes nothing down.
    ghost silent: { (n : Self) (s : State) → ((kind n).retry s).facts ≡ [] };

    /// What a restart makes of records that fit is in range, with its log open where they leave it.
    ghost restored: { (n : Self) (rs : List (List Fact)) → IsMember n → Fit (seen n).tier rs
        → IsRestored (IsIn n) log_in (open_after_all 0 (all_facts rs)) ((kind n).recovered (newest rs)) };
}
