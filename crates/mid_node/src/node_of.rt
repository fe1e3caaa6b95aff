// A middle node.
ghost use Rattle.std.specs.Prelude.{◌≡◌, ◌+◌, ◌*◌, ◌<◌, ◌≤◌, ℕ, List, true, false, Some, None, IfOk, IfSome, OnOk};
ghost use Rattle.aeg_base.specs.declared.limits.TheConstants.{MAX_FAULTS};
ghost use Rattle.aeg_base.specs.declared.names.Tier.{Tier as SomeTier};
ghost use Rattle.applied_rounds.specs.States.{programs_of};
ghost use Rattle.exec_core.specs.Counts.{one_more};
ghost use Rattle.fact_journal.specs.Fitting.{FactsFit};
ghost use Rattle.row_laws.specs.Mids.{IsMidIn};
ghost use Rattle.tier_model.specs.MidRows.{leads, offers, on_frame, recovered, retry, work};
ghost use Rattle.node_log.specs.Deciding.{idle_in};
ghost use Rattle.node_log.specs.Quiet.{IsUnmoved, is_quiet};
ghost use Rattle.node_log.specs.Received.{on_bytes};
ghost use Rattle.node_log.specs.Restarting.{ComesUp};
ghost use Rattle.node_log.specs.Views.{MayWrite, Moves, Restarts, Tells, is_up, new_node, went_down};
ghost use Rattle.mid_rounds.specs.Deciding.{IsMember};
ghost use Rattle.mid_rounds.specs.Mids.{steps_in};
ghost use Rattle.mid_rounds.specs.Running.{note_in};

use crate::frames_in::receive;
use crate::offering::{offer, offer_idle};
use crate::turns::lead;
use aeg_base::limits::MAX_FAULTS;
use aeg_base::{Memory, NodeId, Tier};
use aeg_disk::Disk;
use booking::Booking;
use exec_core::Exec;
use fact_journal::FactJournal;
use frames::Outbox;
use log_values::Fact;
use mid_rounds::{Keeping, restored_held, restored_keeping, tell_again, work, work_idle};
use node_log::{LogNode, Member, restored};
use std::alloc::Global;
use std::marker::Model;
use svc_api::Service;
use tier_model::{Fault, Idle, Turn};

/// A middle node of a service, with a pipeline of some depth.
#[derive(Drop)]
pub struct NodeOf<S: Service + Drop> {
    alloc: Global,
    depth: u8,
    node: LogNode<Keeping>,
    service: S,
}

/// A middle node of the booking service.
pub type MidNode = NodeOf<Booking>;

impl<S: Service + Drop> Model for NodeOf<S> {
    ghost use Rattle.std.specs.Prelude.{◌≡◌, ◌≤◌, IfSome};
    ghost use Rattle.aeg_base.specs.declared.names.Tier.TheVariants as tiers;
    ghost use Rattle.applied_rounds.specs.States.{programs_of};
    ghost use Rattle.node_log.specs.Views.{seen_as};
    ghost use Rattle.mid_rounds.specs.Deciding.{IsKeptWell};
    ghost use Rattle.mid_rounds.specs.Mids.{mid_of};
    ghost use Rattle.mid_node.specs.Nodes.{Seen};

    ghost Value = { Seen S };

    ghost view = { λ n. record { node = seen_as (mid_of n.node.me) n.node; depth = n.depth; service = n.service } };

    ghost invariant = { λ n. (n.node.tier ≡ tiers.Mid) × ((1 ≤ n.depth) × IfSome n.node.up (λ standing.
        IsKeptWell (programs_of (S.table n.service) (S.beginning n.service)) n.node.faults n.node.me (mid_of n.node.me standing) standing.rest)) };
}

impl MidNode {
    /// A node of the booking service that is down, on a blank disk.
    pub fn new(alloc: Global, u: u8, depth: u8, me: u8) -> Self
        requires faults { u ≤ MAX_FAULTS }
        requires depth { 1 ≤ depth }
        requires node { me < 2 * u + 1 }
        ensures node { result.node ≡ new_node u SomeTier.Mid me }
        ensures depth { result.depth ≡ depth }
    {
        NodeOf::with(alloc, Booking::new(alloc), u, depth, me)
    }
}

impl<S: Service + Drop> NodeOf<S> {
    /// A node of the service that is down, on a blank disk.
    pub fn with(alloc: Global, service: S, u: u8, depth: u8, me: u8) -> Self
        requires faults { u ≤ MAX_FAULTS }
        requires depth { 1 ≤ depth }
        requires node { me < 2 * u + 1 }
        ensures { result ≡ record { node = new_node u SomeTier.Mid me; depth = depth; service = service } }
    {
        NodeOf {
            alloc,
            depth,
            node: LogNode::new(
                alloc,
                u,
                NodeId {
                    tier: Tier::Mid,
                    index: me,
                },
            ),
            service,
        }
    }

    pub fn up(&self) -> bool
        ensures { result ≡ is_up self.now.node }
    {
        self.node.is_up()
    }

    /// The place of the gate that ends its journal, as far as it knows.
    pub fn place(&self) -> u64
        ensures { result ≡ self.now.node.place }
    {
        self.node.place()
    }

    /// It is one of its tier's nodes, and what it has is in range while it is up.
    pub fn keep(&self)
        ensures few { self.now.node.faults ≤ MAX_FAULTS }
        ensures node { self.now.node.me < 2 * self.now.node.faults + 1 }
        ensures tier { self.now.node.tier ≡ SomeTier.Mid }
        ensures depth { 1 ≤ self.now.depth }
        ensures state { IfSome self.now.node.up (λ σ. (depth : ℕ)
            × IsMidIn (programs_of (S.table self.now.service) (S.beginning self.now.service)) self.now.node.faults depth self.now.node.me σ) }
    {
        let _member = self.member();
        if self.node.is_up() {
            let _up = self.node.working();
        }
    }

    fn member(&self) -> Member
        ensures member { IsMember result }
        ensures faults { result.faults ≡ self.now.node.faults }
        ensures index { result.me.index ≡ self.now.node.me }
    {
        Member {
            alloc: self.alloc,
            faults: self.node.faults(),
            me: self.node.id(),
        }
    }

    /// Goes down: all but its disk is lost.
    pub fn crash(&mut self)
        requires { is_up self.old.node ≡ true }
        ensures { self.new ≡ record self.old { node = went_down self.old.node } }
    {
        self.node.crash();
    }

    /// Takes the bytes of a packet.
    pub fn deliver<D: Disk>(
        &mut self,
        disk: &mut D,
        bytes: &[u8],
        out: &mut Outbox,
    ) -> Result<Turn, Fault>
        requires up { is_up self.old.node ≡ true }
        requires disk { MayWrite self.old.node (D.state disk.old) }
        ensures moved { Moves self.old.node self.new.node (D.state disk.old) (D.state disk.new) out.old out.new
            (on_bytes (λ from message σ. on_frame self.old.node.faults (programs_of (S.table self.old.service) (S.beginning self.old.service)) self.old.node.me
            σ from message) bytes.now) result }
        ensures quiet { IfOk result (λ answer. is_quiet answer ≡ true
            → IsUnmoved self.old.node self.new.node (D.state disk.old) (D.state disk.new) out.old out.new) }
        ensures ready { OnOk result (MayWrite self.new.node (D.state disk.new)) }
        ensures stays { self.new ≡ record self.old { node = self.new.node } }
    {
        let member = self.member();
        let mut up = self.node.take_up();
        let sent = out.items().len();
        let decided = receive(member, &self.service, &mut up, bytes, out);
        self.node.settle(up, decided, sent, disk, out)
    }

    /// Begins to lead.
    pub fn lead<D: Disk>(&mut self, disk: &mut D, out: &mut Outbox) -> Result<Turn, Fault>
        requires up { is_up self.old.node ≡ true }
        requires disk { MayWrite self.old.node (D.state disk.old) }
        ensures moved { Moves self.old.node self.new.node (D.state disk.old) (D.state disk.new) out.old out.new
            (leads self.old.node.faults (programs_of (S.table self.old.service) (S.beginning self.old.service)) self.old.node.me) result }
        ensures quiet { IfOk result (λ answer. is_quiet answer ≡ true
            → IsUnmoved self.old.node self.new.node (D.state disk.old) (D.state disk.new) out.old out.new) }
        ensures ready { OnOk result (MayWrite self.new.node (D.state disk.new)) }
        ensures stays { self.new ≡ record self.old { node = self.new.node } }
    {
        let member = self.member();
        let mut up = self.node.take_up();
        let sent = out.items().len();
        let decided = lead(member, &self.service, &mut up, out);
        self.node.settle(up, decided, sent, disk, out)
    }

    /// Offers a value, where it leads and there is one.
    pub fn offer<D: Disk>(&mut self, disk: &mut D, out: &mut Outbox) -> Result<Turn, Fault>
        requires up { is_up self.old.node ≡ true }
        requires disk { MayWrite self.old.node (D.state disk.old) }
        ensures moved { Moves self.old.node self.new.node (D.state disk.old) (D.state disk.new) out.old out.new
            (offers self.old.node.faults (programs_of (S.table self.old.service) (S.beginning self.old.service)) self.old.node.me) result }
        ensures quiet { IfOk result (λ answer. is_quiet answer ≡ true
            → IsUnmoved self.old.node self.new.node (D.state disk.old) (D.state disk.new) out.old out.new) }
        ensures ready { OnOk result (MayWrite self.new.node (D.state disk.new)) }
        ensures stays { self.new ≡ record self.old { node = self.new.node } }
    {
        let member = self.member();
        let mut up = self.node.take_up();
        let sent = out.items().len();
        let decided = offer(member, &self.service, &mut up, out);
        self.node.settle(up, decided, sent, disk, out)
    }

    /// The cause with which an offer would be idle now. None where it would not be.
    pub fn offer_idle(&self) -> Result<Option<Idle>, Memory>
        requires { is_up self.now.node ≡ true }
        ensures { IfOk result (λ cause. IfSome self.now.node.up (λ σ. cause ≡ idle_in (offers self.now.node.faults
            (programs_of (S.table self.now.service) (S.beginning self.now.service)) self.now.node.me σ).answer)) }
    {
        offer_idle(self.member(), &self.service, self.node.working())
    }

    /// Applies the next round where its verdict is learned, and else runs it by the executor, where it can be run. What a
    /// run tells is held back until its round is applied: only its token leaves.
    pub fn work<X: Exec<S>>(&mut self, exec: &mut X, out: &mut Outbox) -> Result<Turn, Fault>
        requires { is_up self.old.node ≡ true }
        ensures told { Tells self.old.node self.new.node out.old out.new (λ σ. work self.old.node.faults
            (programs_of (S.table self.old.service) (S.beginning self.old.service)) self.old.node.me σ (steps_in result)) result }
        ensures given { (schedule : List ℕ) → X.given exec.old ≡ Some schedule → Tells self.old.node self.new.node out.old out.new
            (λ σ. work self.old.node.faults (programs_of (S.table self.old.service) (S.beginning self.old.service)) self.old.node.me σ schedule) result }
        ensures ran { IfOk result (λ answer. IfSome (note_in answer) (λ note. (X.runs exec.new ≡ one_more (X.runs exec.old))
            × (X.last exec.new ≡ Some (record { round = note.round; steps = note.steps })))) }
        ensures other { IfOk result (λ answer. note_in answer ≡ None → exec.new ≡ exec.old) }
        ensures kept { X.given exec.new ≡ X.given exec.old }
        ensures quiet { IfOk result (λ answer. is_quiet answer ≡ true → (self.new.node ≡ self.old.node) × (out.new ≡ out.old)) }
        ensures stays { self.new ≡ record self.old { node = self.new.node } }
    {
        let member = self.member();
        let mut up = self.node.take_up();
        let sent = out.items().len();
        match work(member, &self.service, &mut up, exec, out) {
            Ok(decided) => {
                self.node.put_back(up);
                Ok(decided.answer)
            }
            Err(Memory) => {
                drop(up);
                out.truncate(sent);
                Err(Fault::Memory)
            }
        }
    }

    /// The cause with which a work would be idle now. None where it would not be.
    pub fn work_idle(&self) -> Result<Option<Idle>, Memory>
        requires { is_up self.now.node ≡ true }
        ensures { (schedule : List ℕ) → IfOk result (λ cause. IfSome self.now.node.up (λ σ. cause ≡ idle_in (work self.now.node.faults
            (programs_of (S.table self.now.service) (S.beginning self.now.service)) self.now.node.me σ schedule).answer)) }
    {
        work_idle(self.member(), &self.service, self.node.working())
    }

    /// Tells again what may be lost: asks for the first open position; calls whose answers aren't held; the 16 highest
    /// answers of each tier that are; and floors that were raised.
    pub fn retry(&mut self, out: &mut Outbox) -> Result<Turn, Fault>
        requires { is_up self.old.node ≡ true }
        ensures told { Tells self.old.node self.new.node out.old out.new (retry self.old.node.faults self.old.node.me) result }
        ensures stays { self.new ≡ record self.old { node = self.new.node } }
    {
        let member = self.member();
        let up = self.node.take_up();
        let sent = out.items().len();
        match tell_again(member, &up, out) {
            Ok(()) => {
                self.node.put_back(up);
                Ok(Turn::Did)
            }
            Err(Memory) => {
                drop(up);
                out.truncate(sent);
                Err(Fault::Memory)
            }
        }
    }

    /// Comes up from what its disk has: rounds are applied while they can be.
    pub fn restart<D: Disk>(&mut self, disk: &mut D) -> Result<(), Fault>
        requires { is_up self.old.node ≡ false }
        ensures restarted { Restarts self.old.node self.new.node (D.state disk.old) (D.state disk.new) (recovered self.old.node.faults
            (programs_of (S.table self.old.service) (S.beginning self.old.service)) self.old.depth self.old.node.me) result }
        ensures ready { OnOk result (MayWrite self.new.node (D.state disk.new)) }
        ensures stays { self.new ≡ record self.old { node = self.new.node } }
    {
        let opened = self.node.open(disk);
        self.come_up(opened)
    }

    /// Comes up with what the facts of the opened journal leave, the oldest one first.
    fn come_up(&mut self, opened: Result<(FactJournal, Vec<Fact>), Fault>) -> Result<(), Fault>
        requires down { is_up self.old.node ≡ false }
        requires fit { IfOk opened (λ r. FactsFit self.old.node.tier 0 r.1.items) }
        ensures up { ComesUp self.old.node self.new.node (recovered self.old.node.faults
            (programs_of (S.table self.old.service) (S.beginning self.old.service)) self.old.depth self.old.node.me) opened result }
        ensures stays { self.new ≡ record self.old { node = self.new.node } }
    {
        let (journal, facts) = opened?;
        let member = self.member();
        let held = restored_held(member, &facts)?;
        let log = restored(self.alloc, member.faults, member.me, facts)?;
        let keeping = restored_keeping(member, &self.service, self.depth, held, &log)?;
        self.node.come_up(log, journal, keeping)?;
        Ok(())
    }
}
