// A backend node.
ghost use Rattle.std.specs.Prelude.{◌≡◌, ◌+◌, ◌*◌, ◌<◌, ◌≤◌, true, false, IfOk, IfSome, OnOk};
ghost use Rattle.aeg_base.specs.declared.limits.TheConstants.{MAX_FAULTS};
ghost use Rattle.svc_api.specs.Plan.{IsBackend};
ghost use Rattle.log_model.specs.Ranges.{IsLogIn};
ghost use Rattle.log_values.specs.Fields.{FitsBallot};
ghost use Rattle.frames.specs.LogMessages.{IsCarried};
ghost use Rattle.server_shim.specs.Ranges.{IsShimIn};
ghost use Rattle.fact_journal.specs.Fitting.{FactsFit};
ghost use Rattle.tier_model.specs.BackRows.{leads, offers, on_frame, recovered, retry};
ghost use Rattle.node_log.specs.Views.{MayWrite, Moves, Restarts, Tells, is_up, new_node, went_down};
ghost use Rattle.node_log.specs.Quiet.{IsUnmoved, is_quiet};
ghost use Rattle.node_log.specs.Received.{on_bytes};
ghost use Rattle.node_log.specs.Restarting.{ComesUp};
ghost use Rattle.backend_node.specs.Backends.{backend_by};
ghost use Rattle.node_log.specs.Deciding.{idle_in};
ghost use Rattle.backend_node.specs.Deciding.{IsMember};

use crate::frames_in::receive;
use crate::offering::{offer, offer_idle};
use crate::restoring::serve_again;
use crate::serving::Serving;
use crate::telling::tell_again;
use crate::turns::lead;
use aeg_base::limits::MAX_FAULTS;
use aeg_base::{Memory, NodeId, Tier};
use aeg_disk::Disk;
use fact_journal::FactJournal;
use frames::Outbox;
use log_values::Fact;
use node_log::{LogNode, Member, restored};
use std::alloc::Global;
use std::marker::Model;
use svc_api::Backend;
use tier_model::{Fault, Idle, Turn};

/// A node of a backend's tier, with a fresh backend for its restarts.
#[derive(Drop)]
pub struct BackNode<B> {
    alloc: Global,
    node: LogNode<Serving<B>>,
    fresh: B,
}

impl<B> Model for BackNode<B> {
    ghost use Rattle.std.specs.Prelude.{IfSome};
    ghost use Rattle.svc_api.specs.Plan.{IsBackend};
    ghost use Rattle.server_shim.specs.Ranges.{IsShimIn};
    ghost use Rattle.tier_model.specs.Back.{Back};
    ghost use Rattle.node_log.specs.Views.{View, seen_as};
    ghost use Rattle.backend_node.specs.Backends.{back_of};

    ghost Value = { View (Back B) };

    ghost view = { λ n. seen_as back_of n.node };

    ghost invariant = { λ n. IsBackend n.node.tier × IfSome n.node.up (λ standing. IsShimIn n.node.faults standing.rest.shim) };
}

impl<B: Backend> BackNode<B> {
    /// A node that is down, on a blank disk.
    pub fn new(alloc: Global, u: u8, tier: Tier, me: u8, fresh: B) -> Self
        requires faults { u ≤ MAX_FAULTS }
        requires tier { IsBackend tier }
        requires node { me < 2 * u + 1 }
        ensures { result ≡ new_node u tier me }
    {
        BackNode {
            alloc,
            node: LogNode::new(alloc, u, NodeId { tier, index: me }),
            fresh,
        }
    }

    pub fn up(&self) -> bool
        ensures { result ≡ is_up self.now }
    {
        self.node.is_up()
    }

    /// The place of the gate that ends its journal, as far as it knows.
    pub fn place(&self) -> u64
        ensures { result ≡ self.now.place }
    {
        self.node.place()
    }

    /// It is one of its tier's nodes, and what it has is in range while it is up.
    pub fn keep(&self)
        ensures few { self.now.faults ≤ MAX_FAULTS }
        ensures node { self.now.me < 2 * self.now.faults + 1 }
        ensures tier { IsBackend self.now.tier }
        ensures log { IfSome self.now.up (λ σ. IsLogIn (IsCarried self.now.tier) FitsBallot σ.log) }
        ensures shim { IfSome self.now.up (λ σ. IsShimIn self.now.faults σ.shim) }
    {
        let _member = self.member();
        if self.node.is_up() {
            let _up = self.node.working();
        }
    }

    fn member(&self) -> Member
        ensures member { IsMember result }
        ensures faults { result.faults ≡ self.now.faults }
        ensures tier { result.me.tier ≡ self.now.tier }
        ensures index { result.me.index ≡ self.now.me }
    {
        Member {
            alloc: self.alloc,
            faults: self.node.faults(),
            me: self.node.id(),
        }
    }

    /// Goes down: all but its disk is lost.
    pub fn crash(&mut self)
        requires { is_up self.old ≡ true }
        ensures { self.new ≡ went_down self.old }
    {
        self.node.crash();
    }

    /// Takes the bytes of a packet.
    pub fn deliver<D: Disk>(
        &mut self,
        disk: &mut D,
        bytes: &[u8],
        out: &mut Outbox,
    ) -> Result<Turn, Fault>
        requires up { is_up self.old ≡ true }
        requires disk { MayWrite self.old (D.state disk.old) }
        ensures moved { Moves self.old self.new (D.state disk.old) (D.state disk.new) out.old out.new
            (on_bytes (λ from message σ. on_frame self.old.faults (backend_by B.opening B.state_after B.code_of) self.old.tier self.old.me σ from message)
            bytes.now) result }
        ensures quiet { IfOk result (λ answer. is_quiet answer ≡ true
            → IsUnmoved self.old self.new (D.state disk.old) (D.state disk.new) out.old out.new) }
        ensures ready { OnOk result (MayWrite self.new (D.state disk.new)) }
    {
        let member = self.member();
        let mut up = self.node.take_up();
        let sent = out.items().len();
        let decided = receive(member, &mut up, bytes, out);
        self.node.settle(up, decided, sent, disk, out)
    }

    /// Begins to lead.
    pub fn lead<D: Disk>(&mut self, disk: &mut D, out: &mut Outbox) -> Result<Turn, Fault>
        requires up { is_up self.old ≡ true }
        requires disk { MayWrite self.old (D.state disk.old) }
        ensures moved { Moves self.old self.new (D.state disk.old) (D.state disk.new) out.old out.new
            (leads self.old.faults (backend_by B.opening B.state_after B.code_of) self.old.tier self.old.me) result }
        ensures quiet { IfOk result (λ answer. is_quiet answer ≡ true
            → IsUnmoved self.old self.new (D.state disk.old) (D.state disk.new) out.old out.new) }
        ensures ready { OnOk result (MayWrite self.new (D.state disk.new)) }
    {
        let member = self.member();
        let mut up = self.node.take_up();
        let sent = out.items().len();
        let decided = lead(member, &mut up, out);
        self.node.settle(up, decided, sent, disk, out)
    }

    /// Offers a value, where it leads and there is one.
    pub fn offer<D: Disk>(&mut self, disk: &mut D, out: &mut Outbox) -> Result<Turn, Fault>
        requires up { is_up self.old ≡ true }
        requires disk { MayWrite self.old (D.state disk.old) }
        ensures moved { Moves self.old self.new (D.state disk.old) (D.state disk.new) out.old out.new
            (offers self.old.faults (backend_by B.opening B.state_after B.code_of) self.old.tier self.old.me) result }
        ensures quiet { IfOk result (λ answer. is_quiet answer ≡ true
            → IsUnmoved self.old self.new (D.state disk.old) (D.state disk.new) out.old out.new) }
        ensures ready { OnOk result (MayWrite self.new (D.state disk.new)) }
    {
        let member = self.member();
        let mut up = self.node.take_up();
        let sent = out.items().len();
        let decided = offer(member, &mut up, out);
        self.node.settle(up, decided, sent, disk, out)
    }

    /// The cause with which an offer would be idle now. None where it would not be.
    pub fn offer_idle(&self) -> Result<Option<Idle>, Memory>
        requires { is_up self.now ≡ true }
        ensures { IfOk result (λ cause. IfSome self.now.up (λ σ. cause
            ≡ idle_in (offers self.now.faults (backend_by B.opening B.state_after B.code_of) self.now.tier self.now.me σ).answer)) }
    {
        offer_idle(self.member(), self.node.working())
    }

    /// Tells again what may be lost: asks for the first open position, and the 16 highest answers that are kept.
    pub fn retry(&mut self, out: &mut Outbox) -> Result<Turn, Fault>
        requires { is_up self.old ≡ true }
        ensures { Tells self.old self.new out.old out.new (retry self.old.faults self.old.tier self.old.me) result }
    {
        let member = self.member();
        let up = self.node.take_up();
        let sent = out.items().len();
        match tell_again(member, &up, out) {
            Ok(()) => {
                self.node.put_back(up);
                Ok(Turn::Did)
            }
            Err(Memory) => {
                drop(up);
                out.truncate(sent);
                Err(Fault::Memory)
            }
        }
    }

    /// Comes up from what its disk has.
    pub fn restart<D: Disk>(&mut self, disk: &mut D) -> Result<(), Fault>
        requires { is_up self.old ≡ false }
        ensures restarted { Restarts self.old self.new (D.state disk.old) (D.state disk.new)
            (recovered self.old.faults (backend_by B.opening B.state_after B.code_of)) result }
        ensures ready { OnOk result (MayWrite self.new (D.state disk.new)) }
    {
        let opened = self.node.open(disk);
        self.come_up(opened)
    }

    /// Comes up with what the facts of the opened journal leave, the oldest one first.
    fn come_up(&mut self, opened: Result<(FactJournal, Vec<Fact>), Fault>) -> Result<(), Fault>
        requires down { is_up self.old ≡ false }
        requires fit { IfOk opened (λ r. FactsFit self.old.tier 0 r.1.items) }
        ensures { ComesUp self.old self.new (recovered self.old.faults (backend_by B.opening B.state_after B.code_of)) opened result }
    {
        let (journal, facts) = opened?;
        let member = self.member();
        let log = restored(self.alloc, member.faults, member.me, facts)?;
        let serving = serve_again(member, &self.fresh, &log)?;
        self.node.come_up(log, journal, serving)?;
        Ok(())
    }
}
