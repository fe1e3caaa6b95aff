// A backend node.
ghost use Rattle.std.specs.Prelude.{◌≡◌, ℕ, ◌+◌, ◌*◌, ◌<◌, ◌≤◌, List, [], true};
ghost use Rattle.svc_api.specs.Plan.{IsBackend};
ghost use Rattle.aeg_base.specs.declared.names.End.{End};
ghost use Rattle.aeg_disk.specs.Disk.{DiskState};
ghost use Rattle.log_model.specs.Nodes.Mode.{Down};
ghost use Rattle.frames.specs.declared.message.Msg.TheVariants as msgs;
ghost use Rattle.tier_model.specs.BackRows.{on_frame, leads, offers, retry};
ghost use Rattle.run_model.specs.BookingRuns.{booking_service};
ghost use Rattle.world.specs.Commands.{row_of};
ghost use Rattle.world.specs.NodeLists.{condition_in};
ghost use Rattle.world.specs.Parts.{BackMoves, BackRestarts, CanReach, MayRead, MayWrite, back_shape, goes_down, is_sure_now, is_up, is_wiped, new_part, view_with};

use super::command::Command;
use super::condition::Condition;
use super::log_node::LogNode;
use super::telling::offer_cause;
use aeg_base::limits::MAX_FAULTS;
use aeg_base::{End, NodeId, Tier};
use aeg_disk::Disk;
use frames::{Msg, Outbox, Refused};
use log_values::AnyValue;
use paxos_log::PaxMsg;
use std::alloc::Global;
use std::marker::Model;
use tier_model::{Fault, Idle, Turn};

/// A backend node while nothing is run: its log, which no value reaches.
#[derive(Drop)]
pub struct BackNode {
    node: LogNode,
}

impl Model for BackNode {
    ghost use Rattle.std.specs.Prelude.{◌+◌, ◌*◌, ◌<◌, ◌≤◌};
    ghost use Rattle.aeg_base.specs.declared.limits.TheConstants.{MAX_FAULTS};
    ghost use Rattle.svc_api.specs.Plan.{IsBackend};
    ghost use Rattle.world.specs.Parts.{BackView};

    ghost Value = { BackView };

    ghost view = { λ n. record { faults = n.node.faults; tier = n.node.tier; depth = 0; me = n.node.me; part = n.node.part } };

    ghost invariant = { λ n. IsBackend n.node.tier × (n.node.me < 2 * n.node.faults + 1) × (n.node.faults ≤ MAX_FAULTS) };
}

impl BackNode {
    /// A node that is down, on a blank disk.
    pub fn new(alloc: Global, u: u8, tier: Tier, me: u8) -> Self
        requires faults { u ≤ MAX_FAULTS }
        requires tier { IsBackend tier }
        requires node { me < 2 * u + 1 }
        ensures { result ≡ record { faults = u; tier = tier; depth = 0; me = me; part = new_part } }
    {
        BackNode {
            node: LogNode::new(alloc, u, NodeId { tier, index: me }),
        }
    }

    pub fn condition(&self) -> Condition
        ensures { result ≡ condition_in self.now.part.mode }
    {
        self.node.condition()
    }

    pub fn is_up(&self) -> bool
        ensures { result ≡ is_up self.now.part }
    {
        self.node.is_up()
    }

    /// Goes down: all but its disk is lost.
    pub fn crash(&mut self)
        requires { is_up self.old.part ≡ true }
        ensures { self.new ≡ view_with goes_down self.old }
    {
        self.node.crash();
    }

    /// Is gone for good.
    pub fn wipe(&mut self)
        ensures { self.new ≡ view_with is_wiped self.old }
    {
        self.node.wipe();
    }

    /// Is told that its disk has just the records that its stop left.
    pub fn be_sure(&mut self)
        ensures { self.new ≡ view_with is_sure_now self.old }
    {
        self.node.be_sure();
    }

    /// Comes up from what its disk has, and answers which of the lists that it may stand for that is.
    pub fn restart<D: Disk>(&mut self, disk: &mut D) -> Result<u8, Fault>
        requires down { self.old.part.mode ≡ Down }
        requires disk { MayRead self.old.tier (D.state disk.old) }
        ensures { BackRestarts self.old self.new (D.state disk.old) (D.state disk.new) result }
    {
        self.node.restart(disk)
    }

    /// Takes a packet.
    pub fn deliver<D: Disk>(
        &mut self,
        from: End,
        msg: &Msg,
        disk: &mut D,
        out: &mut Outbox,
    ) -> Result<Turn, Fault>
        requires up { is_up self.old.part ≡ true }
        requires disk { MayWrite self.old.part (D.state disk.old) }
        requires reach { CanReach self.old.faults from self.old.tier msg.now }
        ensures { BackMoves self.old self.new (D.state disk.old) (D.state disk.new) out.old out.new (λ σ. on_frame self.old.faults (booking_service.backend self.old.tier) self.old.tier self.old.me σ from msg.now) result }
    {
        match msg {
            Msg::Log(message) => self.on_log(from, message, disk, out),
            _ => Ok(Turn::Dropped(Refused::Row(7))),
        }
    }

    fn on_log<D: Disk>(
        &mut self,
        from: End,
        message: &PaxMsg<AnyValue>,
        disk: &mut D,
        out: &mut Outbox,
    ) -> Result<Turn, Fault>
        requires up { is_up self.old.part ≡ true }
        requires disk { MayWrite self.old.part (D.state disk.old) }
        requires reach { CanReach self.old.faults from self.old.tier (msgs.Log message.now) }
        ensures { BackMoves self.old self.new (D.state disk.old) (D.state disk.new) out.old out.new (λ σ. on_frame self.old.faults (booking_service.backend self.old.tier) self.old.tier self.old.me σ from (msgs.Log message.now)) result }
    {
        let Some(index) = self.node.peer(from) else {
            return Ok(Turn::Dropped(Refused::Row(7)));
        };
        self.node.on_msg(index, message, disk, out)
    }

    /// Begins to lead.
    fn lead<D: Disk>(&mut self, disk: &mut D, out: &mut Outbox) -> Result<Turn, Fault>
        requires up { is_up self.old.part ≡ true }
        requires disk { MayWrite self.old.part (D.state disk.old) }
        ensures { BackMoves self.old self.new (D.state disk.old) (D.state disk.new) out.old out.new (λ σ. leads self.old.faults (booking_service.backend self.old.tier) self.old.tier self.old.me σ) result }
    {
        self.node.lead(disk, out)
    }

    /// Has no value of its own to offer, and none was reported.
    fn offer(&self) -> Turn
        requires { is_up self.now.part ≡ true }
        ensures { (disk : DiskState) (out : List (End × List ℕ)) → BackMoves self.now self.now disk disk out out (λ σ. offers self.now.faults (booking_service.backend self.now.tier) self.now.tier self.now.me σ) (Ok result) }
    {
        if let Some(cause) = offer_cause(self.node.wants()) {
            return Turn::Idle(cause);
        }
        Turn::Idle(Idle::Nothing)
    }

    /// Does what it is told.
    pub fn obey<D: Disk>(
        &mut self,
        command: Command,
        disk: &mut D,
        out: &mut Outbox,
    ) -> Result<Turn, Fault>
        requires up { is_up self.old.part ≡ true }
        requires disk { MayWrite self.old.part (D.state disk.old) }
        ensures { BackMoves self.old self.new (D.state disk.old) (D.state disk.new) out.old out.new (row_of command (back_shape.rows self.old)) result }
    {
        match command {
            Command::Lead => self.lead(disk, out),
            Command::Offer => Ok(self.offer()),
        }
    }

    /// Tells again what may be lost: while nothing is run, its Asks alone.
    pub fn retry(&self, out: &mut Outbox) -> Result<Turn, Fault>
        requires { is_up self.now.part ≡ true }
        ensures { (disk : DiskState) → BackMoves self.now self.now disk disk out.old out.new (λ σ. retry self.now.faults self.now.tier self.now.me σ) result }
    {
        self.node.ask(out)?;
        Ok(Turn::Did)
    }
}
