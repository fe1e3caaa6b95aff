// A middle node.
ghost use Rattle.std.specs.Prelude.{◌≡◌, ℕ, ◌+◌, ◌*◌, ◌<◌, ◌≤◌, List, [], true, IfOk};
ghost use Rattle.aeg_base.specs.declared.names.Tier.TheVariants as tiers;
ghost use Rattle.aeg_base.specs.declared.names.End.{End};
ghost use Rattle.log_model.specs.Log.{open_at};
ghost use Rattle.log_model.specs.Ranges.{IsOwnIn};
ghost use Rattle.aeg_disk.specs.Disk.{DiskState};
ghost use Rattle.log_model.specs.Nodes.Mode.{Up, Down};
ghost use Rattle.frames.specs.declared.message.Msg.TheVariants as msgs;
ghost use Rattle.tier_model.specs.MidRows.{on_frame, leads, offers, retry, own_value, own_cause};
ghost use Rattle.run_model.specs.BookingRuns.{booking_service};
ghost use Rattle.world.specs.Commands.{row_of};
ghost use Rattle.world.specs.LogNodes.{OwnStands};
ghost use Rattle.world.specs.NodeLists.{condition_in};
ghost use Rattle.world.specs.Parts.{CanReach, CanStand, IsAsked, MayRead, MayWrite, MidMoves, MidPart, MidRestarts, as_mid, goes_down, is_sure_now, is_up, is_wiped, mid_shape, new_part, view_with};

use super::command::Command;
use super::condition::Condition;
use super::log_node::LogNode;
use super::pending::Pending;
use super::telling::{needs_own, offer_cause};
use aeg_base::limits::{MAX_DEPTH, MAX_FAULTS};
use aeg_base::{Bytes, End, Memory, NodeId, Seq, Tier};
use aeg_disk::Disk;
use booking::read_request;
use frames::{Msg, Outbox, Refused};
use log_values::{AnyValue, Entry, MidValue};
use paxos_log::PaxMsg;
use std::alloc::Global;
use std::marker::Model;
use tier_model::{Fault, Idle, Turn};

/// A middle node while nothing is run: its log, and the requests that wait for their round.
#[derive(Drop)]
pub struct MidNode {
    alloc: Global,
    depth: u8,
    node: LogNode,
    pending: Pending,
}

impl Model for MidNode {
    ghost use Rattle.std.specs.Prelude.{◌≡◌, ◌+◌, ◌*◌, ◌<◌, ◌≤◌};
    ghost use Rattle.aeg_base.specs.declared.limits.TheConstants.{MAX_FAULTS};
    ghost use Rattle.aeg_base.specs.declared.names.Tier.TheVariants as tiers;
    ghost use Rattle.world.specs.Parts.{MidView};
    ghost use Rattle.world.specs.LogNodes.{mid_part};

    ghost Value = { MidView };

    ghost view = { λ n. record { faults = n.node.faults; tier = tiers.Mid; depth = n.depth; me = n.node.me; part = mid_part n.node.part n.pending } };

    ghost invariant = { λ n. (n.node.tier ≡ tiers.Mid) × (n.node.me < 2 * n.node.faults + 1) × (n.node.faults ≤ MAX_FAULTS) };
}

impl MidNode {
    /// A node that is down, on a blank disk.
    pub fn new(alloc: Global, u: u8, depth: u8, me: u8) -> Self
        requires faults { u ≤ MAX_FAULTS }
        requires node { me < 2 * u + 1 }
        ensures { result ≡ record { faults = u; tier = tiers.Mid; depth = depth; me = me; part = new_part } }
    {
        let id = NodeId {
            tier: Tier::Mid,
            index: me,
        };
        MidNode {
            alloc,
            depth,
            node: LogNode::new(alloc, u, id),
            pending: Pending::new(),
        }
    }

    pub fn condition(&self) -> Condition
        ensures { result ≡ condition_in self.now.part.mode }
    {
        self.node.condition()
    }

    pub fn is_up(&self) -> bool
        ensures { result ≡ is_up self.now.part }
    {
        self.node.is_up()
    }

    /// Goes down: all but its disk is lost.
    pub fn crash(&mut self)
        requires { is_up self.old.part ≡ true }
        ensures { self.new ≡ view_with goes_down self.old }
    {
        self.node.crash();
    }

    /// Is gone for good.
    pub fn wipe(&mut self)
        ensures { self.new ≡ view_with is_wiped self.old }
    {
        self.node.wipe();
    }

    /// Is told that its disk has just the records that its stop left.
    pub fn be_sure(&mut self)
        ensures { self.new ≡ view_with is_sure_now self.old }
    {
        self.node.be_sure();
    }

    /// Comes up from what its disk has, and answers which of the lists that it may stand for that is.
    pub fn restart<D: Disk>(&mut self, disk: &mut D) -> Result<u8, Fault>
        requires down { self.old.part.mode ≡ Down }
        requires disk { MayRead tiers.Mid (D.state disk.old) }
        ensures { MidRestarts self.old self.new (D.state disk.old) (D.state disk.new) result }
    {
        self.pending = Pending::new();
        self.node.restart(disk)
    }

    /// Takes a packet.
    pub fn deliver<D: Disk>(
        &mut self,
        from: End,
        msg: &Msg,
        disk: &mut D,
        out: &mut Outbox,
    ) -> Result<Turn, Fault>
        requires up { is_up self.old.part ≡ true }
        requires disk { MayWrite self.old.part (D.state disk.old) }
        requires reach { CanReach self.old.faults from tiers.Mid msg.now }
        ensures { MidMoves self.old self.new (D.state disk.old) (D.state disk.new) out.old out.new (λ σ. on_frame self.old.faults booking_service.programs self.old.me σ from msg.now) result }
    {
        match msg {
            Msg::Log(message) => self.on_log(from, message, disk, out),
            Msg::Request { seq, body } => self.on_request(from, *seq, body),
            _ => Ok(Turn::Dropped(Refused::Row(7))),
        }
    }

    /// Begins to lead.
    fn lead<D: Disk>(&mut self, disk: &mut D, out: &mut Outbox) -> Result<Turn, Fault>
        requires up { is_up self.old.part ≡ true }
        requires disk { MayWrite self.old.part (D.state disk.old) }
        ensures { MidMoves self.old self.new (D.state disk.old) (D.state disk.new) out.old out.new (λ σ. leads self.old.faults booking_service.programs self.old.me σ) result }
    {
        self.node.lead(disk, out)
    }

    /// Offers the value that was reported, or its own.
    fn offer<D: Disk>(&mut self, disk: &mut D, out: &mut Outbox) -> Result<Turn, Fault>
        requires up { is_up self.old.part ≡ true }
        requires disk { MayWrite self.old.part (D.state disk.old) }
        ensures { MidMoves self.old self.new (D.state disk.old) (D.state disk.new) out.old out.new (λ σ. offers self.old.faults booking_service.programs self.old.me σ) result }
    {
        let wants = self.node.wants();
        if let Some(cause) = offer_cause(wants) {
            return Ok(Turn::Idle(cause));
        }
        let own = self.own_value()?;
        if own.is_none() && needs_own(wants) {
            return Ok(Turn::Idle(self.own_cause()));
        }
        self.node.offer(own.as_ref(), disk, out)
    }

    /// Does what it is told.
    pub fn obey<D: Disk>(
        &mut self,
        command: Command,
        disk: &mut D,
        out: &mut Outbox,
    ) -> Result<Turn, Fault>
        requires up { is_up self.old.part ≡ true }
        requires disk { MayWrite self.old.part (D.state disk.old) }
        ensures { MidMoves self.old self.new (D.state disk.old) (D.state disk.new) out.old out.new (row_of command (mid_shape.rows self.old)) result }
    {
        match command {
            Command::Lead => self.lead(disk, out),
            Command::Offer => self.offer(disk, out),
        }
    }

    /// Tells again what may be lost: while nothing is run, its Asks alone.
    pub fn retry(&self, out: &mut Outbox) -> Result<Turn, Fault>
        requires { is_up self.now.part ≡ true }
        ensures { (disk : DiskState) → MidMoves self.now self.now disk disk out.old out.new (λ σ. retry self.now.faults self.now.me σ) result }
    {
        self.node.ask(out)?;
        Ok(Turn::Did)
    }

    fn on_log<D: Disk>(
        &mut self,
        from: End,
        message: &PaxMsg<AnyValue>,
        disk: &mut D,
        out: &mut Outbox,
    ) -> Result<Turn, Fault>
        requires up { is_up self.old.part ≡ true }
        requires disk { MayWrite self.old.part (D.state disk.old) }
        requires reach { CanReach self.old.faults from tiers.Mid (msgs.Log message.now) }
        ensures { MidMoves self.old self.new (D.state disk.old) (D.state disk.new) out.old out.new (λ σ. on_frame self.old.faults booking_service.programs self.old.me σ from (msgs.Log message.now)) result }
    {
        let Some(index) = self.node.peer(from) else {
            return Ok(Turn::Dropped(Refused::Row(7)));
        };
        self.node.on_msg(index, message, disk, out)
    }

    fn on_request(&mut self, from: End, seq: u32, body: &Bytes) -> Result<Turn, Fault>
        requires { IsAsked from seq body.now }
        ensures { (disk : DiskState) (out : List (End × List ℕ)) → MidMoves self.old self.new disk disk out out (λ σ. on_frame self.old.faults booking_service.programs self.old.me σ from (msgs.Request seq body.now)) result }
    {
        let End::Client(client) = from else {
            return Ok(Turn::Dropped(Refused::Row(7)));
        };
        if read_request(body.items()).is_err() {
            return Ok(Turn::Dropped(Refused::Row(8)));
        }
        // No request was done, so each client's first one is its next.
        if seq != 1 || self.pending.has(client, seq) {
            return Ok(Turn::Idle(Idle::Nothing));
        }
        let body = body.copy()?;
        self.pending.set(Entry { client, seq, body });
        Ok(Turn::Did)
    }

    /// Its own value for the first open position. No round has a verdict while nothing is run, so only the batch of the
    /// first one can be offered.
    fn own_value(&self) -> Result<Option<AnyValue>, Memory>
        requires { is_up self.now.part ≡ true }
        ensures value { (part : MidPart) → self.now.part.mode ≡ Up part → IfOk result (λ own. own ≡ own_value self.now.faults booking_service.programs (as_mid self.now.faults self.now.me self.now.depth part)) }
        ensures range { (part : MidPart) → self.now.part.mode ≡ Up part → IfOk result (λ own. IsOwnIn (CanStand tiers.Mid) (open_at part.log) own) }
        // It can stand there, whether or not there was memory for it.
        ensures stands { OwnStands self.now }
    {
        if self.node.first_open() > 0 {
            return Ok(None);
        }
        let batch = self.pending.batch(self.alloc)?;
        if batch.is_empty() {
            return Ok(None);
        }
        let batch = MidValue::Batch(Seq::of(batch));
        Ok(Some(AnyValue::Mid(batch)))
    }

    /// Why it has none.
    fn own_cause(&self) -> Idle
        requires { is_up self.now.part ≡ true }
        ensures { (part : MidPart) → self.now.part.mode ≡ Up part → result ≡ own_cause self.now.faults (as_mid self.now.faults self.now.me self.now.depth part) }
    {
        if self.node.first_open() > 0 {
            return Idle::NoTokens { have: 0 };
        }
        Idle::Nothing
    }
}
