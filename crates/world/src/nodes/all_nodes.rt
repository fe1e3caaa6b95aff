// The nodes of the three tiers.
ghost use Rattle.std.specs.Prelude.{◌≡◌, ℕ, ◌+◌, ◌*◌, ◌<◌, ◌≤◌, ◌++◌, List, IfOk};
ghost use Rattle.svc_api.specs.Plan.{IsBackend};
ghost use Rattle.aeg_base.specs.declared.names.End.{End};
ghost use Rattle.log_model.specs.Log.{nobody};
ghost use Rattle.round_model.specs.Lists.{each};
ghost use Rattle.aeg_disk.specs.Disk.{DiskState};
ghost use Rattle.world.specs.Commands.{row_of};
ghost use Rattle.world.specs.Parts.{MayRead, goes_down, is_sure_now, is_wiped};
ghost use Rattle.world.specs.NodeLists.{new_mid, new_back, AreNew, HasNode, KeepTiers, up_at, IsUpAt, IsDownAt, condition_at, Changes, NodesMove, NodeRestarts, CanReachAt, MayWriteAt};

use super::back_node::BackNode;
use super::command::Command;
use super::condition::Condition;
use super::mid_node::MidNode;
use aeg_base::limits::MAX_FAULTS;
use aeg_base::{End, Memory, NodeId, Tier};
use aeg_disk::Disk;
use frames::{Msg, Outbox};
use std::alloc::Global;
use tier_model::{Fault, Turn};

/// The nodes of each tier by their indexes.
#[derive(Drop)]
pub struct Nodes {
    mids: Vec<MidNode>,
    invs: Vec<BackNode>,
    pays: Vec<BackNode>,
}

/// The middle nodes of a tier of 2u+1.
fn new_mids(alloc: Global, u: u8, depth: u8) -> Result<Vec<MidNode>, Memory>
    requires { u ≤ MAX_FAULTS }
    ensures { IfOk result (λ nodes. nodes.items ≡ each (2 * u + 1) nobody (new_mid u depth)) }
{
    let mut nodes = Vec::new(alloc);
    for me in 0..2 * u + 1 {
        nodes.push(MidNode::new(alloc, u, depth, me))?;
    }
    Ok(nodes)
}

/// The nodes of a backend's tier of 2u+1.
fn new_backs(alloc: Global, u: u8, tier: Tier) -> Result<Vec<BackNode>, Memory>
    requires few { u ≤ MAX_FAULTS }
    requires tier { IsBackend tier }
    ensures { IfOk result (λ nodes. nodes.items ≡ each (2 * u + 1) nobody (new_back u tier)) }
{
    let mut nodes = Vec::new(alloc);
    for me in 0..2 * u + 1 {
        nodes.push(BackNode::new(alloc, u, tier, me))?;
    }
    Ok(nodes)
}

impl Nodes {
    /// All are down, on blank disks.
    pub fn new(alloc: Global, u: u8, depth: u8) -> Result<Self, Memory>
        requires { u ≤ MAX_FAULTS }
        ensures { IfOk result (λ nodes. AreNew u depth nodes) }
    {
        let mids = new_mids(alloc, u, depth)?;
        let invs = new_backs(alloc, u, Tier::Inv)?;
        let pays = new_backs(alloc, u, Tier::Pay)?;
        Ok(Nodes { mids, invs, pays })
    }

    pub fn condition(&self, node: NodeId) -> Condition
        requires { HasNode self.now node }
        ensures { result ≡ condition_at self.now node.tier node.index }
    {
        let x = usize::from(node.index);
        match node.tier {
            Tier::Mid => self.mids[x].condition(),
            Tier::Inv => self.invs[x].condition(),
            Tier::Pay => self.pays[x].condition(),
        }
    }

    pub fn is_up(&self, node: NodeId) -> bool
        requires { HasNode self.now node }
        ensures { result ≡ up_at self.now node }
    {
        let x = usize::from(node.index);
        match node.tier {
            Tier::Mid => self.mids[x].is_up(),
            Tier::Inv => self.invs[x].is_up(),
            Tier::Pay => self.pays[x].is_up(),
        }
    }

    /// The node goes down: all but its disk is lost.
    pub fn crash(&mut self, node: NodeId)
        requires { IsUpAt self.old node }
        ensures { Changes self.old self.new node (λ S. goes_down {S = S}) }
    {
        let x = usize::from(node.index);
        match node.tier {
            Tier::Mid => self.mids[x].crash(),
            Tier::Inv => self.invs[x].crash(),
            Tier::Pay => self.pays[x].crash(),
        }
    }

    /// The node is gone for good.
    pub fn wipe(&mut self, node: NodeId)
        requires { HasNode self.old node }
        ensures { Changes self.old self.new node (λ S. is_wiped {S = S}) }
    {
        let x = usize::from(node.index);
        match node.tier {
            Tier::Mid => self.mids[x].wipe(),
            Tier::Inv => self.invs[x].wipe(),
            Tier::Pay => self.pays[x].wipe(),
        }
    }

    /// The node is told that its disk has just the records that its stop left.
    pub fn be_sure(&mut self, node: NodeId)
        requires { HasNode self.old node }
        ensures { Changes self.old self.new node (λ S. is_sure_now {S = S}) }
    {
        let x = usize::from(node.index);
        match node.tier {
            Tier::Mid => self.mids[x].be_sure(),
            Tier::Inv => self.invs[x].be_sure(),
            Tier::Pay => self.pays[x].be_sure(),
        }
    }

    /// The node comes up from what its disk has, and answers which of the lists that it may stand for that is.
    pub fn restart<D: Disk>(&mut self, node: NodeId, disk: &mut D) -> Result<u8, Fault>
        requires down { IsDownAt self.old node }
        requires disk { MayRead node.tier (D.state disk.old) }
        requires tiers { KeepTiers self.old }
        ensures { NodeRestarts self.old self.new node (D.state disk.old) (D.state disk.new) result }
    {
        let x = usize::from(node.index);
        match node.tier {
            Tier::Mid => self.mids[x].restart(disk),
            Tier::Inv => self.invs[x].restart(disk),
            Tier::Pay => self.pays[x].restart(disk),
        }
    }

    /// The node takes a packet.
    pub fn deliver<D: Disk>(
        &mut self,
        node: NodeId,
        from: End,
        msg: &Msg,
        disk: &mut D,
        out: &mut Outbox,
    ) -> Result<Turn, Fault>
        requires up { IsUpAt self.old node }
        requires disk { MayWriteAt self.old node (D.state disk.old) }
        requires reach { CanReachAt self.old node from msg.now }
        ensures { NodesMove self.old self.new node (D.state disk.old) (D.state disk.new) out.old out.new (λ S k. k.on_frame from msg.now) result }
    {
        let x = usize::from(node.index);
        match node.tier {
            Tier::Mid => self.mids[x].deliver(from, msg, disk, out),
            Tier::Inv => self.invs[x].deliver(from, msg, disk, out),
            Tier::Pay => self.pays[x].deliver(from, msg, disk, out),
        }
    }

    /// The node does what it is told.
    pub fn obey<D: Disk>(
        &mut self,
        node: NodeId,
        command: Command,
        disk: &mut D,
        out: &mut Outbox,
    ) -> Result<Turn, Fault>
        requires up { IsUpAt self.old node }
        requires disk { MayWriteAt self.old node (D.state disk.old) }
        ensures { NodesMove self.old self.new node (D.state disk.old) (D.state disk.new) out.old out.new (λ S k. row_of command k) result }
    {
        let x = usize::from(node.index);
        match node.tier {
            Tier::Mid => self.mids[x].obey(command, disk, out),
            Tier::Inv => self.invs[x].obey(command, disk, out),
            Tier::Pay => self.pays[x].obey(command, disk, out),
        }
    }

    /// The node tells again what may be lost.
    pub fn retry(&mut self, node: NodeId, out: &mut Outbox) -> Result<Turn, Fault>
        requires { IsUpAt self.old node }
        ensures { (disk : DiskState) → NodesMove self.old self.new node disk disk out.old out.new (λ S k. k.retry) result }
    {
        let x = usize::from(node.index);
        match node.tier {
            Tier::Mid => self.mids[x].retry(out),
            Tier::Inv => self.invs[x].retry(out),
            Tier::Pay => self.pays[x].retry(out),
        }
    }
}
