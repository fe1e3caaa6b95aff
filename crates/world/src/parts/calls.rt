// Calls at nodes, during which a disk may stop.
ghost use Rattle.std.specs.Prelude.{◌≡◌};
ghost use Rattle.world.specs.Arming.{armed_with, at_rest};
ghost use Rattle.world.specs.Calling.{Called, IsSureIf};
ghost use Rattle.world.specs.Commands.{row_of};
ghost use Rattle.world.specs.Parts.{MayRead};
ghost use Rattle.world.specs.NodeLists.{HasNode, IsUpAt, IsDownAt, KeepTiers, MayWriteAt, CanReachAt, NodeRestarts};

use super::arming::{StopAt, arm};
use crate::nodes::{Command, Nodes};
use aeg_base::{End, NodeId};
use aeg_disk::Device;
use frames::{Msg, Outbox};
use tier_model::{Fault, Turn};

/// Puts the power back after a call, and says whether an armed stop was met. The node is sure of its disk then.
fn power<D: Device>(nodes: &mut Nodes, node: NodeId, disk: &mut D) -> bool
    requires { HasNode nodes.old node }
    ensures met { result ≡ (D.state disk.old).stopped }
    ensures rests { D.state disk.new ≡ at_rest (D.state disk.old) }
    ensures sure { IsSureIf result nodes.old nodes.new node.tier node.index }
{
    let met = disk.power();
    if met {
        nodes.be_sure(node);
    }
    met
}

/// The node does what it is told. Says its answer, and whether its disk met an armed stop.
pub fn obey<D: Device>(
    nodes: &mut Nodes,
    node: NodeId,
    command: Command,
    stop: Option<StopAt>,
    disk: &mut D,
    out: &mut Outbox,
) -> (Result<Turn, Fault>, bool)
    requires up { IsUpAt nodes.old node }
    requires disk { MayWriteAt nodes.old node (armed_with stop (D.state disk.old)) }
    ensures { Called nodes.old nodes.new node.tier node.index stop (D.state disk.old) (D.state disk.new) out.old out.new (λ S k. row_of command k) result.0 result.1 }
{
    arm(disk, stop);
    let answer = nodes.obey(node, command, disk, out);
    let met = power(nodes, node, disk);
    (answer, met)
}

/// The node takes a packet.
pub fn deliver<D: Device>(
    nodes: &mut Nodes,
    node: NodeId,
    from: End,
    msg: &Msg,
    stop: Option<StopAt>,
    disk: &mut D,
    out: &mut Outbox,
) -> (Result<Turn, Fault>, bool)
    requires up { IsUpAt nodes.old node }
    requires disk { MayWriteAt nodes.old node (armed_with stop (D.state disk.old)) }
    requires reach { CanReachAt nodes.old node from msg.now }
    ensures { Called nodes.old nodes.new node.tier node.index stop (D.state disk.old) (D.state disk.new) out.old out.new (λ S k. k.on_frame from msg.now) result.0 result.1 }
{
    arm(disk, stop);
    let answer = nodes.deliver(node, from, msg, disk, out);
    let met = power(nodes, node, disk);
    (answer, met)
}

/// The node comes up from what its disk has, under power again.
pub fn restart<D: Device>(nodes: &mut Nodes, node: NodeId, disk: &mut D) -> Result<u8, Fault>
    requires down { IsDownAt nodes.old node }
    requires disk { MayRead node.tier (at_rest (D.state disk.old)) }
    requires tiers { KeepTiers nodes.old }
    ensures { NodeRestarts nodes.old nodes.new node (at_rest (D.state disk.old)) (D.state disk.new) result }
{
    disk.power();
    nodes.restart(node, disk)
}
