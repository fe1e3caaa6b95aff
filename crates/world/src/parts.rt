// The nodes, the clients and the packets of a run.
ghost use Rattle.std.specs.Prelude.{◌≡◌, ℕ, ◌+◌, ◌*◌, ◌<◌, ◌≤◌, ◌++◌, [], length, OnOk};
ghost use Rattle.round_model.specs.Lists.{of_tier};
ghost use Rattle.world.specs.Calling.{absent_text, parts_after};
ghost use Rattle.world.specs.NodeLists.{HasNode, condition_at};
ghost use Rattle.world.specs.Watching.{hears_packets, all_grown};

mod arming;
mod calls;
mod clients;
mod commands;
mod deliveries;
mod flow;
mod power;
mod starting;

use crate::nodes::{Condition, Nodes};
use crate::text::{add_gone, add_idle_down};
use crate::watch::Watch;
use aeg_base::limits::{PACKETS, PACKETS_BEFORE};
use aeg_base::{Bytes, End, Memory, NodeId, Tier};
pub use arming::StopAt;
use frames::Outbox;
use net_script::{ClientEnd, Soup};
use std::alloc::Global;

/// The nodes, the client ends by the clients' numbers, all packets, and what is seen of them.
#[derive(Drop)]
pub struct Parts {
    alloc: Global,
    u: u8,
    nodes: Nodes,
    clients: Vec<ClientEnd>,
    soup: Soup,
    watch: Watch,
}

/// Adds the packets to the list of all, and takes note of them.
fn join(soup: &mut Soup, watch: &mut Watch, packets: Vec<(End, Bytes)>) -> Result<(), Memory>
    requires { length soup.old + length packets.items ≤ PACKETS }
    ensures { OnOk result ((soup.new ≡ soup.old ++ packets.items) × (watch.new ≡ hears_packets watch.old packets.items)) }
{
    for (to, bytes) in packets {
        watch.hear(bytes.items())?;
        soup.push(to, bytes)?;
    }
    Ok(())
}

impl Parts {
    /// How many nodes of a tier of 2u+1 can fail.
    pub fn faults(&self) -> u8
        ensures { result ≡ self.now.u }
    {
        self.u
    }

    /// How many packets were sent.
    pub fn packets(&self) -> u32
        ensures is { result ≡ length self.now.soup }
        ensures few { result ≤ PACKETS }
    {
        self.soup.len()
    }

    /// How many positions of the tier's log are chosen.
    pub fn chosen(&self, tier: Tier) -> u32
        ensures { result ≡ (of_tier self.now.watch tier).chosen }
    {
        self.watch.chosen(tier)
    }

    /// A command at a node that isn't up tells why, and nothing is done.
    fn pass_over(&mut self, node: NodeId, lines: &mut Bytes) -> Result<(), Memory>
        requires there { HasNode self.old.nodes node }
        requires few { length self.old.soup ≤ PACKETS_BEFORE }
        ensures told { OnOk result (lines.new ≡ lines.old ++ absent_text node (condition_at self.old.nodes node.tier node.index)) }
        ensures same { OnOk result (self.new ≡ parts_after self.old self.old.nodes []) }
        ensures within { OnOk result (length self.new.soup ≤ PACKETS) }
    {
        match self.nodes.condition(node) {
            Condition::Up => {}
            Condition::Down => add_idle_down(lines, node)?,
            Condition::Gone => add_gone(lines, node)?,
        }
        self.send(Outbox::new(self.alloc))
    }

    /// Ends an event: its packets are on their way, and the logs go on by what they let be chosen.
    fn send(&mut self, out: Outbox) -> Result<(), Memory>
        requires { length self.old.soup + length out ≤ PACKETS }
        ensures { OnOk result ((self.new ≡ record self.old { soup = self.old.soup ++ out; watch = all_grown (hears_packets self.old.watch out) }) × (length self.new.soup ≤ PACKETS)) }
    {
        join(&mut self.soup, &mut self.watch, out.into_vec())?;
        self.watch.grow();
        Ok(())
    }
}
