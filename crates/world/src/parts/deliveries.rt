// Packets that reach their ends.
ghost use Rattle.std.specs.Prelude.{◌≡◌, ◌≤◌, length, map, slice_get, IfOk};
ghost use Rattle.run_model.specs.declared.trace.Fared.{Fared};
ghost use Rattle.run_model.specs.declared.trace.Fared.TheVariants.{Fine};
ghost use Rattle.run_model.specs.declared.trace.TraceEvent.TheVariants as events;
ghost use Rattle.world.specs.Packets.{receiver_in, message_in, is_cut_in};
ghost use Rattle.world.specs.Arming.{CanStop, asked_of};
ghost use Rattle.world.specs.Standing.{AreShownOn, PlaysBy};

use super::arming::{StopAt, asked, fared, place_of};
use super::{Parts, calls};
use crate::text::{add_drop, add_frame, add_lost, add_none};
use aeg_base::limits::PACKETS_BEFORE;
use aeg_base::{Bytes, End, Memory, NodeId};
use aeg_disk::Device;
use frames::{FrameErr, Header, Msg, Outbox, Refused, decode};
use run_model::Fared;

impl Parts {
    /// The node to which the packet goes. While nothing is run, none goes to a client.
    fn receiver(&self, packet: u32) -> Option<NodeId>
        ensures { result ≡ receiver_in (slice_get self.now.soup packet) }
    {
        let (to, _) = self.soup.get(packet)?;
        match to {
            End::Node(node) => Some(node),
            End::Client(_) => None,
        }
    }

    /// What the packet says.
    fn message(&self, packet: u32) -> Result<Option<(Header, Msg)>, Memory>
        ensures { IfOk result (λ found. found ≡ message_in (slice_get self.now.soup packet)) }
    {
        let Some((_, bytes)) = self.soup.get(packet) else {
            return Ok(None);
        };
        match decode(self.alloc, bytes) {
            Ok(found) => Ok(Some(found)),
            Err(FrameErr::Refused(_)) => Ok(None),
            Err(FrameErr::Memory) => Err(Memory),
        }
    }

    /// Whether the packet has more than its first so many bytes.
    fn is_cut(&self, packet: u32, bytes: u32) -> bool
        ensures { result ≡ is_cut_in (slice_get self.now.soup packet) bytes }
    {
        match self.soup.get(packet) {
            None => false,
            Some((_, frame)) => frame.len() > bytes as usize,
        }
    }

    /// `short PACKET BYTES`
    pub fn short<D: Device>(
        &mut self,
        packet: u32,
        bytes: u32,
        disks: &mut [D],
        lines: &mut Bytes,
    ) -> Result<Fared, Memory>
        requires shown { AreShownOn self.old (map D.state disks.old) }
        requires few { length self.old.soup ≤ PACKETS_BEFORE }
        ensures { PlaysBy self.old self.new (map D.state disks.old) (map D.state disks.new) lines.old lines.new (λ (f : Fared). events.Short packet bytes f) Fine result }
    {
        if !self.is_cut(packet, bytes) {
            return self.deliver(packet, None, disks, lines);
        }
        let Some(node) = self.receiver(packet) else {
            unreachable!()
        };
        if !self.nodes.is_up(node) {
            add_lost(lines, packet)?;
            self.send(Outbox::new(self.alloc))?;
            return Ok(Fared::Fine);
        }
        add_drop(lines, End::Node(node), Refused::Short)?;
        self.send(Outbox::new(self.alloc))?;
        Ok(Fared::Fine)
    }

    /// `deliver PACKET`, during which the receiver's disk stops where that is asked.
    pub fn deliver<D: Device>(
        &mut self,
        packet: u32,
        stop: Option<StopAt>,
        disks: &mut [D],
        lines: &mut Bytes,
    ) -> Result<Fared, Memory>
        requires shown { AreShownOn self.old (map D.state disks.old) }
        requires stop { CanStop stop }
        requires few { length self.old.soup ≤ PACKETS_BEFORE }
        ensures { PlaysBy self.old self.new (map D.state disks.old) (map D.state disks.new) lines.old lines.new (λ (f : Fared). events.Deliver packet f) (asked_of stop) result }
    {
        let Some(node) = self.receiver(packet) else {
            add_none(lines, packet)?;
            self.send(Outbox::new(self.alloc))?;
            return Ok(asked(stop));
        };
        if !self.nodes.is_up(node) {
            add_lost(lines, packet)?;
            self.send(Outbox::new(self.alloc))?;
            return Ok(asked(stop));
        }
        let Some((header, msg)) = self.message(packet)? else {
            unreachable!()
        };
        let mut out = Outbox::new(self.alloc);
        let (answer, met) = calls::deliver(
            &mut self.nodes,
            node,
            header.from,
            &msg,
            stop,
            &mut disks[place_of(node)],
            &mut out,
        );
        let fared = fared(stop, met, &answer);
        add_frame(lines, node, met, answer)?;
        self.send(out)?;
        Ok(fared)
    }
}
