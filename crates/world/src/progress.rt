// A run so far.
ghost use Rattle.std.specs.Prelude.{◌≡◌, ◌∷◌, [], ◌++◌, ◌+◌, ◌*◌, ◌<◌, ◌≤◌, true, List, length, map, OnOk, IfOk};
ghost use Rattle.aeg_base.specs.declared.names.End.TheVariants as ends;
ghost use Rattle.log_values.specs.Fields.{IsClient};
ghost use Rattle.run_model.specs.Script.{is_asked};
ghost use Rattle.run_model.specs.declared.line.Event.TheVariants as script;
ghost use Rattle.run_model.specs.declared.trace.Fared.TheVariants.{Fine};
ghost use Rattle.run_model.specs.declared.trace.Found.TheVariants.{Reads};
ghost use Rattle.run_model.specs.declared.trace.TraceEvent.TheVariants as events;
ghost use Rattle.aeg_disk.specs.Disk.{DiskState};
ghost use Rattle.world.specs.Arming.{CanStop, asked_of};
ghost use Rattle.world.specs.Commands.{event_of};
ghost use Rattle.world.specs.Disks.{AreDisks};
ghost use Rattle.world.specs.Run.{new_run, world_of, closing_of};
ghost use Rattle.world.specs.Going.{place_at, run_of, IsInStep, StandsOn, Adds};

mod lines;
mod starting;

use crate::nodes::Command;
use crate::parts::{Parts, StopAt};
use crate::text::add_closing;
use aeg_base::limits::{MAX_FAULTS, PACKETS_BEFORE};
use aeg_base::{Bytes, End, Memory, NodeId, Seq, Tier};
use aeg_disk::Device;
use run_model::TraceEvent;
use std::alloc::Global;

/// Its events, the parts as they left them, and the packet that `flow` delivers next.
#[derive(Drop)]
pub struct Progress {
    depth: u8,
    cursor: u32,
    trace: Seq<TraceEvent>,
    parts: Parts,
}

impl Progress {
    /// No event was made.
    pub fn new(alloc: Global, u: u8, depth: u8) -> Result<Self, Memory>
        requires { u ≤ MAX_FAULTS }
        ensures { IfOk result (λ progress. (run_of progress ≡ new_run u depth) × IsInStep progress) }
    {
        let parts = Parts::new(alloc, u, depth)?;
        Ok(Progress {
            depth,
            cursor: 0,
            trace: Seq::new(alloc),
            parts,
        })
    }

    /// The events so far.
    pub fn trace(&self) -> &[TraceEvent]
        ensures { result.now ≡ self.now.trace }
    {
        self.trace.items()
    }

    /// Adds the closing lines.
    pub fn close(&self, lines: &mut Bytes) -> Result<(), Memory>
        requires { IsInStep self.now }
        ensures { OnOk result (lines.new ≡ lines.old ++ closing_of (run_of self.now)) }
    {
        let mid = self.parts.chosen(Tier::Mid);
        let inv = self.parts.chosen(Tier::Inv);
        let pay = self.parts.chosen(Tier::Pay);
        add_closing(lines, mid, inv, pay, self.parts.packets())
    }

    /// Takes note of an event that was made.
    fn note(&mut self, event: TraceEvent, cursor: u32) -> Result<(), Memory>
        ensures { OnOk result (self.new ≡ record self.old { trace = self.old.trace ++ event ∷ []; cursor = cursor }) }
    {
        self.trace.push(event)?;
        self.cursor = cursor;
        Ok(())
    }

    fn submit(&mut self, client: u8, body: &Bytes, lines: &mut Bytes) -> Result<(), Memory>
        requires step { IsInStep self.old }
        requires few { length self.old.parts.soup ≤ PACKETS_BEFORE }
        requires client { IsClient client }
        requires asked { is_asked (script.Submit client body.now) ≡ true }
        ensures { OnOk result ((disks : List DiskState) → AreDisks (world_of (run_of self.old)) disks → Adds self.old self.new disks disks lines.old lines.new (events.Submit client body.now) (place_at self.old.cursor)) }
    {
        let cursor = self.cursor;
        self.parts.submit(client, body, lines)?;
        let body = body.copy()?;
        self.note(TraceEvent::Submit { client, body }, cursor)
    }

    fn deliver<D: Device>(
        &mut self,
        packet: u32,
        stop: Option<StopAt>,
        cursor: u32,
        disks: &mut [D],
        lines: &mut Bytes,
    ) -> Result<(), Memory>
        requires step { StandsOn self.old (map D.state disks.old) }
        requires few { length self.old.parts.soup ≤ PACKETS_BEFORE }
        requires stop { CanStop stop }
        ensures { OnOk result (Adds self.old self.new (map D.state disks.old) (map D.state disks.new) lines.old lines.new (events.Deliver packet (asked_of stop)) (place_at cursor)) }
    {
        let fared = self.parts.deliver(packet, stop, disks, lines)?;
        self.note(TraceEvent::Deliver { packet, fared }, cursor)
    }

    fn short<D: Device>(
        &mut self,
        packet: u32,
        bytes: u32,
        disks: &mut [D],
        lines: &mut Bytes,
    ) -> Result<(), Memory>
        requires step { StandsOn self.old (map D.state disks.old) }
        requires few { length self.old.parts.soup ≤ PACKETS_BEFORE }
        ensures { OnOk result (Adds self.old self.new (map D.state disks.old) (map D.state disks.new) lines.old lines.new (events.Short packet bytes Fine) (place_at self.old.cursor)) }
    {
        let cursor = self.cursor;
        let fared = self.parts.short(packet, bytes, disks, lines)?;
        let event = TraceEvent::Short {
            packet,
            bytes,
            fared,
        };
        self.note(event, cursor)
    }

    fn command<D: Device>(
        &mut self,
        node: NodeId,
        command: Command,
        stop: Option<StopAt>,
        disks: &mut [D],
        lines: &mut Bytes,
    ) -> Result<(), Memory>
        requires step { StandsOn self.old (map D.state disks.old) }
        requires few { length self.old.parts.soup ≤ PACKETS_BEFORE }
        requires stop { CanStop stop }
        requires there { node.index < 2 * self.old.parts.u + 1 }
        ensures { OnOk result (Adds self.old self.new (map D.state disks.old) (map D.state disks.new) lines.old lines.new (event_of command node (asked_of stop)) (place_at self.old.cursor)) }
    {
        let cursor = self.cursor;
        let fared = self.parts.command(node, command, stop, disks, lines)?;
        self.note(command.event(node, fared), cursor)
    }

    fn retry(&mut self, node: NodeId, lines: &mut Bytes) -> Result<(), Memory>
        requires step { IsInStep self.old }
        requires few { length self.old.parts.soup ≤ PACKETS_BEFORE }
        requires there { node.index < 2 * self.old.parts.u + 1 }
        ensures { OnOk result ((disks : List DiskState) → AreDisks (world_of (run_of self.old)) disks → Adds self.old self.new disks disks lines.old lines.new (events.Retry (ends.Node node)) (place_at self.old.cursor)) }
    {
        let cursor = self.cursor;
        self.parts.retry(node, lines)?;
        self.note(
            TraceEvent::Retry {
                end: End::Node(node),
            },
            cursor,
        )
    }

    fn crash(&mut self, node: NodeId, lines: &mut Bytes) -> Result<(), Memory>
        requires step { IsInStep self.old }
        requires few { length self.old.parts.soup ≤ PACKETS_BEFORE }
        requires there { node.index < 2 * self.old.parts.u + 1 }
        ensures { OnOk result ((disks : List DiskState) → AreDisks (world_of (run_of self.old)) disks → Adds self.old self.new disks disks lines.old lines.new (events.Crash node) (place_at self.old.cursor)) }
    {
        let cursor = self.cursor;
        self.parts.crash(node, lines)?;
        self.note(TraceEvent::Crash { node }, cursor)
    }

    fn ask_again(&mut self, client: u8, lines: &mut Bytes) -> Result<(), Memory>
        requires step { IsInStep self.old }
        requires few { length self.old.parts.soup ≤ PACKETS_BEFORE }
        requires client { IsClient client }
        ensures { OnOk result ((disks : List DiskState) → AreDisks (world_of (run_of self.old)) disks → Adds self.old self.new disks disks lines.old lines.new (events.Retry (ends.Client client)) (place_at self.old.cursor)) }
    {
        let cursor = self.cursor;
        self.parts.ask_again(client, lines)?;
        let end = End::Client(client);
        self.note(TraceEvent::Retry { end }, cursor)
    }

    fn restart<D: Device>(
        &mut self,
        node: NodeId,
        disks: &mut [D],
        lines: &mut Bytes,
    ) -> Result<(), Memory>
        requires step { StandsOn self.old (map D.state disks.old) }
        requires few { length self.old.parts.soup ≤ PACKETS_BEFORE }
        requires there { node.index < 2 * self.old.parts.u + 1 }
        ensures adds { OnOk result (Adds self.old self.new (map D.state disks.old) (map D.state disks.new) lines.old lines.new (events.Restart node (Reads 0)) (place_at self.old.cursor)) }
        ensures silent { OnOk result (self.new.parts.soup ≡ self.old.parts.soup) }
    {
        let cursor = self.cursor;
        let found = self.parts.restart(node, disks, lines)?;
        self.note(TraceEvent::Restart { node, found }, cursor)
    }

    fn wipe<D: Device>(
        &mut self,
        node: NodeId,
        disks: &mut [D],
        lines: &mut Bytes,
    ) -> Result<(), Memory>
        requires step { StandsOn self.old (map D.state disks.old) }
        requires few { length self.old.parts.soup ≤ PACKETS_BEFORE }
        requires there { node.index < 2 * self.old.parts.u + 1 }
        ensures { OnOk result (Adds self.old self.new (map D.state disks.old) (map D.state disks.new) lines.old lines.new (events.Wipe node) (place_at self.old.cursor)) }
    {
        let cursor = self.cursor;
        self.parts.wipe(node, disks, lines)?;
        self.note(TraceEvent::Wipe { node }, cursor)
    }
}
