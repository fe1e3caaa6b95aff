// Client ends.
ghost use Rattle.std.specs.Prelude.{◌≡◌, ℕ, ◌+◌, ◌*◌, ◌≤◌, ◌++◌, true, length, map, OnOk};
ghost use Rattle.aeg_base.specs.declared.names.End.TheVariants as ends;
ghost use Rattle.frames.specs.declared.message.Msg.TheVariants as msgs;
ghost use Rattle.frames.specs.Frames.{FitsFrame};
ghost use Rattle.log_values.specs.Fields.{IsClient};
ghost use Rattle.run_model.specs.Script.{is_asked};
ghost use Rattle.run_model.specs.declared.line.Event.TheVariants as script;
ghost use Rattle.run_model.specs.World.{requests};
ghost use Rattle.run_model.specs.declared.trace.TraceEvent.TheVariants as events;
ghost use Rattle.world.specs.Parts.{sealed};
ghost use Rattle.world.specs.Standing.{AreShown, Plays};

use super::Parts;
use crate::text::{add_busy, add_idle};
use aeg_base::limits::{MAX_FAULTS, PACKETS_BEFORE};
use aeg_base::{Bytes, End, Memory, NodeId, Tier};
use frames::{Msg, Outbox, encode};
use std::alloc::Global;
use tier_model::Idle;

/// Adds a client's request to each of the 2u+1 middle nodes.
fn add_requests(
    alloc: Global,
    u: u8,
    client: u8,
    seq: u32,
    body: &Bytes,
    out: &mut Outbox,
) -> Result<(), Memory>
    requires few { u ≤ MAX_FAULTS }
    requires fit { FitsFrame (ends.Client client) (msgs.Request seq body.now) }
    ensures { OnOk result (out.new ≡ out.old ++ map sealed (requests u client seq body.now)) }
{
    let body = body.copy()?;
    let bytes = encode(alloc, End::Client(client), &Msg::Request { seq, body })?;
    for index in 0..2 * u + 1 {
        let tier = Tier::Mid;
        let copy = bytes.copy()?;
        out.push(End::Node(NodeId { tier, index }), copy)?;
    }
    Ok(())
}

impl Parts {
    /// `submit CLIENT REQUEST`
    pub fn submit(&mut self, client: u8, body: &Bytes, lines: &mut Bytes) -> Result<(), Memory>
        requires shown { AreShown self.old }
        requires few { length self.old.soup ≤ PACKETS_BEFORE }
        requires client { IsClient client }
        requires asked { is_asked (script.Submit client body.now) ≡ true }
        ensures { Plays self.old self.new lines.old lines.new (events.Submit client body.now) result }
    {
        let mut out = Outbox::new(self.alloc);
        let Some(seq) = self.clients[usize::from(client)].submit(body)? else {
            add_busy(lines, client)?;
            return self.send(out);
        };
        add_requests(self.alloc, self.u, client, seq, body, &mut out)?;
        self.send(out)
    }

    /// `retry CLIENT`
    pub fn ask_again(&mut self, client: u8, lines: &mut Bytes) -> Result<(), Memory>
        requires shown { AreShown self.old }
        requires few { length self.old.soup ≤ PACKETS_BEFORE }
        requires client { IsClient client }
        ensures { Plays self.old self.new lines.old lines.new (events.Retry (ends.Client client)) result }
    {
        let mut out = Outbox::new(self.alloc);
        let Some((seq, body)) = self.clients[usize::from(client)].pending() else {
            add_idle(lines, End::Client(client), Idle::Nothing)?;
            return self.send(out);
        };
        add_requests(self.alloc, self.u, client, seq, body, &mut out)?;
        self.send(out)
    }
}
