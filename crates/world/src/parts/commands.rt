// Commands at nodes.
ghost use Rattle.std.specs.Prelude.{◌≡◌, ◌+◌, ◌*◌, ◌<◌, ◌≤◌, length, map};
ghost use Rattle.aeg_base.specs.declared.names.End.TheVariants as ends;
ghost use Rattle.run_model.specs.declared.trace.Fared.{Fared};
ghost use Rattle.run_model.specs.declared.trace.TraceEvent.TheVariants as events;
ghost use Rattle.world.specs.Arming.{CanStop, asked_of};
ghost use Rattle.world.specs.Commands.{event_of};
ghost use Rattle.world.specs.Standing.{AreShown, AreShownOn, Plays, PlaysBy};

use super::arming::{StopAt, asked, fared, place_of};
use super::{Parts, calls};
use crate::nodes::Command;
use crate::text::add_command;
use aeg_base::limits::PACKETS_BEFORE;
use aeg_base::{Bytes, Memory, NodeId};
use aeg_disk::Device;
use frames::Outbox;
use run_model::Fared;

impl Parts {
    /// `lead NODE` or `offer NODE`, during which the node's disk stops where that is asked.
    pub fn command<D: Device>(
        &mut self,
        node: NodeId,
        command: Command,
        stop: Option<StopAt>,
        disks: &mut [D],
        lines: &mut Bytes,
    ) -> Result<Fared, Memory>
        requires shown { AreShownOn self.old (map D.state disks.old) }
        requires there { node.index < 2 * self.old.u + 1 }
        requires stop { CanStop stop }
        requires few { length self.old.soup ≤ PACKETS_BEFORE }
        ensures { PlaysBy self.old self.new (map D.state disks.old) (map D.state disks.new) lines.old lines.new (λ (f : Fared). event_of command node f) (asked_of stop) result }
    {
        if !self.nodes.is_up(node) {
            self.pass_over(node, lines)?;
            return Ok(asked(stop));
        }
        let mut out = Outbox::new(self.alloc);
        let (answer, met) = calls::obey(
            &mut self.nodes,
            node,
            command,
            stop,
            &mut disks[place_of(node)],
            &mut out,
        );
        let fared = fared(stop, met, &answer);
        add_command(lines, node, met, answer)?;
        self.send(out)?;
        Ok(fared)
    }

    /// `retry NODE`
    pub fn retry(&mut self, node: NodeId, lines: &mut Bytes) -> Result<(), Memory>
        requires shown { AreShown self.old }
        requires there { node.index < 2 * self.old.u + 1 }
        requires few { length self.old.soup ≤ PACKETS_BEFORE }
        ensures { Plays self.old self.new lines.old lines.new (events.Retry (ends.Node node)) result }
    {
        if !self.nodes.is_up(node) {
            return self.pass_over(node, lines);
        }
        let mut out = Outbox::new(self.alloc);
        let answer = self.nodes.retry(node, &mut out);
        add_command(lines, node, false, answer)?;
        self.send(out)
    }
}
