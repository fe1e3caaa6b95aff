// Nodes that crash, restart, or are wiped.
ghost use Rattle.std.specs.Prelude.{◌≡◌, ◌+◌, ◌*◌, ◌<◌, ◌≤◌, length, map, IfOk};
ghost use Rattle.run_model.specs.declared.trace.Found.{Found};
ghost use Rattle.run_model.specs.declared.trace.TraceEvent.TheVariants as events;
ghost use Rattle.world.specs.Calling.{found_of, is_gone_in};
ghost use Rattle.world.specs.NodeLists.{condition_at};
ghost use Rattle.world.specs.Standing.{AreShown, AreShownOn, Plays, PlaysFound, PlaysOn};
ghost use Rattle.world.specs.declared.nodes.condition.Condition.TheVariants as conditions;

use super::arming::place_of;
use super::{Parts, calls};
use crate::nodes::Condition;
use crate::text::{add_gone, add_idle_up, add_restart};
use aeg_base::limits::PACKETS_BEFORE;
use aeg_base::{Bytes, Memory, NodeId};
use aeg_disk::Device;
use frames::Outbox;
use run_model::Found;
use tier_model::Fault;

fn is_gone(condition: Condition) -> bool
    ensures { result ≡ is_gone_in condition }
{
    matches!(condition, Condition::Gone)
}

/// What a restart found, by its node's answer.
fn found(answer: &Result<u8, Fault>) -> Found
    ensures { result ≡ found_of answer.now }
{
    match answer {
        Ok(list) => Found::Reads { list: *list },
        Err(_) => Found::Fault,
    }
}

impl Parts {
    /// `crash NODE`
    pub fn crash(&mut self, node: NodeId, lines: &mut Bytes) -> Result<(), Memory>
        requires shown { AreShown self.old }
        requires there { node.index < 2 * self.old.u + 1 }
        requires few { length self.old.soup ≤ PACKETS_BEFORE }
        ensures { Plays self.old self.new lines.old lines.new (events.Crash node) result }
    {
        if !self.nodes.is_up(node) {
            return self.pass_over(node, lines);
        }
        self.nodes.crash(node);
        self.send(Outbox::new(self.alloc))
    }

    /// A node that is down restarts.
    fn bring_up<D: Device>(
        &mut self,
        node: NodeId,
        disks: &mut [D],
        lines: &mut Bytes,
    ) -> Result<Found, Memory>
        requires shown { AreShownOn self.old (map D.state disks.old) }
        requires there { node.index < 2 * self.old.u + 1 }
        requires down { condition_at self.old.nodes node.tier node.index ≡ conditions.Down }
        requires few { length self.old.soup ≤ PACKETS_BEFORE }
        ensures plays { PlaysFound self.old self.new (map D.state disks.old) (map D.state disks.new) lines.old lines.new (λ (found : Found). events.Restart node found) result }
        ensures silent { IfOk result (λ _. self.new.soup ≡ self.old.soup) }
    {
        let answer = calls::restart(&mut self.nodes, node, &mut disks[place_of(node)]);
        let found = found(&answer);
        add_restart(lines, node, answer)?;
        self.send(Outbox::new(self.alloc))?;
        Ok(found)
    }

    /// `restart NODE`
    pub fn restart<D: Device>(
        &mut self,
        node: NodeId,
        disks: &mut [D],
        lines: &mut Bytes,
    ) -> Result<Found, Memory>
        requires shown { AreShownOn self.old (map D.state disks.old) }
        requires there { node.index < 2 * self.old.u + 1 }
        requires few { length self.old.soup ≤ PACKETS_BEFORE }
        ensures plays { PlaysFound self.old self.new (map D.state disks.old) (map D.state disks.new) lines.old lines.new (λ (found : Found). events.Restart node found) result }
        ensures silent { IfOk result (λ _. self.new.soup ≡ self.old.soup) }
    {
        match self.nodes.condition(node) {
            Condition::Up => {
                add_idle_up(lines, node)?;
                self.send(Outbox::new(self.alloc))?;
                Ok(Found::Reads { list: 0 })
            }
            Condition::Down => self.bring_up(node, disks, lines),
            Condition::Gone => {
                add_gone(lines, node)?;
                self.send(Outbox::new(self.alloc))?;
                Ok(Found::Reads { list: 0 })
            }
        }
    }

    /// `wipe NODE`
    pub fn wipe<D: Device>(
        &mut self,
        node: NodeId,
        disks: &mut [D],
        lines: &mut Bytes,
    ) -> Result<(), Memory>
        requires shown { AreShownOn self.old (map D.state disks.old) }
        requires there { node.index < 2 * self.old.u + 1 }
        requires few { length self.old.soup ≤ PACKETS_BEFORE }
        ensures { PlaysOn self.old self.new (map D.state disks.old) (map D.state disks.new) lines.old lines.new (events.Wipe node) result }
    {
        if is_gone(self.nodes.condition(node)) {
            add_gone(lines, node)?;
            return self.send(Outbox::new(self.alloc));
        }
        self.nodes.wipe(node);
        disks[place_of(node)].erase();
        self.send(Outbox::new(self.alloc))
    }
}
