// The lines of a script, one after another.
ghost use Rattle.std.specs.Prelude.{◌≡◌, ℕ, ◌≤◌, true, List, length, map, nat_lt, OnOk, Ok, false};
ghost use Rattle.aeg_disk.specs.Disk.{DiskState};
ghost use Rattle.net_script.specs.Events.{IsProper};
ghost use Rattle.run_model.specs.declared.line.Event.TheVariants as script;
ghost use Rattle.world.specs.Run.{ComesFurther};
ghost use Rattle.world.specs.Going.{run_of, IsInStep, StandsOn, AddsLine, is_one, GoesBy};

use super::Progress;
use crate::nodes::Command;
use crate::parts::StopAt;
use crate::stop::Stop;
use aeg_base::limits::PACKETS_BEFORE;
use aeg_base::{Bytes, End, Memory};
use aeg_disk::Device;
use run_model::{CutLine, Event};

impl Progress {
    /// Whether what an event sends may have no room.
    fn is_full(&self) -> bool
        ensures { result ≡ nat_lt PACKETS_BEFORE (length self.now.parts.soup) }
    {
        self.parts.packets() > PACKETS_BEFORE
    }

    /// Makes the event of a line during which a disk stops.
    fn cut<D: Device>(
        &mut self,
        stop: StopAt,
        line: &CutLine,
        disks: &mut [D],
        lines: &mut Bytes,
    ) -> Result<(), Memory>
        requires step { StandsOn self.old (map D.state disks.old) }
        requires few { length self.old.parts.soup ≤ PACKETS_BEFORE }
        requires proper { IsProper self.old.parts.u (script.Cut stop.nth stop.keep line.now) }
        ensures { OnOk result (AddsLine self.old self.new (map D.state disks.old) (map D.state disks.new) lines.old lines.new (script.Cut stop.nth stop.keep line.now)) }
    {
        let cursor = self.cursor;
        match line {
            CutLine::Deliver { packet } => self.deliver(*packet, Some(stop), cursor, disks, lines),
            CutLine::Lead { node } => self.command(*node, Command::Lead, Some(stop), disks, lines),
            CutLine::Offer { node } => self.command(
                *node,
                Command::Offer,
                Some(stop),
                disks,
                lines,
            ),
        }
    }

    /// Makes the line's one event.
    fn make<D: Device>(
        &mut self,
        line: &Event,
        disks: &mut [D],
        lines: &mut Bytes,
    ) -> Result<(), Memory>
        requires step { StandsOn self.old (map D.state disks.old) }
        requires few { length self.old.parts.soup ≤ PACKETS_BEFORE }
        requires proper { IsProper self.old.parts.u line.now }
        requires one { is_one line.now ≡ true }
        ensures { OnOk result (AddsLine self.old self.new (map D.state disks.old) (map D.state disks.new) lines.old lines.new line.now) }
    {
        let cursor = self.cursor;
        match line {
            Event::Submit { client, body } => self.submit(*client, body, lines),
            Event::Deliver { packet } => self.deliver(*packet, None, cursor, disks, lines),
            Event::Short { packet, bytes } => self.short(*packet, *bytes, disks, lines),
            Event::Cut { nth, keep, line } => {
                let stop = StopAt {
                    nth: *nth,
                    keep: *keep,
                };
                self.cut(stop, line, disks, lines)
            }
            Event::Lead { node } => self.command(*node, Command::Lead, None, disks, lines),
            Event::Offer { node } => self.command(*node, Command::Offer, None, disks, lines),
            Event::Retry { end } => match end {
                End::Node(node) => self.retry(*node, lines),
                End::Client(client) => self.ask_again(*client, lines),
            },
            Event::Crash { node } => self.crash(*node, lines),
            Event::Restart { node } => self.restart(*node, disks, lines),
            Event::Wipe { node } => self.wipe(*node, disks, lines),
            Event::Work { .. } | Event::Flow | Event::Calm | Event::Lose => unreachable!(),
        }
    }

    /// A line that is one event.
    fn one<D: Device>(
        &mut self,
        line: &Event,
        disks: &mut [D],
        lines: &mut Bytes,
    ) -> Result<bool, Stop>
        requires step { StandsOn self.old (map D.state disks.old) }
        requires proper { IsProper self.old.parts.u line.now }
        requires one { is_one line.now ≡ true }
        ensures goes { GoesBy self.old self.new (map D.state disks.old) (map D.state disks.new) lines.old lines.new line.now result }
        ensures further { ComesFurther (run_of self.old) (run_of self.new) result }
    {
        if self.is_full() {
            return Err(Stop::Limit);
        }
        self.make(line, disks, lines)?;
        Ok(false)
    }

    /// `flow`
    fn flow<D: Device>(&mut self, disks: &mut [D], lines: &mut Bytes) -> Result<bool, Stop>
        requires step { StandsOn self.old (map D.state disks.old) }
        ensures goes { GoesBy self.old self.new (map D.state disks.old) (map D.state disks.new) lines.old lines.new script.Flow result }
        ensures further { ComesFurther (run_of self.old) (run_of self.new) result }
    {
        let Some(packet) = self.parts.next(self.cursor) else {
            self.cursor = self.parts.packets();
            return Ok(false);
        };
        if self.is_full() {
            return Err(Stop::Limit);
        }
        self.deliver(packet, None, packet + 1, disks, lines)?;
        Ok(true)
    }

    /// `lose`: no packet that was sent is delivered by `flow` any more.
    fn lose(&mut self)
        requires { IsInStep self.old }
        ensures { (disks : List DiskState) (lines : List ℕ) → GoesBy self.old self.new disks disks lines lines script.Lose (Ok false) }
    {
        self.cursor = self.parts.packets();
    }

    /// Does what is next for the line, and answers whether more may be left of it.
    pub fn apply<D: Device>(
        &mut self,
        line: &Event,
        disks: &mut [D],
        lines: &mut Bytes,
    ) -> Result<bool, Stop>
        requires step { StandsOn self.old (map D.state disks.old) }
        requires proper { IsProper self.old.parts.u line.now }
        ensures goes { GoesBy self.old self.new (map D.state disks.old) (map D.state disks.new) lines.old lines.new line.now result }
        ensures further { ComesFurther (run_of self.old) (run_of self.new) result }
    {
        match line {
            Event::Flow => self.flow(disks, lines),
            Event::Lose => {
                self.lose();
                Ok(false)
            }
            _ => self.one(line, disks, lines),
        }
    }
}
