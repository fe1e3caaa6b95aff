// The world that a script's lines are played in.
ghost use Rattle.std.specs.Prelude.{◌≡◌, ◌++◌, ◌≤◌, ◌↔◌, length, map, IsTrue, IsErr, IfOk, OnOk};
ghost use Rattle.net_script.specs.Events.{IsProper};
ghost use Rattle.world.specs.Disks.{AreBlank, AreDisks};
ghost use Rattle.world.specs.Run.{new_run, world_of, Starts, Applies, ComesFurther, closing_of};

use crate::progress::Progress;
use crate::stop::Stop;
use aeg_base::limits::{MAX_FAULTS, PACKETS};
use aeg_base::{Bytes, Memory};
use aeg_disk::Device;
use run_model::{Event, TraceEvent};
use std::alloc::Global;
use std::marker::Model;

/// The nodes of the three tiers, the clients and all packets, and the events that they went through. Once a call wants
/// memory the world has ended, and each later one answers that too.
#[derive(Drop)]
pub struct World {
    has_ended: bool,
    progress: Progress,
}

impl Model for World {
    ghost use Rattle.std.specs.Prelude.{◌≡◌, false};
    ghost use Rattle.world.specs.Run.{Run};
    ghost use Rattle.world.specs.Going.{run_with, IsInStep};

    ghost Value = { Run };

    ghost view = { λ w. run_with w.has_ended w.progress };

    ghost invariant = { λ w. w.has_ended ≡ false → IsInStep w.progress };
}

/// Whether the answer ends the world.
fn ends(answer: &Result<bool, Stop>) -> bool
    ensures { IsTrue result ↔ (answer.now ≡ Err Stop.Memory) }
{
    matches!(answer, Err(Stop::Memory))
}

impl World {
    /// All nodes are down on blank disks, and nothing was sent. It has not ended.
    pub fn new(alloc: Global, u: u8, depth: u8) -> Result<Self, Memory>
        requires { u ≤ MAX_FAULTS }
        ensures { IfOk result (λ world. world ≡ new_run u depth) }
    {
        let progress = Progress::new(alloc, u, depth)?;
        Ok(World {
            has_ended: false,
            progress,
        })
    }

    /// Each node restarts on its blank disk. A disk that fails leaves its node down.
    pub fn start<D: Device>(&mut self, disks: &mut [D], lines: &mut Bytes) -> Result<(), Memory>
        requires new { self.old ≡ new_run self.old.u self.old.depth }
        requires blank { AreBlank (map D.state disks.old) }
        ensures starts { OnOk result (Starts self.old self.new (map D.state disks.old) (map D.state disks.new) lines.old lines.new) }
        ensures ends { IsTrue self.new.has_ended ↔ IsErr result }
    {
        let answer = self.progress.start(disks, lines);
        self.has_ended = answer.is_err();
        answer
    }

    /// Does what is next for the line, at most one event, and answers whether more may be left of it.
    pub fn apply<D: Device>(
        &mut self,
        line: &Event,
        disks: &mut [D],
        lines: &mut Bytes,
    ) -> Result<bool, Stop>
        requires proper { IsProper self.old.u line.now }
        requires disks { AreDisks (world_of self.old) (map D.state disks.old) }
        ensures applies { Applies self.old self.new (map D.state disks.old) (map D.state disks.new) lines.old lines.new line.now result }
        ensures further { ComesFurther self.old self.new result }
        ensures within { OnOk result (length (world_of self.new).soup ≤ PACKETS) }
        ensures ended { IsTrue self.old.has_ended → result ≡ Err Stop.Memory }
        ensures ends { IsTrue self.new.has_ended ↔ (result ≡ Err Stop.Memory) }
    {
        if self.has_ended {
            return Err(Stop::Memory);
        }
        let answer = self.progress.apply(line, disks, lines);
        self.has_ended = ends(&answer);
        answer
    }

    /// Adds the closing lines.
    pub fn close(&self, lines: &mut Bytes) -> Result<(), Memory>
        ensures closes { OnOk result (lines.new ≡ lines.old ++ closing_of self.now) }
        ensures ended { IsTrue self.now.has_ended → IsErr result }
    {
        if self.has_ended {
            return Err(Memory);
        }
        self.progress.close(lines)
    }

    /// The events so far.
    pub fn trace(&self) -> &[TraceEvent]
        ensures { result.now ≡ self.now.trace }
    {
        self.progress.trace()
    }
}
