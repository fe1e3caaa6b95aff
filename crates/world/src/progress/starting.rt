// The restarts before the first line of a script.
ghost use Rattle.std.specs.Prelude.{◌≡◌, ◌∷◌, [], ◌≤◌, length, map, OnOk};
ghost use Rattle.run_model.specs.Resolving.{nodes_of};
ghost use Rattle.world.specs.Run.{new_run, Starts};
ghost use Rattle.world.specs.Going.{run_of, IsInStep, StandsOn, Restarted};

use super::Progress;
use aeg_base::limits::PACKETS_BEFORE;
use aeg_base::{Bytes, Memory, NodeId, Tier};
use aeg_disk::Device;

impl Progress {
    fn restart_tier<D: Device>(
        &mut self,
        tier: Tier,
        disks: &mut [D],
        lines: &mut Bytes,
    ) -> Result<(), Memory>
        requires step { StandsOn self.old (map D.state disks.old) }
        requires none { self.old.parts.soup ≡ [] }
        ensures restarted { OnOk result (Restarted self.old self.new (map D.state disks.old) (map D.state disks.new) lines.old lines.new (nodes_of self.old.parts.u tier)) }
        ensures none { OnOk result (self.new.parts.soup ≡ []) }
    {
        for index in 0..2 * self.parts.faults() + 1 {
            self.restart(NodeId { tier, index }, disks, lines)?;
        }
        Ok(())
    }

    /// Each node restarts on its disk.
    pub fn start<D: Device>(&mut self, disks: &mut [D], lines: &mut Bytes) -> Result<(), Memory>
        requires step { StandsOn self.old (map D.state disks.old) }
        requires new { run_of self.old ≡ new_run self.old.parts.u self.old.depth }
        ensures step { OnOk result (IsInStep self.new) }
        ensures starts { OnOk result (Starts (run_of self.old) (run_of self.new) (map D.state disks.old) (map D.state disks.new) lines.old lines.new) }
    {
        self.restart_tier(Tier::Mid, disks, lines)?;
        self.restart_tier(Tier::Inv, disks, lines)?;
        self.restart_tier(Tier::Pay, disks, lines)?;
        Ok(())
    }
}
