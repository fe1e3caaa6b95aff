// Blank disks in memory, on which nodes are played.
ghost use Rattle.std.specs.Prelude.{◌≡◌, map, IfOk};
ghost use Rattle.aeg_disk.specs.MemDisk.{state_of};
ghost use Rattle.world.specs.Disks.{AreBlank};

use aeg_base::Memory;
use aeg_disk::MemDisk;
use std::alloc::Global;

/// A disk for each node that there can be: three tiers of five.
const DISKS: usize = 15;

/// A blank disk in memory for each node that there can be. Calls of the first one, that of `m0`, with these numbers fail.
pub fn memory_disks(alloc: Global, fails: Vec<u32>) -> Result<Vec<MemDisk>, Memory>
    ensures { IfOk result (λ disks. AreBlank (map state_of disks.items)) }
{
    let mut disks = Vec::new(alloc);
    disks.push(MemDisk::new(alloc, fails))?;
    'disks: while disks.len() < DISKS {
        disks.push(MemDisk::new(alloc, Vec::new(alloc)))?;
    }
    Ok(disks)
}
