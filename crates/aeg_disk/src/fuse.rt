// A disk whose calls all fail from some call on.
ghost use Rattle.std.specs.Prelude.{◌≡◌, false};

use crate::disk::{Disk, DiskErr};

/// A disk that passes some calls on to another, and then fails each.
#[derive(Drop)]
pub struct FuseDisk<D: Disk> {
    disk: D,
    // The calls that it still passes on.
    left: u32,
    // The calls that it failed.
    failed: u64,
    ghost unarmed: { (D.state disk).armed ≡ 0 },
    ghost running: { (D.state disk).stopped ≡ false },
}

impl<D: Disk> FuseDisk<D> {
    ghost use Rattle.std.specs.Prelude.{◌≡◌, false};
    ghost use Rattle.aeg_disk.specs.Faults.{with_faults};
    ghost use Rattle.aeg_disk.specs.FuseDisk.{passes_left};

    /// A disk that passes so many calls on.
    pub fn new(disk: D, passes: u32) -> FuseDisk<D>
        requires unarmed { (D.state disk).armed ≡ 0 }
        requires running { (D.state disk).stopped ≡ false }
        ensures same { ⟦<FuseDisk<D> as Disk>⟧.state result ≡ with_faults (D.state disk) 0 }
        ensures left { passes_left result ≡ passes }
    {
        FuseDisk {
            disk,
            left: passes,
            failed: 0,
        }
    }

    /// Gives the other disk back.
    pub fn into_disk(self) -> D
        ensures { (failed : _) × (⟦<FuseDisk<D> as Disk>⟧.state self ≡ with_faults (D.state result) failed) }
    {
        self.disk
    }
}

impl<D: Disk> Disk for FuseDisk<D> {
    ghost use Rattle.aeg_disk.specs.Faults.{with_faults};

    ghost state = { λ f. with_faults (D.state f.disk) f.failed };

    ghost lawful = { λ f t. let l = D.lawful f.disk t in record { size = l.size; reads = l.reads } };

    fn len(&mut self) -> Result<u64, DiskErr> {
        if self.left == 0 {
            self.failed = self.failed.saturating_add(1);
            return Err(DiskErr::Failed);
        }
        self.left -= 1;
        self.disk.len()
    }

    fn read(&mut self, at: u64, into: &mut [u8]) -> Result<(), DiskErr> {
        if self.left == 0 {
            self.failed = self.failed.saturating_add(1);
            return Err(DiskErr::Failed);
        }
        self.left -= 1;
        self.disk.read(at, into)
    }

    fn write_at(&mut self, at: u64, bytes: &[u8]) -> Result<(), DiskErr> {
        if self.left == 0 {
            self.failed = self.failed.saturating_add(1);
            return Err(DiskErr::Failed);
        }
        self.left -= 1;
        self.disk.write_at(at, bytes)
    }

    fn sync(&mut self) -> Result<(), DiskErr> {
        if self.left == 0 {
            self.failed = self.failed.saturating_add(1);
            return Err(DiskErr::Failed);
        }
        self.left -= 1;
        self.disk.sync()
    }
}
