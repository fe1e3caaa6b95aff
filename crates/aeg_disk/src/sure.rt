// A disk in memory that no fault meets.
use crate::disk::{Device, Disk, DiskErr};
use crate::memory::MemDisk;
use std::alloc::Global;

/// A disk in memory that only an armed stop fails: its count of faults is the constant 0.
#[derive(Drop)]
pub struct SureDisk {
    disk: MemDisk,
}

impl SureDisk {
    ghost use Rattle.std.specs.Prelude.{◌≡◌};
    ghost use Rattle.aeg_disk.specs.Memory.{blank_disk};
    ghost use Rattle.aeg_disk.specs.SureDisk.{sure_state};

    /// A blank disk.
    pub fn new(alloc: Global) -> SureDisk
        ensures { sure_state result ≡ blank_disk }
    {
        SureDisk {
            disk: MemDisk::new(alloc, Vec::new(alloc)),
        }
    }
}

impl Disk for SureDisk {
    ghost use Rattle.aeg_disk.specs.SureDisk.{sure_state};
    ghost use Rattle.aeg_disk.specs.MemDisk.{lawful_disk};

    ghost state = { sure_state };

    ghost lawful = { λ d t. let l = lawful_disk d.disk in record { size = l.size; reads = l.reads } };

    fn len(&mut self) -> Result<u64, DiskErr> {
        if self.disk.is_stopped() {
            return Err(DiskErr::Failed);
        }
        Ok(self.disk.bytes().len() as u64)
    }

    fn read(&mut self, at: u64, into: &mut [u8]) -> Result<(), DiskErr> {
        if self.disk.is_stopped() {
            return Err(DiskErr::Failed);
        }
        let at = at as usize;
        into.copy_from_slice(&self.disk.bytes()[at..at + into.len()]);
        Ok(())
    }

    fn write_at(&mut self, at: u64, bytes: &[u8]) -> Result<(), DiskErr> {
        self.disk.write_surely(at, bytes)
    }

    fn sync(&mut self) -> Result<(), DiskErr> {
        self.disk.sync_surely()
    }
}

impl Device for SureDisk {
    fn arm(&mut self, nth: u8, keep: bool) {
        self.disk.arm(nth, keep)
    }

    fn power(&mut self) -> bool {
        self.disk.power()
    }

    fn erase(&mut self) {
        self.disk.erase()
    }
}
