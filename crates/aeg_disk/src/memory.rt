// A disk in memory, with faults at the calls that it is told.
ghost use Rattle.std.specs.Prelude.{◌≡◌, true};
ghost use Rattle.aeg_disk.specs.Memory.{is_logged};

use crate::changing::{lose, put};
use crate::disk::{Device, Disk, DiskErr};
use crate::tape::Tape;
use aeg_base::Memory;
use std::alloc::Global;

/// A disk in memory. It keeps what undoes each write and sync, and copies nothing at a sync. For a write that its notes, of
/// 32 bits, can't tell there is no memory.
#[derive(Drop)]
pub struct MemDisk {
    alloc: Global,
    bytes: Vec<u8>,
    tape: Tape,
    // The numbers of the calls that are to fail, counted from 0.
    fails: Vec<u32>,
    calls: u64,
    faults: u64,
    stopped: bool,
    armed: u8,
    keep: bool,
    ghost logged: { is_logged tape bytes.items ≡ true },
}

impl MemDisk {
    ghost use Rattle.std.specs.Prelude.{◌≡◌, ◌≢◌, ◌⊎◌, ◌+◌, ◌-◌, ◌≤◌, ◌<◌, ◌^◌, max, [], true, false, IfOk, OnOk, OnErr, length};
    ghost use Rattle.aeg_disk.specs.Disk.{Done, Fault, Stop, Put, Settled, Spoilt, SameContent, Rose, SureWrites, SureSyncs, written};
    ghost use Rattle.aeg_disk.specs.Memory.{blank_disk};
    ghost use Rattle.aeg_disk.specs.MemDisk.{state_of};

    /// A blank disk whose calls with these numbers fail, counted from 0.
    pub fn new(alloc: Global, fails: Vec<u32>) -> MemDisk
        ensures { state_of result ≡ blank_disk }
    {
        MemDisk {
            alloc,
            bytes: Vec::new(alloc),
            tape: Tape::new(alloc),
            fails,
            calls: 0,
            faults: 0,
            stopped: false,
            armed: 0,
            keep: false,
        }
    }

    pub(crate) fn bytes(&self) -> &[u8]
        ensures { result.now ≡ (state_of self.now).bytes }
    {
        &self.bytes
    }

    // Whether this call is one of those that are to fail.
    fn is_due(&self) -> bool {
        self.fails.iter().any(|n| u64::from(*n) == self.calls)
    }

    // The armed stop is met in a write, and all stays.
    fn stop_in_write(&mut self, at: usize, piece: &[u8]) -> Result<(), Memory>
        requires fits { at + length piece.now < 2 ^ 64 }
        requires met { (state_of self.old).armed ≡ 1 }
        requires runs { (state_of self.old).stopped ≡ false }
        requires keeps { (state_of self.old).keep ≡ true }
        ensures stop { OnOk result (Stop (state_of self.old) (state_of self.new) (written at piece.now (state_of self.old).bytes)) }
        ensures err { OnErr result (state_of self.new ≡ state_of self.old) }
    {
        put(&mut self.bytes, &mut self.tape, at, piece, true)?;
        self.calls = self.calls.saturating_add(1);
        self.armed = 0;
        self.stopped = true;
        Ok(())
    }

    // The armed stop is met in a sync, and all stays.
    fn stop_in_sync(&mut self) -> Result<(), Memory>
        requires met { (state_of self.old).armed ≡ 1 }
        requires runs { (state_of self.old).stopped ≡ false }
        requires keeps { (state_of self.old).keep ≡ true }
        ensures stop { OnOk result (Stop (state_of self.old) (state_of self.new) (state_of self.old).bytes) }
        ensures err { OnErr result (state_of self.new ≡ state_of self.old) }
    {
        self.tape.settle(self.bytes.len())?;
        self.calls = self.calls.saturating_add(1);
        self.armed = 0;
        self.stopped = true;
        Ok(())
    }

    // The armed stop is met, and what stood at the last sync is left.
    fn stop_and_lose(&mut self) -> Result<(), Memory>
        requires met { (state_of self.old).armed ≡ 1 }
        requires runs { (state_of self.old).stopped ≡ false }
        requires loses { (state_of self.old).keep ≡ false }
        ensures stop { OnOk result ((left : _) → Stop (state_of self.old) (state_of self.new) left) }
        ensures err { OnErr result (state_of self.new ≡ state_of self.old) }
    {
        lose(self.alloc, &mut self.bytes, &mut self.tape)?;
        self.calls = self.calls.saturating_add(1);
        self.armed = 0;
        self.stopped = true;
        Ok(())
    }

    // A write is done.
    fn write(&mut self, at: usize, piece: &[u8]) -> Result<(), Memory>
        requires fits { at + length piece.now < 2 ^ 64 }
        requires unmet { (state_of self.old).armed ≢ 1 }
        requires runs { (state_of self.old).stopped ≡ false }
        ensures done { OnOk result (Done (state_of self.old) (state_of self.new) (max (state_of self.old).size (at + length piece.now)) (Put at piece.now (state_of self.old) (state_of self.new))) }
        ensures err { OnErr result (state_of self.new ≡ state_of self.old) }
    {
        put(&mut self.bytes, &mut self.tape, at, piece, false)?;
        self.calls = self.calls.saturating_add(1);
        self.armed = self.armed.saturating_sub(1);
        Ok(())
    }

    // A sync is done.
    fn settle(&mut self) -> Result<(), Memory>
        requires unmet { (state_of self.old).armed ≢ 1 }
        requires runs { (state_of self.old).stopped ≡ false }
        ensures done { OnOk result (Done (state_of self.old) (state_of self.new) (state_of self.old).size (Settled (state_of self.old) (state_of self.new))) }
        ensures err { OnErr result (state_of self.new ≡ state_of self.old) }
    {
        self.tape.settle(self.bytes.len())?;
        self.calls = self.calls.saturating_add(1);
        self.armed = self.armed.saturating_sub(1);
        Ok(())
    }

    // A write fails, and changes no byte: but its range counts as written.
    fn spoil(&mut self, at: usize, count: usize) -> Result<(), Memory>
        requires unmet { (state_of self.old).armed ≢ 1 }
        requires runs { (state_of self.old).stopped ≡ false }
        ensures fault { OnOk result (Fault (state_of self.old) (state_of self.new) (max (state_of self.old).size (at + count)) (Spoilt at count (state_of self.old) (state_of self.new))) }
        ensures err { OnErr result (state_of self.new ≡ state_of self.old) }
    {
        self.tape.add(at, count, self.bytes.len(), &[], false)?;
        self.calls = self.calls.saturating_add(1);
        self.armed = self.armed.saturating_sub(1);
        self.faults = self.faults.saturating_add(1);
        Ok(())
    }

    /// A write in which only an armed stop fails.
    pub(crate) fn write_surely(&mut self, at: u64, bytes: &[u8]) -> Result<(), DiskErr>
        ensures { SureWrites at bytes.now (state_of self.old) (state_of self.new) result }
    {
        if self.stopped {
            self.calls = self.calls.saturating_add(1);
            return Err(DiskErr::Failed);
        }
        let at = at as usize;
        if bytes.len() > usize::MAX - at {
            return Err(DiskErr::Memory);
        }
        if self.armed != 1 {
            self.write(at, bytes)?;
            return Ok(());
        }
        if self.keep {
            self.stop_in_write(at, bytes)?;
        } else {
            self.stop_and_lose()?;
        }
        Err(DiskErr::Failed)
    }

    /// A sync in which only an armed stop fails.
    pub(crate) fn sync_surely(&mut self) -> Result<(), DiskErr>
        ensures { SureSyncs (state_of self.old) (state_of self.new) result }
    {
        if self.stopped {
            self.calls = self.calls.saturating_add(1);
            return Err(DiskErr::Failed);
        }
        if self.armed != 1 {
            self.settle()?;
            return Ok(());
        }
        if self.keep {
            self.stop_in_sync()?;
        } else {
            self.stop_and_lose()?;
        }
        Err(DiskErr::Failed)
    }

    pub(crate) fn is_stopped(&self) -> bool
        ensures { result ≡ (state_of self.now).stopped }
    {
        self.stopped
    }
}

impl From<Memory> for DiskErr {
    ghost use Rattle.std.specs.Prelude.{◌≡◌};
    ghost use Rattle.aeg_disk.specs.declared.disk.DiskErr.TheVariants.{Memory as NoMemory};

    ghost from_gives = { λ _ e. e ≡ NoMemory };

    fn from(_: Memory) -> Self {
        DiskErr::Memory
    }
}

impl Disk for MemDisk {
    ghost use Rattle.aeg_disk.specs.MemDisk.{state_of};
    ghost use Rattle.aeg_disk.specs.MemoryLaws.{lawful_memory};

    ghost state = { state_of };

    ghost lawful = { λ d t. lawful_memory d.bytes.items d.tape d.faults d.stopped d.armed d.keep d.logged };

    fn len(&mut self) -> Result<u64, DiskErr> {
        if self.stopped {
            self.calls = self.calls.saturating_add(1);
            return Err(DiskErr::Failed);
        }
        if self.is_due() {
            self.calls = self.calls.saturating_add(1);
            self.faults = self.faults.saturating_add(1);
            return Err(DiskErr::Failed);
        }
        self.calls = self.calls.saturating_add(1);
        Ok(self.bytes.len() as u64)
    }

    fn read(&mut self, at: u64, into: &mut [u8]) -> Result<(), DiskErr> {
        if self.stopped {
            self.calls = self.calls.saturating_add(1);
            return Err(DiskErr::Failed);
        }
        if self.is_due() {
            self.calls = self.calls.saturating_add(1);
            self.faults = self.faults.saturating_add(1);
            return Err(DiskErr::Failed);
        }
        self.calls = self.calls.saturating_add(1);
        let at = at as usize;
        into.copy_from_slice(&self.bytes[at..at + into.len()]);
        Ok(())
    }

    fn write_at(&mut self, at: u64, bytes: &[u8]) -> Result<(), DiskErr> {
        if self.stopped {
            self.calls = self.calls.saturating_add(1);
            return Err(DiskErr::Failed);
        }
        if self.armed != 1 && self.is_due() {
            self.spoil(at as usize, bytes.len())?;
            return Err(DiskErr::Failed);
        }
        self.write_surely(at, bytes)
    }

    fn sync(&mut self) -> Result<(), DiskErr> {
        if self.stopped {
            self.calls = self.calls.saturating_add(1);
            return Err(DiskErr::Failed);
        }
        if self.armed != 1 && self.is_due() {
            self.calls = self.calls.saturating_add(1);
            self.armed = self.armed.saturating_sub(1);
            self.faults = self.faults.saturating_add(1);
            return Err(DiskErr::Failed);
        }
        self.sync_surely()
    }
}

impl Device for MemDisk {
    fn arm(&mut self, nth: u8, keep: bool) {
        self.armed = nth;
        self.keep = keep;
    }

    fn power(&mut self) -> bool {
        let was = self.stopped;
        self.stopped = false;
        self.armed = 0;
        was
    }

    fn erase(&mut self) {
        self.bytes.clear();
        self.tape.clear();
    }
}
