// A run of entries, each behind a gate that is opened once the entry is on the disk.
ghost use Rattle.std.specs.Prelude.{◌≡◌, ◌⊎◌, ◌↔◌, ℕ, ◌+◌, ◌-◌, ◌<◌, ◌≤◌, ◌^◌, min, List, [], ◌∷◌, ◌++◌, true, false, length, IfOk, OnOk, OnErr};
ghost use Rattle.aeg_disk.specs.Disk.{Rose, Later, written};
ghost use Rattle.node_journal.specs.Journal.{records, entry};
ghost use Rattle.node_journal.specs.Append.{Ran, OldOrNew, LeavesOnly, StopMet, IsReady, HasList, IsFaultless};
ghost use Rattle.node_journal.specs.declared.journal.AppendErr.TheVariants.{Memory as NoMemory};

use aeg_base::limits::{JOURNAL_BYTES, RECORD_BYTES};
use aeg_base::{Bytes, Memory};
use aeg_disk::{Disk, DiskErr};
use std::alloc::Global;
use std::marker::Model;
use thiserror::Error;

/// Why a record was not added.
#[derive(Clone, Copy, Debug, PartialEq, Eq, Error)]
pub enum AppendErr {
    /// The disk failed.
    #[error("the disk failed")]
    Disk,
    /// The journal would have this length, which passes its limit.
    #[error("the journal would have {len} bytes")]
    Full { len: u64 },
    #[error("there is no memory")]
    Memory,
}

impl From<Memory> for AppendErr {
    ghost from_gives = { λ _ e. e ≡ NoMemory };

    fn from(_: Memory) -> Self {
        AppendErr::Memory
    }
}

/// The journal of an opened disk, which contracts see as the place of the shut gate that ends it.
#[derive(Drop)]
pub struct Journal {
    end: u64,
    // Room for an entry, kept from call to call.
    room: Vec<u8>,
}

impl Model for Journal {
    ghost use Rattle.std.specs.Prelude.{ℕ};

    ghost Value = { ℕ };

    ghost view = { λ j. j.end };
}

// An entry behind its gate, and the shut gate that is to follow it, in place of what was in the room.
fn fill(room: &mut Vec<u8>, body: &Bytes) -> Result<(), Memory>
    requires { length body.now ≤ RECORD_BYTES }
    ensures { OnOk result (room.new.items ≡ entry body.now) }
{
    let len = body.items().len() as u32;
    room.clear();
    room.extend_from_slice(&len.to_be_bytes())?;
    room.extend_from_slice(body.items())?;
    room.push(0)?;
    Ok(())
}

// The gate is shut on the disk before the entry is written, and opened once the entry is on the disk.
fn write_entry<D: Disk>(disk: &mut D, gate: u64, piece: &[u8]) -> Result<(), DiskErr>
    requires { gate < 2 ^ 32 }
    ensures { Ran gate piece.now (D.state disk.old) (D.state disk.new) result }
{
    disk.write_at(gate + 1, piece)?;
    disk.sync()?;
    disk.write_at(gate, &[1])?;
    disk.sync()?;
    Ok(())
}

impl Journal {
    /// The journal whose shut gate stands at this place.
    pub(crate) fn ending_at(alloc: Global, end: u64) -> Self
        ensures { result ≡ end }
    {
        Journal {
            end,
            room: Vec::new(alloc),
        }
    }

    /// The place of the shut gate that ends it.
    pub fn place(&self) -> u64
        ensures { result ≡ self.now }
    {
        self.end
    }

    /// Adds a record, which is on the disk at `Ok`. After `Disk` or `Memory` the journal is to be opened again.
    pub fn append<D: Disk>(&mut self, disk: &mut D, body: &Bytes) -> Result<(), AppendErr>
        requires filled { 0 < length body.now }
        requires short { length body.now ≤ RECORD_BYTES }
        // Every image has the same records, with the shut gate at the journal's end.
        requires settled { (D.state disk.old).tells ≡ true → IsReady (D.state disk.old) self.old }

        ensures full { (n : ℕ) → (result ≡ Err (AppendErr.Full n)) ↔ ((JOURNAL_BYTES < self.old + 6 + length body.now) × (n ≡ min (self.old + 6 + length body.now) (2 ^ 64 - 1))) }
        ensures nothing_written { (n : ℕ) → result ≡ Err (AppendErr.Full n) → D.state disk.new ≡ D.state disk.old }

        ensures place { OnOk result (self.new ≡ self.old + 5 + length body.now) }
        ensures kept { OnErr result (self.new ≡ self.old) }
        ensures acknowledged { OnOk result ((D.state disk.old).tells ≡ true → HasList (records (D.state disk.old).bytes ++ body.now ∷ []) (D.state disk.new) self.new) }

        // It touches only its own bytes, whatever the journal's length.
        ensures bytes { OnOk result ((D.state disk.old).tells ≡ true → (D.state disk.new).bytes ≡ written self.old (1 ∷ []) (written (self.old + 1) (entry body.now) (D.state disk.old).bytes)) }

        // A crash at any moment of the call leaves the old records, or these and the new one.
        ensures any_moment { (D.state disk.old).tells ≡ true → LeavesOnly (D.state disk.old) (D.state disk.new) (OldOrNew (records (D.state disk.old).bytes) self.old body.now) }

        // It doesn't give up by itself: either the disk has failed, or it stands stopped.
        ensures cause { result ≡ Err AppendErr.Disk → ((D.state disk.new).stopped ≡ true) ⊎ Rose (D.state disk.old).faults (D.state disk.new).faults }
        // And what the disk failed is answered as that.
        ensures told { (result ≡ Err AppendErr.Disk) ⊎ IsFaultless (D.state disk.old) (D.state disk.new) }

        // Where an armed stop is met, the new record is there exactly at the third or fourth call with `keep`.
        ensures stopped { (D.state disk.old).stopped ≡ false → (D.state disk.new).stopped ≡ true → StopMet (records (D.state disk.old).bytes) self.old body.now (D.state disk.old) (D.state disk.new) }
        // And it is met, where no call before failed.
        ensures unmet { OnOk result ((D.state disk.old).armed ≤ 4 → (D.state disk.old).armed ≡ 0) }

        ensures later { Later (D.state disk.old) (D.state disk.new) }
    {
        let size = body.items().len() as u64;
        let len = self.end.saturating_add(6 + size);
        if len > JOURNAL_BYTES {
            return Err(AppendErr::Full { len });
        }
        fill(&mut self.room, body)?;
        match write_entry(disk, self.end, &self.room) {
            Ok(()) => {
                self.end += 5 + size;
                Ok(())
            }
            Err(DiskErr::Failed) => Err(AppendErr::Disk),
            Err(DiskErr::Memory) => Err(AppendErr::Memory),
        }
    }
}
