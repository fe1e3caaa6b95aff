// Reads a journal from a disk, and shuts the gate of an empty one.
ghost use Rattle.std.specs.Prelude.{◌≡◌, ◌≢◌, ◌⊎◌, ℕ, ◌+◌, ◌-◌, ◌<◌, ◌≤◌, List, [], ◌∷◌, ◌++◌, true, false, length, get_or, take, drop, IfOk, IfSome, OnOk, MatchOption};
ghost use Rattle.aeg_disk.specs.Disk.{Looks, Rose, Later};
ghost use Rattle.node_journal.specs.Journal.{told_length, body_of, is_whole, records, size_of, Ends, IsBadAt};
ghost use Rattle.node_journal.specs.Opening.{Entry, LooksTo, Next, IsTornOff, Read, Shuts, WasThere, opened_bytes};
ghost use Rattle.node_journal.specs.Append.{LeavesOnly, HasList, IsFaultless};

use crate::journal::Journal;
use aeg_base::limits::RECORD_BYTES;
use aeg_base::{Bytes, Memory};
use aeg_disk::{Disk, DiskErr};
use std::alloc::{AllocError, AllocFailed, Global};
use thiserror::Error;

/// Why a journal was not opened.
#[derive(Clone, Copy, Debug, PartialEq, Eq, Error)]
pub enum OpenErr {
    /// The disk failed.
    #[error("the disk failed")]
    Disk,
    /// The gate at this place is open, and no whole entry follows it.
    #[error("no whole entry follows the open gate at byte {at}")]
    BadRecord { at: u64 },
    #[error("there is no memory")]
    Memory,
}

// The byte at a place.
fn byte_at<D: Disk>(disk: &mut D, at: u64) -> Result<u8, DiskErr>
    requires { at < (D.state disk.old).size }
    ensures looks { Looks (D.state disk.old) (D.state disk.new) result }
    ensures byte { IfOk result (λ b. (D.state disk.old).tells ≡ true → b ≡ get_or (D.state disk.old).bytes at 0) }
{
    let mut byte = [0u8; 1];
    disk.read(at, &mut byte)?;
    Ok(byte[0])
}

// The length that stands behind the gate at a place.
#[tactic(auto, unfolding(crate::specs::Journal::told_length))]
fn length_at<D: Disk>(disk: &mut D, at: u64, len: u64) -> Result<u32, DiskErr>
    requires long { len ≡ (D.state disk.old).size }
    requires inside { at + 5 ≤ len }
    ensures looks { Looks (D.state disk.old) (D.state disk.new) result }
    ensures told { IfOk result (λ n. (D.state disk.old).tells ≡ true → n ≡ told_length (drop (at + 1) (D.state disk.old).bytes)) }
{
    let mut bytes = [0u8; 4];
    disk.read(at + 1, &mut bytes)?;
    Ok(u32::from_be_bytes(bytes))
}

impl From<DiskErr> for OpenErr {
    ghost use Rattle.node_journal.specs.Opening.{open_err};

    ghost from_gives = { λ d e. e ≡ open_err d };

    fn from(e: DiskErr) -> Self {
        match e {
            DiskErr::Failed => OpenErr::Disk,
            DiskErr::Memory => OpenErr::Memory,
        }
    }
}

impl From<AllocError> for OpenErr {
    ghost use Rattle.node_journal.specs.declared.opening.OpenErr.TheVariants.{Memory as NoMemory};

    ghost from_gives = { λ _ e. e ≡ NoMemory };

    fn from(_: AllocError) -> Self {
        OpenErr::Memory
    }
}

impl<T: Drop> From<AllocFailed<T>> for OpenErr {
    ghost use Rattle.node_journal.specs.declared.opening.OpenErr.TheVariants.{Memory as NoMemory};

    ghost from_gives = { λ _ e. e ≡ NoMemory };

    fn from(_: AllocFailed<T>) -> Self {
        OpenErr::Memory
    }
}

// So many bytes from a place on.
fn bytes_at<D: Disk>(alloc: Global, disk: &mut D, at: u64, count: usize) -> Result<Bytes, OpenErr>
    requires { at + count ≤ (D.state disk.old).size }
    ensures looks { LooksTo (D.state disk.old) (D.state disk.new) result }
    ensures long { IfOk result (λ b. length b ≡ count) }
    ensures none_bad { (n : ℕ) → result ≡ Err (OpenErr.BadRecord n) → ⊥ }
    ensures bytes { IfOk result (λ b. (D.state disk.old).tells ≡ true → b ≡ take count (drop at (D.state disk.old).bytes)) }
{
    let mut bytes = Vec::new(alloc);
    bytes.resize(count, 0)?;
    disk.read(at, &mut bytes)?;
    Ok(Bytes::of(bytes))
}

// The body of the entry behind the gate at a place, or none where there is no whole one.
fn entry_at<D: Disk>(
    alloc: Global,
    disk: &mut D,
    at: u64,
    len: u64,
) -> Result<Option<Bytes>, OpenErr>
    requires long { len ≡ (D.state disk.old).size }
    requires inside { at < len }
    ensures looks { LooksTo (D.state disk.old) (D.state disk.new) result }
    ensures entry { IfOk result (λ r. (D.state disk.old).tells ≡ true → length (D.state disk.old).bytes ≡ len → Entry (drop (at + 1) (D.state disk.old).bytes) r) }
    ensures fits { IfOk result (λ r. IfSome r (λ b. at + 5 + length b < len)) }
    ensures none_bad { (n : ℕ) → result ≡ Err (OpenErr.BadRecord n) → ⊥ }
{
    if len - at < 6 {
        return Ok(None);
    }
    let count = u64::from(length_at(disk, at, len)?);
    if count == 0 || count > u64::from(RECORD_BYTES) || len - at < count + 6 {
        return Ok(None);
    }
    Ok(Some(bytes_at(alloc, disk, at + 5, count as usize)?))
}

// The body of the entry that begins at a place, or none where the gate there is shut.
fn next_entry<D: Disk>(
    alloc: Global,
    disk: &mut D,
    at: u64,
    len: u64,
) -> Result<Option<Bytes>, OpenErr>
    requires long { len ≡ (D.state disk.old).size }
    requires inside { at < len }
    ensures looks { LooksTo (D.state disk.old) (D.state disk.new) result }
    ensures next { IfOk result (λ r. (D.state disk.old).tells ≡ true → length (D.state disk.old).bytes ≡ len → Next (D.state disk.old).bytes at r) }
    ensures fits { IfOk result (λ r. IfSome r (λ b. at + 5 + length b < len)) }
    ensures bad { (n : ℕ) → result ≡ Err (OpenErr.BadRecord n) → (n ≡ at) × ((D.state disk.old).tells ≡ true → length (D.state disk.old).bytes ≡ len → IsTornOff (D.state disk.old).bytes at) }
{
    if byte_at(disk, at)? != 1 {
        return Ok(None);
    }
    match entry_at(alloc, disk, at, len)? {
        Some(body) => Ok(Some(body)),
        None => Err(OpenErr::BadRecord { at }),
    }
}

// All entries, and the place of the gate that ends them.
fn read_entries<D: Disk>(
    alloc: Global,
    disk: &mut D,
    len: u64,
) -> Result<(u64, Vec<Bytes>), OpenErr>
    requires long { len ≡ (D.state disk.old).size }
    requires some { 1 < len }
    ensures looks { LooksTo (D.state disk.old) (D.state disk.new) result }
    ensures records { IfOk result (λ r. (D.state disk.old).tells ≡ true → length (D.state disk.old).bytes ≡ len → Ends r.1.items r.0 (D.state disk.old).bytes) }
    ensures bad { (n : ℕ) → result ≡ Err (OpenErr.BadRecord n) → (D.state disk.old).tells ≡ true → length (D.state disk.old).bytes ≡ len → IsBadAt n (D.state disk.old).bytes }
{
    let mut out = Vec::new(alloc);
    let mut at = 0;
    'entries: loop {
        match next_entry(alloc, disk, at, len) {
            Ok(Some(body)) => {
                at += 5 + body.items().len() as u64;
                out.push(body)?;
            }
            Ok(None) => return Ok((at, out)),
            Err(e) => return Err(e),
        }
    }
}

// Shuts the gate of an empty journal.
fn shut<D: Disk>(disk: &mut D) -> Result<(), DiskErr>
    ensures { Shuts (D.state disk.old) (D.state disk.new) result }
{
    disk.write_at(0, &[0])?;
    disk.sync()?;
    Ok(())
}

/// Reads the journal of a disk that a crash may have left. It may be cut off by a crash itself.
pub fn open_on<D: Disk>(alloc: Global, disk: &mut D) -> Result<(Journal, Vec<Bytes>), OpenErr>
    ensures records { IfOk result (λ r. (D.state disk.old).tells ≡ true → r.1.items ≡ records (D.state disk.old).bytes) }
    ensures ready { IfOk result (λ r. (D.state disk.old).tells ≡ true → HasList (records (D.state disk.old).bytes) (D.state disk.new) r.0) }

    ensures size { IfOk result (λ r. (D.state disk.old).tells ≡ true → r.0 + 1 ≡ size_of r.1.items) }

    ensures bytes { OnOk result ((D.state disk.old).tells ≡ true → (D.state disk.new).bytes ≡ opened_bytes (D.state disk.old).bytes) }

    // `BadRecord` comes exactly at an open gate that no whole entry follows.
    ensures bad { (n : ℕ) → result ≡ Err (OpenErr.BadRecord n) → (D.state disk.old).tells ≡ true → IsBadAt n (D.state disk.old).bytes }
    ensures whole { OnOk result ((D.state disk.old).tells ≡ true → (n : ℕ) → IsBadAt n (D.state disk.old).bytes → ⊥) }

    // A crash at any moment of the call leaves the records of an image that there was.
    ensures any_moment { (D.state disk.old).tells ≡ true → LeavesOnly (D.state disk.old) (D.state disk.new) (WasThere (D.state disk.old)) }

    ensures cause { result ≡ Err OpenErr.Disk → ((D.state disk.new).stopped ≡ true) ⊎ Rose (D.state disk.old).faults (D.state disk.new).faults }
    // And what the disk failed is answered as that.
    ensures told { (result ≡ Err OpenErr.Disk) ⊎ IsFaultless (D.state disk.old) (D.state disk.new) }
    ensures later { Later (D.state disk.old) (D.state disk.new) }
{
    disk.sync()?;
    let len = disk.len()?;
    if len > 1 {
        return match read_entries(alloc, disk, len) {
            Ok((end, list)) => Ok((Journal::ending_at(alloc, end), list)),
            Err(e) => Err(e),
        };
    }
    shut(disk)?;
    Ok((Journal::ending_at(alloc, 0), Vec::new(alloc)))
}
