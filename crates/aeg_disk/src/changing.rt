// What each call changes of the bytes of a disk in memory.
ghost use Rattle.std.specs.Prelude.{◌≡◌, ◌+◌, ◌-◌, ◌<◌, ◌≤◌, ◌^◌, ◌++◌, ◌∷◌, length, take, drop, replicate, OnOk, OnErr};
ghost use Rattle.aeg_disk.specs.Disk.{written};
ghost use Rattle.aeg_disk.specs.Memory.{write_of, loss_of, kept_of};

use crate::tape::{Tape, narrow};
use aeg_base::Memory;
use std::alloc::Global;

// Writes over what is there.
fn overlay(bytes: &mut [u8], at: usize, piece: &[u8])
    requires { at + length piece.now ≤ length bytes.old }
    ensures { bytes.new ≡ take at bytes.old ++ piece.now ++ drop (at + length piece.now) bytes.old }
{
    bytes[at..at + piece.len()].copy_from_slice(piece);
}

fn overlay_in(bytes: &mut Vec<u8>, at: usize, piece: &[u8])
    requires { at + length piece.now ≤ length bytes.old.items }
    ensures { bytes.new.items ≡ take at bytes.old.items ++ piece.now ++ drop (at + length piece.now) bytes.old.items }
{
    overlay(bytes, at, piece);
}

// Fills up to this length with 0.
fn grow(bytes: &mut Vec<u8>, to: usize) -> Result<(), Memory>
    ensures ok { OnOk result (bytes.new.items ≡ bytes.old.items ++ replicate (to - length bytes.old.items) 0) }
    ensures err { OnErr result (bytes.new.items ≡ bytes.old.items) }
{
    if to > bytes.len() {
        bytes.resize(to, 0)?;
    }
    Ok(())
}

// The bytes of a range, as far as they are there.
fn part(bytes: &[u8], at: usize, count: usize) -> &[u8]
    requires { at + count < 2 ^ 64 }
    ensures { result.now ≡ take count (drop at bytes.now) }
{
    let len = bytes.len();
    &bytes[at.min(len)..(at + count).min(len)]
}

// Takes note of a write that is to come.
fn note(tape: &mut Tape, bytes: &[u8], at: usize, count: usize, settles: bool) -> Result<(), Memory>
    requires { at + count < 2 ^ 64 }
    ensures ok { OnOk result (tape.new ≡ write_of at count bytes.now settles ∷ tape.old) }
    ensures err { OnErr result (tape.new ≡ tape.old) }
{
    tape.add(at, count, bytes.len(), part(bytes, at, count), settles)
}

// Writes behind all that is there.
fn extend(bytes: &mut Vec<u8>, tape: &mut Tape, piece: &[u8], settles: bool) -> Result<(), Memory>
    requires { length bytes.old.items + length piece.now < 2 ^ 64 }
    ensures written { OnOk result (bytes.new.items ≡ bytes.old.items ++ piece.now) }
    ensures noted { OnOk result (tape.new ≡ write_of (length bytes.old.items) (length piece.now) bytes.old.items settles ∷ tape.old) }
    ensures err { OnErr result ((bytes.new.items ≡ bytes.old.items) × (tape.new ≡ tape.old)) }
{
    let before = bytes.len();
    bytes.extend_from_slice(piece)?;
    if note(tape, &bytes[..before], before, piece.len(), settles).is_err() {
        bytes.truncate(before);
        return Err(Memory);
    }
    Ok(())
}

// Writes over what is there and, where need be, behind it, in place, once there is room for all of it.
fn write_over(
    bytes: &mut Vec<u8>,
    tape: &mut Tape,
    at: usize,
    piece: &[u8],
    settles: bool,
) -> Result<(), Memory>
    requires { at + length piece.now < 2 ^ 64 }
    ensures written { OnOk result (bytes.new.items ≡ written at piece.now bytes.old.items) }
    ensures noted { OnOk result (tape.new ≡ write_of at (length piece.now) bytes.old.items settles ∷ tape.old) }
    ensures err { OnErr result ((bytes.new.items ≡ bytes.old.items) × (tape.new ≡ tape.old)) }
{
    let before = bytes.len();
    // A place that no note can have takes no room.
    let end = narrow(at + piece.len())?;
    grow(bytes, end as usize)?;
    if note(tape, &bytes[..before], at, piece.len(), settles).is_err() {
        bytes.truncate(before);
        return Err(Memory);
    }
    overlay_in(bytes, at, piece);
    Ok(())
}

/// Writes, in place.
pub(crate) fn put(
    bytes: &mut Vec<u8>,
    tape: &mut Tape,
    at: usize,
    piece: &[u8],
    settles: bool,
) -> Result<(), Memory>
    requires { at + length piece.now < 2 ^ 64 }
    ensures written { OnOk result (bytes.new.items ≡ written at piece.now bytes.old.items) }
    ensures noted { OnOk result (tape.new ≡ write_of at (length piece.now) bytes.old.items settles ∷ tape.old) }
    ensures err { OnErr result ((bytes.new.items ≡ bytes.old.items) × (tape.new ≡ tape.old)) }
{
    if at == bytes.len() {
        return extend(bytes, tape, piece, settles);
    }
    write_over(bytes, tape, at, piece, settles)
}

/// Puts what stood at the last sync in the place of the bytes.
pub(crate) fn lose(alloc: Global, bytes: &mut Vec<u8>, tape: &mut Tape) -> Result<(), Memory>
    ensures kept { OnOk result (bytes.new.items ≡ kept_of tape.old bytes.old.items) }
    ensures noted { OnOk result (tape.new ≡ loss_of bytes.old.items ∷ tape.old) }
    ensures err { OnErr result ((bytes.new.items ≡ bytes.old.items) × (tape.new ≡ tape.old)) }
{
    let next = tape.kept(alloc, bytes)?;
    tape.add(0, 0, bytes.len(), bytes, true)?;
    *bytes = next;
    Ok(())
}
