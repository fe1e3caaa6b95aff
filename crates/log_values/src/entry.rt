// An entry of a batch.
ghost use Rattle.std.specs.Prelude.{◌≡◌, ◌↔◌, ◌++◌, OnOk, OnErr, IfOk, IsTrue};
ghost use Rattle.std.specs.List.{flat_map, AllByRecursion};
ghost use Rattle.aeg_wire.specs.Fields.{IsBegun};
ghost use Rattle.aeg_wire.specs.Formats.{list_at, counted_at};
ghost use Rattle.log_values.specs.Values.{entry, entry_at, FitsEntry};
ghost use Rattle.log_values.specs.Reading.{Gives};

use crate::Misread;
use crate::fields::{take_client, take_seq, take_text};
use crate::format::ENTRIES;
use aeg_base::{Bytes, Memory, Seq};
use aeg_wire::{Cursor, put_text, put_u8, put_u32};
use std::alloc::Global;

/// A request in a batch: its client, its number among the client's, and its text.
#[derive(Debug, Drop)]
pub struct Entry {
    pub client: u8,
    pub seq: u32,
    pub body: Bytes,
}

impl Entry {
    /// The same entry again.
    pub fn copy(&self) -> Result<Self, Memory>
        ensures { IfOk result (λ copy. copy ≡ self.now) }
    {
        let body = self.body.copy()?;
        Ok(Entry {
            client: self.client,
            seq: self.seq,
            body,
        })
    }

    /// Whether the two are one entry.
    pub fn same(&self, other: &Entry) -> bool
        ensures { IsTrue result ↔ (self.now ≡ other.now) }
    {
        self.client == other.client && self.seq == other.seq && self.body == other.body
    }
}

/// The entries of a batch again.
pub fn copy_entries(entries: &Seq<Entry>) -> Result<Seq<Entry>, Memory>
    ensures { IfOk result (λ copy. copy ≡ entries.now) }
{
    let mut copy = Seq::new(entries.allocator());
    for e in entries.items() {
        let again = e.copy()?;
        copy.push(again)?;
    }
    Ok(copy)
}

/// Whether the two are the same entries, in one order.
pub fn same_entries(a: &[Entry], b: &[Entry]) -> bool
    ensures { IsTrue result ↔ (a.now ≡ b.now) }
{
    if a.len() != b.len() {
        return false;
    }
    for i in 0..a.len() {
        if !a[i].same(&b[i]) {
            return false;
        }
    }
    true
}

#[tactic(auto, unfolding(crate::specs::Values::entry_at))]
fn take_entry(alloc: Global, from: &mut Cursor<'_>) -> Result<Entry, Misread>
    ensures { Gives (λ e. e) result from.new (entry_at from.old) }
{
    let client = take_client(from).ok_or(Misread::Outside)?;
    let seq = take_seq(from).ok_or(Misread::Outside)?;
    let body = take_text(alloc, from)?;
    Ok(Entry { client, seq, body })
}

fn take_some(alloc: Global, count: u8, from: &mut Cursor<'_>) -> Result<Vec<Entry>, Misread>
    ensures { Gives (λ v. v.items) result from.new (list_at entry_at count from.old) }
{
    let mut entries = Vec::new(alloc);
    for _ in 0..count {
        let entry = take_entry(alloc, from)?;
        entries.push(entry)?;
    }
    Ok(entries)
}

/// The entries of a batch, behind their count.
pub fn take_entries(alloc: Global, from: &mut Cursor<'_>) -> Result<Seq<Entry>, Misread>
    ensures { Gives (λ s. s) result from.new (counted_at ENTRIES entry_at from.old) }
{
    let count = from.take_u8().ok_or(Misread::Outside)?;
    if count > ENTRIES {
        return Err(Misread::Outside);
    }
    let entries = take_some(alloc, count, from)?;
    Ok(Seq::of(entries))
}

fn put_entry(out: &mut Bytes, e: &Entry) -> Result<(), Memory>
    requires { FitsEntry e.now }
    ensures ok { OnOk result (out.new ≡ out.old ++ entry e.now) }
    ensures err { OnErr result (IsBegun out.old out.new (entry e.now)) }
{
    put_u8(out, e.client)?;
    put_u32(out, e.seq)?;
    put_text(out, e.body.items())?;
    Ok(())
}

pub fn put_entries(out: &mut Bytes, entries: &[Entry]) -> Result<(), Memory>
    requires { AllByRecursion FitsEntry entries.now }
    ensures ok { OnOk result (out.new ≡ out.old ++ flat_map entry entries.now) }
    ensures err { OnErr result (IsBegun out.old out.new (flat_map entry entries.now)) }
{
    for e in entries {
        put_entry(out, e)?;
    }
    Ok(())
}
