// What the log of the middle tier agrees on.
ghost use Rattle.std.specs.Prelude.{◌≡◌, ◌↔◌, ◌++◌, OnOk, OnErr, IfOk, IfSome, Some, IsTrue};
ghost use Rattle.aeg_wire.specs.Fields.{IsBegun};
ghost use Rattle.log_values.specs.declared.mid_value.MidValue.{MidValue};
ghost use Rattle.log_values.specs.Values.{mid_value, mid_value_at, mid_body_at, FitsMid};
ghost use Rattle.log_values.specs.Reading.{Gives, Spells, whole};

use crate::entry::{copy_entries, put_entries, same_entries, take_entries};
use crate::finish::ended;
use crate::format::{BATCH, COMMIT, SERIAL};
use crate::order::{put_commit, take_commit};
use crate::{Entry, Misread, Token};
use aeg_base::{Bytes, Memory, Seq};
use aeg_wire::{Cursor, put_u8};
use std::alloc::Global;

/// What became of a round: a token with an order of its segments, or the word that the job runs one by one.
#[derive(Debug, Drop)]
pub enum Verdict {
    Commit { token: Token, order: Seq<u8> },
    Serial,
}

impl Verdict {
    /// The same verdict again.
    pub fn copy(&self) -> Result<Self, Memory>
        ensures { IfOk result (λ copy. copy ≡ self.now) }
    {
        match self {
            Verdict::Commit { token, order } => {
                let token = token.copy()?;
                let numbers = Vec::from_slice(order.allocator(), order.items())?;
                Ok(Verdict::Commit {
                    token,
                    order: Seq::of(numbers),
                })
            }
            Verdict::Serial => Ok(Verdict::Serial),
        }
    }

    /// Whether the two are one verdict.
    pub fn same(&self, other: &Verdict) -> bool
        ensures { IsTrue result ↔ (self.now ≡ other.now) }
    {
        match self {
            Verdict::Commit { token, order } => match other {
                Verdict::Commit {
                    token: their_token,
                    order: their_order,
                } => token.same(their_token) && order.items() == their_order.items(),
                Verdict::Serial => false,
            },
            Verdict::Serial => matches!(other, Verdict::Serial),
        }
    }
}

/// A value of the middle log: a round's batch, and then its verdict.
#[derive(Debug, Drop)]
pub enum MidValue {
    Batch(Seq<Entry>),
    Verdict(Verdict),
}

/// What stands behind a lead byte.
#[tactic(auto, unfolding(crate::specs::Values::mid_body_at))]
pub fn take_mid(alloc: Global, lead: u8, from: &mut Cursor<'_>) -> Result<MidValue, Misread>
    ensures { Gives (λ v. v) result from.new (mid_body_at lead from.old) }
{
    match lead {
        BATCH => {
            let entries = take_entries(alloc, from)?;
            Ok(MidValue::Batch(entries))
        }
        COMMIT => {
            let (token, order) = take_commit(alloc, from)?;
            Ok(MidValue::Verdict(Verdict::Commit { token, order }))
        }
        SERIAL => Ok(MidValue::Verdict(Verdict::Serial)),
        _ => Err(Misread::Outside),
    }
}

#[tactic(auto, unfolding(crate::specs::Values::mid_value_at))]
fn take_led(alloc: Global, from: &mut Cursor<'_>) -> Result<MidValue, Misread>
    ensures { Gives (λ v. v) result from.new (mid_value_at from.old) }
{
    let lead = from.take_u8().ok_or(Misread::Outside)?;
    let value = take_mid(alloc, lead, from)?;
    Ok(value)
}

fn value_in(alloc: Global, bytes: &[u8]) -> Result<Option<MidValue>, Memory>
    ensures { IfOk result (λ found. found ≡ whole (mid_value_at bytes.now)) }
{
    let mut from = Cursor::new(bytes);
    let read = take_led(alloc, &mut from);
    ended(read, from.rest())
}

impl MidValue {
    /// The same value again.
    pub fn copy(&self) -> Result<Self, Memory>
        ensures { IfOk result (λ copy. copy ≡ self.now) }
    {
        match self {
            MidValue::Batch(entries) => {
                let entries = copy_entries(entries)?;
                Ok(MidValue::Batch(entries))
            }
            MidValue::Verdict(verdict) => {
                let verdict = verdict.copy()?;
                Ok(MidValue::Verdict(verdict))
            }
        }
    }

    /// Whether the two are one value.
    pub fn same(&self, other: &MidValue) -> bool
        ensures { IsTrue result ↔ (self.now ≡ other.now) }
    {
        match self {
            MidValue::Batch(entries) => match other {
                MidValue::Batch(others) => same_entries(entries.items(), others.items()),
                MidValue::Verdict(_) => false,
            },
            MidValue::Verdict(verdict) => match other {
                MidValue::Batch(_) => false,
                MidValue::Verdict(theirs) => verdict.same(theirs),
            },
        }
    }

    /// Writes the one spelling of the value. After an error a front of it may have been written.
    pub fn encode(&self, out: &mut Bytes) -> Result<(), Memory>
        requires { FitsMid self.now }
        ensures ok { OnOk result (out.new ≡ out.old ++ mid_value self.now) }
        ensures err { OnErr result (IsBegun out.old out.new (mid_value self.now)) }
    {
        match self {
            MidValue::Batch(entries) => {
                put_u8(out, BATCH)?;
                put_u8(out, entries.items().len() as u8)?;
                put_entries(out, entries.items())?;
            }
            MidValue::Verdict(Verdict::Commit { token, order }) => {
                put_u8(out, COMMIT)?;
                put_commit(out, token, order.items())?;
            }
            MidValue::Verdict(Verdict::Serial) => put_u8(out, SERIAL)?,
        }
        Ok(())
    }

    /// The value that the bytes spell, all of them; none where they spell none.
    pub fn decode(alloc: Global, bytes: &[u8]) -> Result<Option<Self>, Memory>
        ensures found { IfOk result (λ found. IfSome found (λ v. Spells FitsMid mid_value bytes.now v)) }
        ensures only { (v : MidValue) → Spells FitsMid mid_value bytes.now v → IfOk result (λ found. found ≡ Some v) }
        ensures exact { IfOk result (λ found. found ≡ whole (mid_value_at bytes.now)) }
    {
        value_in(alloc, bytes)
    }
}
