// What the log of a backend tier agrees on.
ghost use Rattle.std.specs.Prelude.{◌≡◌, ◌↔◌, ◌++◌, OnOk, OnErr, IfOk, IfSome, Some, IsTrue};
ghost use Rattle.aeg_wire.specs.Fields.{IsBegun};
ghost use Rattle.log_values.specs.declared.back_value.BackValue.{BackValue};
ghost use Rattle.log_values.specs.Values.{back_value, back_value_at, back_body_at, FitsBack};
ghost use Rattle.log_values.specs.Reading.{Gives, Spells, whole};

use crate::Misread;
use crate::fields::{take_floor, take_number, take_text};
use crate::finish::ended;
use crate::format::{CALL, SETTLE};
use aeg_base::{Bytes, CallNo, Memory};
use aeg_wire::{Cursor, put_text, put_u8, put_u32};
use std::alloc::Global;

/// A value of a backend tier's log: a call to be served, or a number below which no answer is wanted any more.
#[derive(Debug, Drop)]
pub enum BackValue {
    Call { no: CallNo, body: Bytes },
    Settle { floor: CallNo },
}

/// What stands behind a lead byte.
#[tactic(auto, unfolding(crate::specs::Values::back_body_at))]
pub fn take_back(alloc: Global, lead: u8, from: &mut Cursor<'_>) -> Result<BackValue, Misread>
    ensures { Gives (λ v. v) result from.new (back_body_at lead from.old) }
{
    match lead {
        CALL => {
            let no = take_number(from).ok_or(Misread::Outside)?;
            let body = take_text(alloc, from)?;
            Ok(BackValue::Call { no, body })
        }
        SETTLE => {
            let floor = take_floor(from).ok_or(Misread::Outside)?;
            Ok(BackValue::Settle { floor })
        }
        _ => Err(Misread::Outside),
    }
}

#[tactic(auto, unfolding(crate::specs::Values::back_value_at))]
fn take_led(alloc: Global, from: &mut Cursor<'_>) -> Result<BackValue, Misread>
    ensures { Gives (λ v. v) result from.new (back_value_at from.old) }
{
    let lead = from.take_u8().ok_or(Misread::Outside)?;
    let value = take_back(alloc, lead, from)?;
    Ok(value)
}

fn value_in(alloc: Global, bytes: &[u8]) -> Result<Option<BackValue>, Memory>
    ensures { IfOk result (λ found. found ≡ whole (back_value_at bytes.now)) }
{
    let mut from = Cursor::new(bytes);
    let read = take_led(alloc, &mut from);
    ended(read, from.rest())
}

impl BackValue {
    /// The same value again.
    pub fn copy(&self) -> Result<Self, Memory>
        ensures { IfOk result (λ copy. copy ≡ self.now) }
    {
        match self {
            BackValue::Call { no, body } => {
                let body = body.copy()?;
                Ok(BackValue::Call { no: *no, body })
            }
            BackValue::Settle { floor } => Ok(BackValue::Settle { floor: *floor }),
        }
    }

    /// Whether the two are one value.
    pub fn same(&self, other: &BackValue) -> bool
        ensures { IsTrue result ↔ (self.now ≡ other.now) }
    {
        match self {
            BackValue::Call { no, body } => match other {
                BackValue::Call {
                    no: their_no,
                    body: their_body,
                } => no == their_no && body == their_body,
                BackValue::Settle { .. } => false,
            },
            BackValue::Settle { floor } => match other {
                BackValue::Call { .. } => false,
                BackValue::Settle { floor: their_floor } => floor == their_floor,
            },
        }
    }

    /// Writes the one spelling of the value. After an error a front of it may have been written.
    pub fn encode(&self, out: &mut Bytes) -> Result<(), Memory>
        requires { FitsBack self.now }
        ensures ok { OnOk result (out.new ≡ out.old ++ back_value self.now) }
        ensures err { OnErr result (IsBegun out.old out.new (back_value self.now)) }
    {
        match self {
            BackValue::Call { no, body } => {
                put_u8(out, CALL)?;
                put_u32(out, *no)?;
                put_text(out, body.items())?;
            }
            BackValue::Settle { floor } => {
                put_u8(out, SETTLE)?;
                put_u32(out, *floor)?;
            }
        }
        Ok(())
    }

    /// The value that the bytes spell, all of them; none where they spell none.
    pub fn decode(alloc: Global, bytes: &[u8]) -> Result<Option<Self>, Memory>
        ensures found { IfOk result (λ found. IfSome found (λ v. Spells FitsBack back_value bytes.now v)) }
        ensures only { (v : BackValue) → Spells FitsBack back_value bytes.now v → IfOk result (λ found. found ≡ Some v) }
        ensures exact { IfOk result (λ found. found ≡ whole (back_value_at bytes.now)) }
    {
        value_in(alloc, bytes)
    }
}
