// What a log of either kind agrees on.
ghost use Rattle.std.specs.Prelude.{◌≡◌, ◌++◌, OnOk, OnErr, IfOk, IfSome, Some};
ghost use Rattle.aeg_wire.specs.Fields.{IsBegun};
ghost use Rattle.log_values.specs.declared.any_value.AnyValue.{AnyValue};
ghost use Rattle.log_values.specs.Values.{any_value, any_value_at, FitsAny};
ghost use Rattle.log_values.specs.Reading.{Gives, Spells, whole};

use crate::back_value::take_back;
use crate::finish::ended;
use crate::format::CALL;
use crate::mid_value::take_mid;
use crate::{BackValue, MidValue, Misread};
use aeg_base::{Bytes, Memory, Value};
use aeg_wire::Cursor;
use std::alloc::Global;

/// A value of a log.
#[derive(Debug, Drop)]
pub enum AnyValue {
    Mid(MidValue),
    Back(BackValue),
}

impl Value for AnyValue {
    fn copy(&self) -> Result<Self, Memory> {
        match self {
            AnyValue::Mid(value) => {
                let value = value.copy()?;
                Ok(AnyValue::Mid(value))
            }
            AnyValue::Back(value) => {
                let value = value.copy()?;
                Ok(AnyValue::Back(value))
            }
        }
    }

    fn same(&self, other: &Self) -> bool {
        match self {
            AnyValue::Mid(value) => match other {
                AnyValue::Mid(theirs) => value.same(theirs),
                AnyValue::Back(_) => false,
            },
            AnyValue::Back(value) => match other {
                AnyValue::Mid(_) => false,
                AnyValue::Back(theirs) => value.same(theirs),
            },
        }
    }
}

/// A value at the front of what is left.
#[tactic(auto, unfolding(crate::specs::Values::any_value_at))]
pub fn take_value(alloc: Global, from: &mut Cursor<'_>) -> Result<AnyValue, Misread>
    ensures { Gives (λ v. v) result from.new (any_value_at from.old) }
{
    let lead = from.take_u8().ok_or(Misread::Outside)?;
    if lead < CALL {
        let value = take_mid(alloc, lead, from)?;
        return Ok(AnyValue::Mid(value));
    }
    let value = take_back(alloc, lead, from)?;
    Ok(AnyValue::Back(value))
}

fn value_in(alloc: Global, bytes: &[u8]) -> Result<Option<AnyValue>, Memory>
    ensures { IfOk result (λ found. found ≡ whole (any_value_at bytes.now)) }
{
    let mut from = Cursor::new(bytes);
    let read = take_value(alloc, &mut from);
    ended(read, from.rest())
}

impl AnyValue {
    /// Writes the one spelling of the value. After an error a front of it may have been written.
    pub fn encode(&self, out: &mut Bytes) -> Result<(), Memory>
        requires { FitsAny self.now }
        ensures ok { OnOk result (out.new ≡ out.old ++ any_value self.now) }
        ensures err { OnErr result (IsBegun out.old out.new (any_value self.now)) }
    {
        match self {
            AnyValue::Mid(value) => value.encode(out),
            AnyValue::Back(value) => value.encode(out),
        }
    }

    /// The value that the bytes spell, all of them; none where they spell none.
    pub fn decode(alloc: Global, bytes: &[u8]) -> Result<Option<Self>, Memory>
        ensures found { IfOk result (λ found. IfSome found (λ v. Spells FitsAny any_value bytes.now v)) }
        ensures only { (v : AnyValue) → Spells FitsAny any_value bytes.now v → IfOk result (λ found. found ≡ Some v) }
        ensures exact { IfOk result (λ found. found ≡ whole (any_value_at bytes.now)) }
    {
        value_in(alloc, bytes)
    }
}
