// What a node writes down before it tells others.
ghost use Rattle.std.specs.Prelude.{◌≡◌, ◌++◌, OnOk, OnErr, IfOk, IfSome, Some};
ghost use Rattle.aeg_wire.specs.Fields.{IsBegun};
ghost use Rattle.log_values.specs.declared.fact.Fact.{Fact};
ghost use Rattle.log_values.specs.Records.{fact, fact_at, FitsFact};
ghost use Rattle.log_values.specs.Reading.{Gives, Spells, whole};

use crate::fields::{put_ballot, take_backend, take_ballot, take_number, take_position, tier_byte};
use crate::finish::ended;
use crate::format::{ACCEPTED, HELD, LEARNED, PROMISED};
use crate::{AnyValue, Misread, take_value};
use aeg_base::{Ballot, Bytes, CallNo, Memory, Pos, Tier};
use aeg_wire::{Cursor, put_u8, put_u16, put_u32};
use std::alloc::Global;

/// A fact of a node's journal: a ballot promised, a value accepted at a position by a ballot, a value learned at a
/// position, or the code of a call's answer.
#[derive(Debug, Drop)]
pub enum Fact {
    Promised(Ballot),
    Accepted(Pos, Ballot, AnyValue),
    Learned(Pos, AnyValue),
    Held(Tier, CallNo, u8),
}

/// A fact at the front of what is left.
#[tactic(auto, unfolding(crate::specs::Records::fact_at))]
pub fn take_fact(alloc: Global, from: &mut Cursor<'_>) -> Result<Fact, Misread>
    ensures { Gives (λ f. f) result from.new (fact_at from.old) }
{
    match from.take_u8().ok_or(Misread::Outside)? {
        PROMISED => {
            let ballot = take_ballot(from).ok_or(Misread::Outside)?;
            Ok(Fact::Promised(ballot))
        }
        ACCEPTED => {
            let position = take_position(from).ok_or(Misread::Outside)?;
            let ballot = take_ballot(from).ok_or(Misread::Outside)?;
            let value = take_value(alloc, from)?;
            Ok(Fact::Accepted(position, ballot, value))
        }
        LEARNED => {
            let position = take_position(from).ok_or(Misread::Outside)?;
            let value = take_value(alloc, from)?;
            Ok(Fact::Learned(position, value))
        }
        HELD => {
            let tier = take_backend(from).ok_or(Misread::Outside)?;
            let no = take_number(from).ok_or(Misread::Outside)?;
            let code = from.take_u8().ok_or(Misread::Outside)?;
            Ok(Fact::Held(tier, no, code))
        }
        _ => Err(Misread::Outside),
    }
}

fn fact_in(alloc: Global, bytes: &[u8]) -> Result<Option<Fact>, Memory>
    ensures { IfOk result (λ found. found ≡ whole (fact_at bytes.now)) }
{
    let mut from = Cursor::new(bytes);
    let read = take_fact(alloc, &mut from);
    ended(read, from.rest())
}

impl Fact {
    /// Writes the one spelling of the fact. After an error a front of it may have been written.
    pub fn encode(&self, out: &mut Bytes) -> Result<(), Memory>
        requires { FitsFact self.now }
        ensures ok { OnOk result (out.new ≡ out.old ++ fact self.now) }
        ensures err { OnErr result (IsBegun out.old out.new (fact self.now)) }
    {
        match self {
            Fact::Promised(ballot) => {
                put_u8(out, PROMISED)?;
                put_ballot(out, *ballot)?;
            }
            Fact::Accepted(position, ballot, value) => {
                put_u8(out, ACCEPTED)?;
                put_u16(out, *position)?;
                put_ballot(out, *ballot)?;
                value.encode(out)?;
            }
            Fact::Learned(position, value) => {
                put_u8(out, LEARNED)?;
                put_u16(out, *position)?;
                value.encode(out)?;
            }
            Fact::Held(tier, no, code) => {
                put_u8(out, HELD)?;
                put_u8(out, tier_byte(*tier))?;
                put_u32(out, *no)?;
                put_u8(out, *code)?;
            }
        }
        Ok(())
    }

    /// The fact that the bytes spell, all of them; none where they spell none.
    pub fn decode(alloc: Global, bytes: &[u8]) -> Result<Option<Self>, Memory>
        ensures found { IfOk result (λ found. IfSome found (λ f. Spells FitsFact fact bytes.now f)) }
        ensures only { (f : Fact) → Spells FitsFact fact bytes.now f → IfOk result (λ found. found ≡ Some f) }
        ensures exact { IfOk result (λ found. found ≡ whole (fact_at bytes.now)) }
    {
        fact_in(alloc, bytes)
    }
}
