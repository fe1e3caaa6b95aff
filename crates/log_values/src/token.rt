// Tokens: the text of a job's outcome, so that replicas compare outcomes as bytes.
ghost use Rattle.std.specs.Prelude.{◌≡◌, ◌++◌, ◌↔◌, IfOk, IfSome, OnOk, Some, IsTrue};
ghost use Rattle.svc_api.specs.declared.outcome.Outcome.{Outcome};
ghost use Rattle.log_values.specs.Outcomes.{outcome, outcome_at, all_pairs_at, all_ends_at, token_at, FitsOutcome};
ghost use Rattle.log_values.specs.Reading.{Gives, Found, Passes, Counts, Spells, counted, counted_ends, whole};

use crate::Misread;
use crate::end_text::{pass_ends, put_ends, take_ends};
use crate::finish::ended;
use crate::format::{TOKEN_ENDS, TOKEN_PAIRS};
use crate::pair_text::{pass_pairs, put_pairs, take_pairs};
use aeg_base::{Bytes, Key, Memory, Seq};
use aeg_wire::{Cursor, put_u8, put_u16};
use std::alloc::Global;
use std::marker::Model;
use svc_api::{Ending, Outcome};

/// The text of an outcome. Two outcomes have one token exactly where they are equal.
#[derive(Debug, Drop)]
pub struct Token {
    bytes: Bytes,
}

impl Model for Token {
    ghost use Rattle.std.specs.Prelude.{List, ℕ};

    ghost Value = { List ℕ };

    ghost view = { λ t. t.bytes };
}

impl Token {
    /// Takes over the bytes.
    pub fn of(bytes: Bytes) -> Self
        ensures { result ≡ bytes }
    {
        Token { bytes }
    }

    pub fn bytes(&self) -> &[u8]
        ensures { result.now ≡ self.now }
    {
        self.bytes.items()
    }

    /// The same token again.
    pub fn copy(&self) -> Result<Self, Memory>
        ensures { IfOk result (λ copy. copy ≡ self.now) }
    {
        let bytes = self.bytes.copy()?;
        Ok(Token { bytes })
    }

    /// Whether the two are one token.
    pub fn same(&self, other: &Token) -> bool
        ensures { IsTrue result ↔ (self.now ≡ other.now) }
    {
        self.bytes == other.bytes
    }
}

fn put_outcome(out: &mut Bytes, o: &Outcome) -> Result<(), Memory>
    requires { FitsOutcome o.now }
    ensures { OnOk result (out.new ≡ out.old ++ outcome o.now) }
{
    put_u16(out, o.pairs.items().len() as u16)?;
    put_pairs(out, o.pairs.items())?;
    put_u8(out, o.ends.items().len() as u8)?;
    put_ends(out, o.ends.items())?;
    Ok(())
}

/// The one token of an outcome.
pub fn encode_outcome(alloc: Global, o: &Outcome) -> Result<Token, Memory>
    requires { FitsOutcome o.now }
    ensures { IfOk result (λ token. token ≡ outcome o.now) }
{
    let mut bytes = Bytes::new(alloc);
    put_outcome(&mut bytes, o)?;
    Ok(Token { bytes })
}

#[tactic(auto, unfolding(crate::specs::Outcomes::all_pairs_at))]
fn take_all_pairs(alloc: Global, from: &mut Cursor<'_>) -> Result<Seq<(Key, u64)>, Misread>
    ensures { Gives (λ s. s) result from.new (all_pairs_at from.old) }
{
    let count = from.take_u16().ok_or(Misread::Outside)?;
    if count > TOKEN_PAIRS {
        return Err(Misread::Outside);
    }
    let pairs = take_pairs(alloc, count, from)?;
    Ok(Seq::of(pairs))
}

#[tactic(auto, unfolding(crate::specs::Outcomes::all_ends_at))]
fn take_all_ends(alloc: Global, from: &mut Cursor<'_>) -> Result<Seq<Ending>, Misread>
    ensures { Gives (λ s. s) result from.new (all_ends_at from.old) }
{
    let count = from.take_u8().ok_or(Misread::Outside)?;
    if count > TOKEN_ENDS {
        return Err(Misread::Outside);
    }
    let ends = take_ends(alloc, count, from)?;
    Ok(Seq::of(ends))
}

#[tactic(auto, unfolding(crate::specs::Outcomes::outcome_at))]
fn take_outcome(alloc: Global, from: &mut Cursor<'_>) -> Result<Outcome, Misread>
    ensures { Gives (λ o. o) result from.new (outcome_at from.old) }
{
    let pairs = take_all_pairs(alloc, from)?;
    let ends = take_all_ends(alloc, from)?;
    Ok(Outcome { pairs, ends })
}

fn outcome_in(alloc: Global, bytes: &[u8]) -> Result<Option<Outcome>, Memory>
    ensures { IfOk result (λ found. found ≡ whole (outcome_at bytes.now)) }
{
    let mut from = Cursor::new(bytes);
    let read = take_outcome(alloc, &mut from);
    ended(read, from.rest())
}

fn told_by(alloc: Global, bytes: &[u8]) -> Result<Option<Outcome>, Memory>
    ensures found { IfOk result (λ found. IfSome found (λ o. Spells FitsOutcome outcome bytes.now o)) }
    ensures only { (o : Outcome) → Spells FitsOutcome outcome bytes.now o → IfOk result (λ found. found ≡ Some o) }
    ensures exact { IfOk result (λ found. found ≡ whole (outcome_at bytes.now)) }
{
    outcome_in(alloc, bytes)
}

/// The outcome that a token tells; none where its bytes are outside the grammar.
pub fn read_outcome(alloc: Global, token: &Token) -> Result<Option<Outcome>, Memory>
    ensures found { IfOk result (λ found. IfSome found (λ o. Spells FitsOutcome outcome token.now o)) }
    ensures only { (o : Outcome) → Spells FitsOutcome outcome token.now o → IfOk result (λ found. found ≡ Some o) }
    ensures exact { IfOk result (λ found. found ≡ whole (outcome_at token.now)) }
{
    told_by(alloc, token.bytes())
}

#[tactic(auto, unfolding(crate::specs::Outcomes::all_pairs_at))]
fn pass_all_pairs(from: &mut Cursor<'_>) -> Option<()>
    ensures { Passes result from.new (all_pairs_at from.old) }
{
    let Some(count) = from.take_u16() else {
        return None;
    };
    if count > TOKEN_PAIRS {
        return None;
    }
    pass_pairs(count, from)
}

#[tactic(auto, unfolding(crate::specs::Outcomes::all_ends_at))]
fn pass_all_ends(from: &mut Cursor<'_>) -> Option<u8>
    ensures { Counts counted result from.new (all_ends_at from.old) }
{
    let Some(count) = from.take_u8() else {
        return None;
    };
    if count > TOKEN_ENDS {
        return None;
    }
    let Some(_) = pass_ends(count, from) else {
        return None;
    };
    Some(count)
}

/// Passes over an outcome, and counts its ends.
fn pass_outcome(from: &mut Cursor<'_>) -> Option<u8>
    ensures { Counts counted_ends result from.new (outcome_at from.old) }
{
    let Some(_) = pass_all_pairs(from) else {
        return None;
    };
    let Some(count) = pass_all_ends(from) else {
        return None;
    };
    Some(count)
}

fn pass_from<'a>(start: &'a [u8], from: &mut Cursor<'a>) -> Option<(&'a [u8], u8)>
    requires { start.now ≡ from.old }
    ensures { Found (λ t. (t.0.now, t.1)) result from.new (token_at from.old) }
{
    let Some(count) = pass_outcome(from) else {
        return None;
    };
    let (token, _) = start.split_at(start.len() - from.rest().len());
    Some((token, count))
}

/// A token where it lies, and how many ends it has.
pub fn pass_token<'a>(from: &mut Cursor<'a>) -> Option<(&'a [u8], u8)>
    ensures { Found (λ t. (t.0.now, t.1)) result from.new (token_at from.old) }
{
    let start = from.rest();
    pass_from(start, from)
}
