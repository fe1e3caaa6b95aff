// A record of a journal.
ghost use Rattle.std.specs.Prelude.{◌≡◌, ◌++◌, List, length, OnOk, OnErr, IfOk, IfSome, Some};
ghost use Rattle.aeg_wire.specs.Fields.{IsBegun};
ghost use Rattle.log_values.specs.declared.fact.Fact.{Fact};
ghost use Rattle.log_values.specs.Records.{record_text, record_at, facts_at, FitsRecord};
ghost use Rattle.log_values.specs.Reading.{Gives, Spells, whole};

use crate::fact::take_fact;
use crate::finish::ended;
use crate::{Fact, Misread};
use aeg_base::{Bytes, Memory, Seq};
use aeg_wire::Cursor;
use std::alloc::Global;
use std::marker::Model;

/// What one event writes down: its facts, in order.
#[derive(Debug, Drop)]
pub struct Record {
    facts: Seq<Fact>,
}

impl Model for Record {
    ghost use Rattle.std.specs.Prelude.{List};
    ghost use Rattle.log_values.specs.declared.fact.Fact.{Fact};

    ghost Value = { List Fact };

    ghost view = { λ r. r.facts };
}

fn take_facts(alloc: Global, from: &mut Cursor<'_>) -> Result<Vec<Fact>, Misread>
    ensures { Gives (λ v. v.items) result from.new (facts_at (length from.old) from.old) }
{
    let mut facts = Vec::new(alloc);
    // Each fact has a byte at least, so there are no more facts than bytes.
    let most = from.rest().len();
    for _ in 0..most {
        if from.is_empty() {
            return Ok(facts);
        }
        let fact = take_fact(alloc, from)?;
        facts.push(fact)?;
    }
    if from.is_empty() {
        return Ok(facts);
    }
    Err(Misread::Outside)
}

#[tactic(auto, unfolding(crate::specs::Records::record_at))]
fn take_record(alloc: Global, from: &mut Cursor<'_>) -> Result<Record, Misread>
    ensures { Gives (λ r. r) result from.new (record_at from.old) }
{
    let facts = take_facts(alloc, from)?;
    if facts.is_empty() {
        return Err(Misread::Outside);
    }
    Ok(Record {
        facts: Seq::of(facts),
    })
}

fn record_in(alloc: Global, bytes: &[u8]) -> Result<Option<Record>, Memory>
    ensures { IfOk result (λ found. found ≡ whole (record_at bytes.now)) }
{
    let mut from = Cursor::new(bytes);
    let read = take_record(alloc, &mut from);
    ended(read, from.rest())
}

impl Record {
    /// A record of these facts.
    pub fn of(facts: Vec<Fact>) -> Self
        ensures { result ≡ facts.items }
    {
        Record {
            facts: Seq::of(facts),
        }
    }

    pub fn facts(&self) -> &[Fact]
        ensures { result.now ≡ self.now }
    {
        self.facts.items()
    }

    /// Gives the facts back.
    pub fn into_facts(self) -> Vec<Fact>
        ensures { result.items ≡ self }
    {
        self.facts.into_vec()
    }

    /// Writes the one spelling of the record. After an error a front of it may have been written.
    pub fn encode(&self, out: &mut Bytes) -> Result<(), Memory>
        requires { FitsRecord self.now }
        ensures ok { OnOk result (out.new ≡ out.old ++ record_text self.now) }
        ensures err { OnErr result (IsBegun out.old out.new (record_text self.now)) }
    {
        for fact in self.facts.items() {
            fact.encode(out)?;
        }
        Ok(())
    }

    /// The record that the bytes spell, all of them; none where they spell none.
    pub fn decode(alloc: Global, bytes: &[u8]) -> Result<Option<Self>, Memory>
        ensures found { IfOk result (λ found. IfSome found (λ r. Spells FitsRecord record_text bytes.now r)) }
        ensures only { (r : List Fact) → Spells FitsRecord record_text bytes.now r → IfOk result (λ found. found ≡ Some r) }
        ensures exact { IfOk result (λ found. found ≡ whole (record_at bytes.now)) }
    {
        record_in(alloc, bytes)
    }
}
