// Facts and records, as they stand in journals.
ghost use Rattle.log_values.specs.Records.{FitsFact, FitsRecord};

use aeg_base::Bytes;
use log_values::{Fact, Record};
use std::alloc::Global;
use std::test::*;

/// The record that promises ballot (1, 0), as it stands in a journal.
const PROMISE: [u8; 6] = [1, 0, 0, 0, 1, 0];

/// A record with a fact of each kind: ballot (2, 1) is promised, a verdict is accepted at position 1 and learned there,
/// and the answer of inventory's call 1 is held.
const FACTS: &[u8] = b"\x01\x00\x00\x00\x02\x01\
    \x02\x00\x01\x00\x00\x00\x02\x01\x03\
    \x03\x00\x01\x03\
    \x04\x01\x00\x00\x00\x01\x00";

/// A fact of each kind, as in the record above.
const EACH_FACT: [&[u8]; 4] = [
    b"\x01\x00\x00\x00\x02\x01",
    b"\x02\x00\x01\x00\x00\x00\x02\x01\x03",
    b"\x03\x00\x01\x03",
    b"\x04\x01\x00\x00\x00\x01\x00",
];

/// Whether the record is written as these bytes.
fn is_kept(alloc: Global, kept: &Record, bytes: &[u8]) -> Result<bool, Fail>
    requires { FitsRecord kept.now }
{
    let mut out = Bytes::new(alloc);
    kept.encode(&mut out)?;
    Ok(out.items() == bytes)
}

/// Whether the bytes are a record of so many facts, which is written so.
fn is_record(alloc: Global, bytes: &[u8], count: usize) -> Result<bool, Fail> {
    let Some(record) = Record::decode(alloc, bytes)? else {
        return Err("a record".into());
    };
    Ok(record.facts().len() == count && is_kept(alloc, &record, bytes)?)
}

fn is_no_record(alloc: Global, bytes: &[u8]) -> Result<bool, Fail> {
    let record = Record::decode(alloc, bytes)?;
    Ok(record.is_none())
}

#[test]
fn a_record_is_read_and_written(rt: HostRuntime) -> Result<(), Fail> {
    assert!(rt; is_record(rt.alloc(), &PROMISE, 1)?);
    assert!(rt; is_record(rt.alloc(), FACTS, 4)?);
    assert!(rt; is_no_record(rt.alloc(), &[])?);
    Ok(())
}

/// The place of a fact's kind in that list.
fn place_of(fact: &Fact) -> usize {
    match fact {
        Fact::Promised(_) => 0,
        Fact::Accepted(_, _, _) => 1,
        Fact::Learned(_, _) => 2,
        Fact::Held(_, _, _) => 3,
    }
}

/// Whether the fact is written as these bytes.
fn is_fact_written(alloc: Global, fact: &Fact, bytes: &[u8]) -> Result<bool, Fail>
    requires { FitsFact fact.now }
{
    let mut out = Bytes::new(alloc);
    fact.encode(&mut out)?;
    Ok(out.items() == bytes)
}

/// Whether the bytes are a fact of this kind, which is written so.
fn is_fact(alloc: Global, bytes: &[u8], place: usize) -> Result<bool, Fail> {
    let Some(fact) = Fact::decode(alloc, bytes)? else {
        return Err("a fact".into());
    };
    Ok(place_of(&fact) == place && is_fact_written(alloc, &fact, bytes)?)
}

fn is_no_fact(alloc: Global, bytes: &[u8]) -> Result<bool, Fail> {
    let fact = Fact::decode(alloc, bytes)?;
    Ok(fact.is_none())
}

#[test]
fn each_fact_is_read_and_written(rt: HostRuntime) -> Result<(), Fail> {
    for place in 0..4 {
        assert!(rt; is_fact(rt.alloc(), EACH_FACT[place], place)?);
    }
    assert!(rt; is_no_fact(rt.alloc(), FACTS)?);
    Ok(())
}

#[test]
fn a_record_is_made_of_its_facts(rt: HostRuntime) -> Result<(), Fail> {
    let Some(record) = Record::decode(rt.alloc(), FACTS)? else {
        return Err("a record".into());
    };
    let again = Record::of(record.into_facts());
    assert!(rt; again.facts().len() == 4);
    Ok(())
}
