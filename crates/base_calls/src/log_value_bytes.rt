// Values and tokens, as they stand in frames and journals.
ghost use Rattle.log_values.specs.Outcomes.{FitsOutcome};
ghost use Rattle.log_values.specs.Values.{FitsAny, FitsBack, FitsMid};

use aeg_base::{Bytes, Key, Value};
use log_values::{AnyValue, BackValue, MidValue, Token, Verdict, encode_outcome, read_outcome};
use std::alloc::Global;
use std::test::*;
use svc_api::Outcome;

/// What a job leaves that opens trip 1 with 5 seats at a price of 10, and its reply.
const OPENED: &[u8] = b"\x00\x02\x00\x00\x00\x00\x01\x00\x00\x00\x00\x00\x00\x00\x05\
    \x01\x00\x00\x00\x01\x00\x00\x00\x00\x00\x00\x00\x0a\x01\x00\x08opened 1";

const OPENED_PAIRS: [(Key, u64); 2] = [(Key { class: 0, id: 1 }, 5), (Key { class: 1, id: 1 }, 10)];

/// Values of each kind: those of the middle log, and then those of a backend's.
const VALUES: [&[u8]; 7] = [
    b"\x01\x00",
    b"\x01\x01\x01\x00\x00\x00\x01\x0dopen 1 5 10 0",
    b"\x02\x00\x00\x01\x00\x08opened 1\x01\x00",
    b"\x02\x00\x00\x02\x00\x00\x01\x01\x01\x0breserve 1 2\x02\x01\x00",
    b"\x03",
    b"\x04\x00\x00\x00\x01\x0breserve 1 2",
    b"\x05\x00\x00\x00\x02",
];

/// What begins with a lead byte of a value and is none: too many entries, a client 17, a request 0, a text that is cut
/// short, a class 8, keys that fall, a stage 0, an order that repeats, an order that is too short, a byte left over, a
/// call 0, a floor 1, and an unknown lead byte.
const NO_VALUES: [&[u8]; 13] = [
    b"\x01\x09",
    b"\x01\x01\x11\x00\x00\x00\x01\x00",
    b"\x01\x01\x01\x00\x00\x00\x00\x00",
    b"\x01\x01\x01\x00\x00\x00\x01\x02h",
    b"\x02\x00\x01\x08\x00\x00\x00\x01\x00\x00\x00\x00\x00\x00\x00\x05\x00\x00",
    b"\x02\x00\x02\x00\x00\x00\x00\x02\x00\x00\x00\x00\x00\x00\x00\x05\
        \x00\x00\x00\x00\x01\x00\x00\x00\x00\x00\x00\x00\x05\x00\x00",
    b"\x02\x00\x00\x01\x01\x01\x00\x00\x01\x00",
    b"\x02\x00\x00\x02\x00\x00\x00\x00\x02\x01\x01",
    b"\x02\x00\x00\x02\x00\x00\x00\x00\x01\x00",
    b"\x03\x00",
    b"\x04\x00\x00\x00\x00\x00",
    b"\x05\x00\x00\x00\x01",
    b"\x06",
];

/// Whether the value is written as these bytes.
fn is_written(alloc: Global, value: &AnyValue, bytes: &[u8]) -> Result<bool, Fail>
    requires { FitsAny value.now }
{
    let mut out = Bytes::new(alloc);
    value.encode(&mut out)?;
    Ok(out.items() == bytes)
}

fn is_copied(value: &AnyValue) -> Result<bool, Fail> {
    let copy = value.copy()?;
    Ok(value.same(&copy))
}

/// Whether the value is to settle below 3.
fn settles(value: &AnyValue) -> bool {
    value.same(&AnyValue::Back(BackValue::Settle { floor: 3 }))
}

/// Whether the bytes are a value, which is written so and copied, and is not to settle below 3.
fn is_value(alloc: Global, bytes: &[u8]) -> Result<bool, Fail> {
    let Some(value) = AnyValue::decode(alloc, bytes)? else {
        return Err("a value".into());
    };
    Ok(is_written(alloc, &value, bytes)? && is_copied(&value)? && !settles(&value))
}

#[test]
fn each_value_is_read_written_and_copied(rt: HostRuntime) -> Result<(), Fail> {
    for bytes in &VALUES {
        assert!(rt; is_value(rt.alloc(), bytes)?);
    }
    Ok(())
}

fn is_no_value(alloc: Global, bytes: &[u8]) -> Result<bool, Fail> {
    let value = AnyValue::decode(alloc, bytes)?;
    Ok(value.is_none())
}

#[test]
fn other_bytes_are_no_value(rt: HostRuntime) -> Result<(), Fail> {
    for bytes in &NO_VALUES {
        assert!(rt; is_no_value(rt.alloc(), bytes)?);
    }
    Ok(())
}

/// Whether the outcome has these pairs, and so many ends.
fn has(outcome: &Outcome, pairs: &[(Key, u64)], ends: usize) -> bool {
    outcome.pairs.items() == pairs && outcome.ends.items().len() == ends
}

/// Whether it is the outcome's token.
fn is_spelt(alloc: Global, outcome: &Outcome, token: &Token) -> Result<bool, Fail>
    requires { FitsOutcome outcome.now }
{
    let again = encode_outcome(alloc, outcome)?;
    Ok(again.same(token))
}

/// Whether the token tells the pairs and so many ends, and is the outcome's token.
fn tells(alloc: Global, token: &Token, pairs: &[(Key, u64)], ends: usize) -> Result<bool, Fail> {
    let Some(outcome) = read_outcome(alloc, token)? else {
        return Err("an outcome".into());
    };
    Ok(has(&outcome, pairs, ends) && is_spelt(alloc, &outcome, token)?)
}

#[test]
fn a_token_tells_the_outcome(rt: HostRuntime) -> Result<(), Fail> {
    let token = Token::of(Bytes::of(Vec::from_slice(rt.alloc(), OPENED)?));
    assert!(rt; tells(rt.alloc(), &token, &OPENED_PAIRS, 1)?);
    Ok(())
}

/// Whether the value of a middle log is written as these bytes.
fn is_mid_written(alloc: Global, value: &MidValue, bytes: &[u8]) -> Result<bool, Fail>
    requires { FitsMid value.now }
{
    let mut out = Bytes::new(alloc);
    value.encode(&mut out)?;
    Ok(out.items() == bytes)
}

fn is_mid_copied(value: &MidValue) -> Result<bool, Fail> {
    let copy = value.copy()?;
    Ok(value.same(&copy))
}

/// Whether the bytes are a value of a middle log, which is written so and copied.
fn is_mid(alloc: Global, bytes: &[u8]) -> Result<bool, Fail> {
    let Some(value) = MidValue::decode(alloc, bytes)? else {
        return Err("a value".into());
    };
    Ok(is_mid_copied(&value)? && is_mid_written(alloc, &value, bytes)?)
}

fn is_no_mid(alloc: Global, bytes: &[u8]) -> Result<bool, Fail> {
    let value = MidValue::decode(alloc, bytes)?;
    Ok(value.is_none())
}

#[test]
fn each_value_of_a_middle_log_is_read_and_written(rt: HostRuntime) -> Result<(), Fail> {
    for bytes in &VALUES[..5] {
        assert!(rt; is_mid(rt.alloc(), bytes)?);
    }
    for bytes in &VALUES[5..] {
        assert!(rt; is_no_mid(rt.alloc(), bytes)?);
    }
    Ok(())
}

/// Whether the value of a backend's log is written as these bytes.
fn is_back_written(alloc: Global, value: &BackValue, bytes: &[u8]) -> Result<bool, Fail>
    requires { FitsBack value.now }
{
    let mut out = Bytes::new(alloc);
    value.encode(&mut out)?;
    Ok(out.items() == bytes)
}

fn is_back_copied(value: &BackValue) -> Result<bool, Fail> {
    let copy = value.copy()?;
    Ok(value.same(&copy))
}

/// Whether the bytes are a value of a backend's log, which is written so and copied.
fn is_back(alloc: Global, bytes: &[u8]) -> Result<bool, Fail> {
    let Some(value) = BackValue::decode(alloc, bytes)? else {
        return Err("a value".into());
    };
    Ok(is_back_copied(&value)? && is_back_written(alloc, &value, bytes)?)
}

fn is_no_back(alloc: Global, bytes: &[u8]) -> Result<bool, Fail> {
    let value = BackValue::decode(alloc, bytes)?;
    Ok(value.is_none())
}

#[test]
fn each_value_of_a_backend_log_is_read_and_written(rt: HostRuntime) -> Result<(), Fail> {
    for bytes in &VALUES[5..] {
        assert!(rt; is_back(rt.alloc(), bytes)?);
    }
    for bytes in &VALUES[..5] {
        assert!(rt; is_no_back(rt.alloc(), bytes)?);
    }
    Ok(())
}

/// How many entries a batch has, and how many numbers the order of a Commit.
fn counts_of(value: &MidValue) -> (usize, usize) {
    match value {
        MidValue::Batch(entries) => (entries.items().len(), 0),
        MidValue::Verdict(Verdict::Commit { order, .. }) => (0, order.items().len()),
        MidValue::Verdict(Verdict::Serial) => (0, 0),
    }
}

/// Those of the value with these bytes.
fn counts(alloc: Global, bytes: &[u8]) -> Result<(usize, usize), Fail> {
    let Some(value) = MidValue::decode(alloc, bytes)? else {
        return Err("a value".into());
    };
    Ok(counts_of(&value))
}

#[test]
fn a_value_has_its_parts(rt: HostRuntime) -> Result<(), Fail> {
    let wanted = [(0, 0), (1, 0), (0, 1), (0, 2), (0, 0)];
    for i in 0..5 {
        assert!(rt; counts(rt.alloc(), VALUES[i])? == wanted[i]);
    }
    Ok(())
}
