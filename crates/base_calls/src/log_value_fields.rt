// The fields of values, and the parts that spellings are made of, each read from its bytes.
use aeg_base::{Ballot, Bytes, Tier};
use aeg_wire::Cursor;
use log_values::{
    Token, is_permutation, put_ballot, put_commit, take_backend, take_ballot, take_client,
    take_commit, take_floor, take_number, take_position, take_seq, take_stage, take_text,
    take_value, tier_byte,
};
use std::alloc::Global;
use std::process::Abort;
use std::test::*;

/// Pay, client 16, request 65,536, call 1, floor 2, position 4,095, stage 3, and ballot (1, 4).
const FIELDS: [u8; 22] = [
    2, 16, 0, 1, 0, 0, 0, 0, 0, 1, 0, 0, 0, 2, 0x0f, 0xff, 3, 0, 0, 0, 1, 4,
];

/// A token of no pairs and two replies without a text, with the order in which the second segment ended first.
const COMMIT: [u8; 10] = [0, 0, 2, 0, 0, 0, 0, 2, 1, 0];

#[test]
fn tiers_have_numbers(rt: HostRuntime) {
    assert_eq!(rt; tier_byte(Tier::Mid), 0);
    assert_eq!(rt; tier_byte(Tier::Inv), 1);
    assert_eq!(rt; tier_byte(Tier::Pay), 2);
}

/// Checks the fields of requests, calls and floors.
fn names_are_read(rt: &impl Abort, from: &mut Cursor<'_>) {
    assert_eq!(rt; take_backend(from), Some(Tier::Pay));
    assert_eq!(rt; take_client(from), Some(16));
    assert_eq!(rt; take_seq(from), Some(65_536));
    assert_eq!(rt; take_number(from), Some(1));
    assert_eq!(rt; take_floor(from), Some(2));
}

/// Checks the fields of a log.
fn places_are_read(rt: &impl Abort, from: &mut Cursor<'_>) {
    assert_eq!(rt; take_position(from), Some(4_095));
    assert_eq!(rt; take_stage(from), Some(3));
    assert_eq!(rt;
        take_ballot(from),
        Some(Ballot {
            counter: 1,
            node: 4
        })
    );
    assert!(rt; from.is_empty());
}

#[test]
fn fields_are_read_in_their_ranges(rt: HostRuntime) {
    let mut from = Cursor::new(&FIELDS);
    names_are_read(&rt, &mut from);
    places_are_read(&rt, &mut from);
}

#[test]
fn a_ballot_is_written(rt: HostRuntime) -> Result<(), Fail> {
    let mut out = Bytes::new(rt.alloc());
    put_ballot(
        &mut out,
        Ballot {
            counter: 1,
            node: 4,
        },
    )?;
    assert_eq!(rt; out.items(), &FIELDS[17..]);
    Ok(())
}

#[test]
fn a_text_and_a_value_are_read(rt: HostRuntime) -> Result<(), Fail> {
    let mut from = Cursor::new(b"\x02hi\x03!");
    let Ok(text) = take_text(rt.alloc(), &mut from) else {
        return Err("a text".into());
    };
    assert_eq!(rt; text.items(), b"hi".as_slice());
    assert!(rt; take_value(rt.alloc(), &mut from).is_ok());
    assert_eq!(rt; from.rest(), b"!".as_slice());
    Ok(())
}

#[test]
fn an_order_has_each_number_once(rt: HostRuntime) {
    assert!(rt; is_permutation(&[]));
    assert!(rt; is_permutation(&[2, 0, 1]));
    assert!(rt; !is_permutation(&[1, 1]));
    assert!(rt; !is_permutation(&[0, 2]));
}

/// Checks that a token and an order are written as these bytes.
fn is_commit(
    rt: &impl Abort,
    alloc: Global,
    token: &Token,
    order: &[u8],
    bytes: &[u8],
) -> Result<(), Fail> {
    if order.len() > 255 {
        return Err("an order that is too long".into());
    }
    let mut out = Bytes::new(alloc);
    put_commit(&mut out, token, order)?;
    assert_eq!(rt; out.items(), bytes);
    Ok(())
}

#[test]
fn a_commit_is_read_and_written(rt: HostRuntime) -> Result<(), Fail> {
    let mut from = Cursor::new(&COMMIT);
    let Ok((token, order)) = take_commit(rt.alloc(), &mut from) else {
        return Err("a commit".into());
    };
    assert!(rt; from.is_empty());
    assert_eq!(rt; token.bytes(), &COMMIT[..7]);
    assert_eq!(rt; order.items(), [1, 0].as_slice());
    is_commit(&rt, rt.alloc(), &token, order.items(), &COMMIT)
}
