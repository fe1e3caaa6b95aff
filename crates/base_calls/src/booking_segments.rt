// The actions of each segment, and the rules that texts break.
use crate::texts::bytes_of;
use aeg_base::{Bytes, Key, LockSet, ReqId, Tier};
use booking::{BadRequest, BookProg, Booking, read_request};
use std::alloc::Global;
use std::process::Abort;
use std::test::Fail;
use svc_api::{Action, Program, Service};

/// A request of client 1 with the number 2, so that its booking is 17; the stage, the answer of its call, and what its
/// reads are told. Then its actions; a call stands with the stage that it names.
type Row = (&'static str, u8, Option<u64>, &'static [u64], &'static str);

const ROWS: [Row; 24] = [
    (
        "open 1 5 10 0",
        0,
        None,
        &[0],
        "get 0 1; put 0 1 5; put 1 1 10; put 2 1 0; reply opened 1",
    ),
    (
        "open 1 5 10 0",
        0,
        None,
        &[5],
        "get 0 1; reply refused 1 AlreadyOpen",
    ),
    (
        "open 1 5 10 1",
        0,
        None,
        &[0],
        "get 0 1; reply refused 2 BadTrip",
    ),
    (
        "book 1 2",
        0,
        None,
        &[0, 0, 0, 0],
        "get 0 1; get 3 1; get 2 1; get 4 1; reply refused 3 NoTrip",
    ),
    (
        "book 1 2",
        0,
        None,
        &[5, 4, 0, 0],
        "get 0 1; get 3 1; get 2 1; get 4 1; reply refused 4 Full",
    ),
    (
        "book 1 2",
        0,
        None,
        &[5, 0, 7, 0, 1, 0],
        "get 0 1; get 3 1; get 2 1; get 4 1; get 0 7; get 3 7; reply refused 5 LinkFull",
    ),
    (
        "book 1 2",
        0,
        None,
        &[5, 0, 0, 4],
        "get 0 1; get 3 1; get 2 1; get 4 1; reply refused 6 TooMany",
    ),
    (
        "book 1 2",
        0,
        None,
        &[5, 3, 0, 0],
        "get 0 1; get 3 1; get 2 1; get 4 1; put 3 1 5; put 4 1 1; put 5 17 1; put 6 17 1; put 7 17 2; call inv 1 reserve 1 2",
    ),
    (
        "book 1 2",
        0,
        None,
        &[5, 1, 7, 3, 9, 2],
        "get 0 1; get 3 1; get 2 1; get 4 1; get 0 7; get 3 7; put 3 1 3; put 3 7 4; put 4 1 4; put 5 17 1; put 6 17 1; put 7 17 2; call inv 1 reserve 1 2",
    ),
    (
        "book 1 2",
        1,
        Some(0),
        &[10],
        "get 1 1; call pay 2 charge 1 20",
    ),
    (
        "book 1 2",
        1,
        Some(2),
        &[3, 7, 4, 9],
        "get 3 1; get 2 1; get 4 1; get 3 7; put 3 1 1; put 3 7 7; put 4 1 3; put 5 17 0; put 6 17 0; put 7 17 0; reply refused 7 NoStock",
    ),
    ("book 1 2", 2, Some(0), &[], "put 5 17 2; reply booked 17"),
    (
        "book 1 2",
        2,
        Some(2),
        &[3, 0, 1],
        "get 3 1; get 2 1; get 4 1; put 3 1 1; put 4 1 0; call inv 3 release 1 2",
    ),
    (
        "book 1 2",
        3,
        Some(0),
        &[],
        "put 5 17 0; put 6 17 0; put 7 17 0; reply refused 8 Declined",
    ),
    ("book 1 2", 4, None, &[], ""),
    (
        "cancel 17",
        0,
        None,
        &[0, 0, 0],
        "get 5 17; get 6 17; get 7 17; reply refused 9 NoBooking",
    ),
    (
        "cancel 18",
        0,
        None,
        &[2, 1, 2],
        "get 5 18; get 6 18; get 7 18; reply refused 10 NotYours",
    ),
    (
        "cancel 17",
        0,
        None,
        &[1, 1, 2],
        "get 5 17; get 6 17; get 7 17; reply refused 11 NotBooked",
    ),
    (
        "cancel 17",
        0,
        None,
        &[2, 1, 2, 10],
        "get 5 17; get 6 17; get 7 17; get 1 1; put 5 17 3; call pay 1 refund 1 20",
    ),
    (
        "cancel 17",
        1,
        Some(0),
        &[1, 2],
        "get 6 17; get 7 17; call inv 2 release 1 2",
    ),
    (
        "cancel 17",
        2,
        Some(0),
        &[1, 2, 0, 3, 1],
        "get 6 17; get 7 17; get 2 1; get 3 1; get 4 1; put 3 1 1; put 4 1 0; put 5 17 0; put 6 17 0; put 7 17 0; reply cancelled 17",
    ),
    (
        "look 17",
        0,
        None,
        &[2, 1, 2],
        "get 5 17; get 6 17; get 7 17; reply status 17 2 1 2",
    ),
    (
        "look 18",
        0,
        None,
        &[2, 1, 2],
        "get 5 18; get 6 18; get 7 18; reply refused 10 NotYours",
    ),
    ("look", 0, None, &[], ""),
];

const BAD: [(&str, u8); 9] = [
    ("", 1),
    ("view 1", 1),
    ("open 1 5 10", 2),
    ("look 1 2", 2),
    ("cancel", 2),
    ("book 1  2", 2),
    ("book 0 1", 3),
    ("book 1 101", 3),
    ("look 017", 3),
];

fn tell_get(alloc: Global, told: &mut Bytes, key: &Key) -> Result<(), Fail> {
    let text = format!(in alloc; "get {} {}; ", key.class, key.id)?;
    told.extend(text.as_bytes())?;
    Ok(())
}

fn tell_put(alloc: Global, told: &mut Bytes, key: &Key, value: u64) -> Result<(), Fail> {
    let text = format!(in alloc; "put {} {} {value}; ", key.class, key.id)?;
    told.extend(text.as_bytes())?;
    Ok(())
}

fn tell_call(
    alloc: Global,
    told: &mut Bytes,
    name: &str,
    stage: u8,
    body: &Bytes,
) -> Result<(), Fail> {
    let text = format!(in alloc; "call {name} {stage} ")?;
    told.extend(text.as_bytes())?;
    told.extend(body.items())?;
    Ok(())
}

fn tell_reply(told: &mut Bytes, body: &Bytes) -> Result<(), Fail> {
    told.extend("reply ".as_bytes())?;
    told.extend(body.items())?;
    Ok(())
}

/// Tells the action, and whether the segment ends with it.
fn tell(alloc: Global, told: &mut Bytes, action: &Action, stage: u8) -> Result<bool, Fail> {
    match action {
        Action::Get(key) => {
            tell_get(alloc, told, key)?;
            Ok(false)
        }
        Action::Put(key, value) => {
            tell_put(alloc, told, key, *value)?;
            Ok(false)
        }
        Action::Call(tier, body) => {
            let name = if *tier == Tier::Inv { "inv" } else { "pay" };
            tell_call(alloc, told, name, stage, body)?;
            Ok(true)
        }
        Action::Reply(body) => {
            tell_reply(told, body)?;
            Ok(true)
        }
    }
}

/// Does the next action and tells it; whether it reads, or none where the segment ends with it.
fn step(
    alloc: Global,
    told: &mut Bytes,
    prog: &mut BookProg,
    last: Option<u64>,
) -> Result<Option<bool>, Fail> {
    let action = prog.next(last)?;
    if tell(alloc, told, &action, prog.stage())? {
        return Ok(None);
    }
    Ok(Some(matches!(action, Action::Get(_))))
}

/// Tells the program's actions, of which there are fewer than 32, where its reads give these values.
fn tell_all(
    alloc: Global,
    told: &mut Bytes,
    prog: &mut BookProg,
    answer: Option<u64>,
    reads: &[u64],
) -> Result<(), Fail> {
    let mut last = answer;
    let mut reads = reads.iter();
    for _ in 0..32u8 {
        let Some(is_read) = step(alloc, told, prog, last)? else {
            return Ok(());
        };
        last = if is_read { reads.next().copied() } else { None };
    }
    Ok(())
}

/// The program of the text at the stage, where it is a request that goes on there.
fn begun(alloc: Global, text: &str, stage: u8) -> Result<Option<BookProg>, Fail> {
    let who = ReqId { client: 1, seq: 2 };
    let body = bytes_of(alloc, text)?;
    let prog = Booking::new(alloc).begin(who, &body, stage)?;
    Ok(prog)
}

fn actions(alloc: Global, row: &Row) -> Result<Bytes, Fail> {
    let (text, stage, answer, reads, _) = *row;
    let mut told = Bytes::new(alloc);
    if let Some(mut prog) = begun(alloc, text, stage)? {
        tell_all(alloc, &mut told, &mut prog, answer, reads)?;
    }
    Ok(told)
}

fn has_actions(alloc: Global, row: &Row) -> Result<bool, Fail> {
    let told = actions(alloc, row)?;
    Ok(told.items() == row.4.as_bytes())
}

#[test]
fn actions_of_segments(rt: HostRuntime) -> Result<(), Fail> {
    for row in &ROWS {
        assert!(rt; has_actions(rt.alloc(), row)?, "{} at {}", row.0, row.1);
    }
    Ok(())
}

fn is_bad(rt: &impl Abort, text: &str, row: u8) {
    assert_eq!(rt;
        read_request(text.as_bytes()),
        Err(BadRequest { row }),
        "{text}"
    );
}

#[test]
fn texts_that_are_no_requests(rt: HostRuntime) {
    for (text, row) in &BAD {
        is_bad(&rt, text, *row);
    }
}

/// Two requests of the client, and whether their first segments declare a lock of the same key.
const LOCKING: [(&str, &str, bool); 5] = [
    ("book 1 2", "open 1 5 10 0", true),
    ("book 1 2", "look 17", true),
    ("book 1 2", "cancel 18", true),
    ("book 1 2", "open 2 5 10 0", false),
    ("book 1 2", "look 18", false),
];

/// The locks that the first segment of a request declares.
fn locks_of(alloc: Global, text: &str) -> Result<LockSet, Fail> {
    match begun(alloc, text, 0)? {
        Some(prog) => Ok(prog.declared()),
        None => Err("no request".into()),
    }
}

#[test]
fn locks_of_segments(rt: HostRuntime) -> Result<(), Fail> {
    for (one, other, share) in &LOCKING {
        let shared = locks_of(rt.alloc(), one)?.meets(&locks_of(rt.alloc(), other)?);
        assert!(rt; shared == *share, "{one} and {other}");
    }
    Ok(())
}
