// Segments of bookings, each run whole on a store.
use crate::texts::bytes_of;
use aeg_base::{Cells, Key, ReqId, Tier};
use booking::{BookProg, Booking};
use kv_store::Store;
use std::alloc::Global;
use std::test::Fail;
use svc_api::{Ending, Service, run_segment};

const CAP: Key = Key { class: 0, id: 1 };

const PRICE: Key = Key { class: 1, id: 1 };

const COUNT: Key = Key { class: 3, id: 1 };

const LIVE: Key = Key { class: 4, id: 1 };

const STATUS: Key = Key { class: 5, id: 17 };

const TRIP: Key = Key { class: 6, id: 17 };

const QTY: Key = Key { class: 7, id: 17 };

/// What a segment ends with.
#[derive(Clone, Copy, PartialEq)]
enum End<'a> {
    Reply(&'a [u8]),
    Call(Tier, u8, &'a [u8]),
}

type Pairs = &'static [(Key, u64)];

/// A stage of `book 1 2` as the second request of client 1, so that its booking is 17; the answer of its call, its end,
/// and the pairs that it leaves.
type Segment = (u8, Option<u64>, End<'static>, Pairs);

const SEGMENTS: [Segment; 3] = [
    (
        0,
        None,
        End::Call(Tier::Inv, 1, b"reserve 1 2"),
        &[
            (CAP, 5),
            (PRICE, 10),
            (COUNT, 2),
            (LIVE, 1),
            (STATUS, 1),
            (TRIP, 1),
            (QTY, 2),
        ],
    ),
    (
        1,
        Some(0),
        End::Call(Tier::Pay, 2, b"charge 1 20"),
        &[
            (CAP, 5),
            (PRICE, 10),
            (COUNT, 2),
            (LIVE, 1),
            (STATUS, 1),
            (TRIP, 1),
            (QTY, 2),
        ],
    ),
    (
        2,
        Some(0),
        End::Reply(b"booked 17"),
        &[
            (CAP, 5),
            (PRICE, 10),
            (COUNT, 2),
            (LIVE, 1),
            (STATUS, 2),
            (TRIP, 1),
            (QTY, 2),
        ],
    ),
];

/// A store with trip 1, which has 5 seats at 10 each.
fn opened(alloc: Global) -> Result<Store, Fail> {
    let mut store = Store::new(alloc);
    store.put(CAP, 5)?;
    store.put(PRICE, 10)?;
    Ok(store)
}

/// The program of the booking at the stage.
fn begun(alloc: Global, stage: u8) -> Result<BookProg, Fail> {
    let who = ReqId { client: 1, seq: 2 };
    let body = bytes_of(alloc, "book 1 2")?;
    match Booking::new(alloc).begin(who, &body, stage)? {
        Some(prog) => Ok(prog),
        None => Err("a booking has this stage".into()),
    }
}

/// Runs a stage of the booking on the store.
fn run(alloc: Global, store: &mut Store, stage: u8, answer: Option<u64>) -> Result<Ending, Fail> {
    let mut prog = begun(alloc, stage)?;
    Ok(run_segment(&mut prog, answer, store)?)
}

fn end_of(ending: &Ending) -> End<'_> {
    match ending {
        Ending::Reply(text) => End::Reply(text.items()),
        Ending::Call { tier, stage, body } => End::Call(*tier, *stage, body.items()),
    }
}

fn has_pairs(store: &Store, pairs: &[(Key, u64)]) -> Result<bool, Fail> {
    let all = store.pairs()?;
    Ok(all.as_slice() == pairs)
}

/// Runs a segment; whether it has its end, and leaves its pairs.
fn runs(alloc: Global, store: &mut Store, segment: &Segment) -> Result<bool, Fail> {
    let (stage, answer, end, pairs) = *segment;
    let ending = run(alloc, store, stage, answer)?;
    Ok(end_of(&ending) == end && has_pairs(store, pairs)?)
}

#[test]
fn a_booking_runs_on_a_store(rt: HostRuntime) -> Result<(), Fail> {
    let mut store = opened(rt.alloc())?;
    for segment in &SEGMENTS {
        assert!(rt;
            runs(rt.alloc(), &mut store, segment)?,
            "at stage {}",
            segment.0
        );
    }
    Ok(())
}
