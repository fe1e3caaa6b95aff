// Bookings with their nested calls, step by step, and steps that are refused on the way.
ghost use Rattle.std.specs.Prelude.{IsTrue};
ghost use Rattle.one_server.specs.Steps.{IsNamed};

use aeg_base::limits::{CLIENTS, LAST_SEQ};
use aeg_base::{Bytes, CallNo, ReqId, Tier};
use one_server::{Hist, OneServer, StepErr, Told};
use std::alloc::Global;
use std::process::Abort;
use std::test::Fail;

/// What a step tells.
#[derive(Clone, Copy, Debug, PartialEq)]
enum Telling<'a> {
    Reply(ReqId, &'a [u8]),
    Call(Tier, CallNo, &'a [u8]),
    Answer(Tier, CallNo, u8),
}

/// A step, the text of its request, and what it tells.
type Step = (Hist, &'static str, Telling<'static>);

const OPENING: ReqId = ReqId { client: 1, seq: 1 };

const BOOKING: ReqId = ReqId { client: 1, seq: 2 };

const LOOK: ReqId = ReqId { client: 1, seq: 3 };

const OF_ANOTHER_CLIENT: ReqId = ReqId { client: 2, seq: 1 };

/// A trip is opened and booked: its seats are reserved, and then it is paid.
const A_BOOKING: &[Step] = &[
    (
        Hist::Start(OPENING, 0),
        "open 1 5 10 0",
        Telling::Reply(OPENING, b"opened 1"),
    ),
    (
        Hist::Start(BOOKING, 1),
        "book 1 2",
        Telling::Call(Tier::Inv, 1, b"reserve 1 2"),
    ),
    (
        Hist::Serve(Tier::Inv, 1),
        "",
        Telling::Answer(Tier::Inv, 1, 0),
    ),
    (
        Hist::Resume(BOOKING, 1),
        "",
        Telling::Call(Tier::Pay, 1, b"charge 1 20"),
    ),
    (
        Hist::Serve(Tier::Pay, 1),
        "",
        Telling::Answer(Tier::Pay, 1, 0),
    ),
    (
        Hist::Resume(BOOKING, 0),
        "",
        Telling::Reply(BOOKING, b"booked 17"),
    ),
];

/// A trip costs more than a client may spend: its seats are released.
const A_DECLINED_PAYMENT: &[Step] = &[
    (
        Hist::Start(OPENING, 0),
        "open 1 5 10000 0",
        Telling::Reply(OPENING, b"opened 1"),
    ),
    (
        Hist::Start(BOOKING, 1),
        "book 1 2",
        Telling::Call(Tier::Inv, 1, b"reserve 1 2"),
    ),
    (
        Hist::Serve(Tier::Inv, 1),
        "",
        Telling::Answer(Tier::Inv, 1, 0),
    ),
    (
        Hist::Resume(BOOKING, 1),
        "",
        Telling::Call(Tier::Pay, 1, b"charge 1 20000"),
    ),
    (
        Hist::Serve(Tier::Pay, 1),
        "",
        Telling::Answer(Tier::Pay, 1, 2),
    ),
    (
        Hist::Resume(BOOKING, 2),
        "",
        Telling::Call(Tier::Inv, 2, b"release 1 2"),
    ),
];

/// How many steps of the booking were made, a step that is refused then, the text of its request, and the rule that
/// refuses it.
type Refusal = (usize, Hist, &'static str, u8);

const REFUSALS: &[Refusal] = &[
    // A client's first request must have number 1.
    (0, Hist::Start(BOOKING, 0), "look 5", 1),
    // A segment that replies can't be given a call number.
    (0, Hist::Start(OPENING, 5), "open 1 5 10 0", 7),
    // A call that nobody made can't be served.
    (0, Hist::Serve(Tier::Inv, 1), "", 4),
    // A request that was replied to has no second reply.
    (1, Hist::Resume(OPENING, 0), "", 5),
    // A segment that calls needs a number.
    (1, Hist::Start(BOOKING, 0), "book 1 2", 7),
    // A client has one request in progress.
    (2, Hist::Start(LOOK, 0), "look 1", 2),
    // A tier's numbers are given once.
    (2, Hist::Start(OF_ANOTHER_CLIENT, 1), "book 1 1", 8),
    // A request can't go on before its call was served.
    (2, Hist::Resume(BOOKING, 1), "", 6),
    // A call is served once.
    (3, Hist::Serve(Tier::Inv, 1), "", 4),
];

/// Whether the request's client and number are ones that there are.
fn is_named(hist: &Hist) -> bool
    ensures { IsTrue result → IsNamed hist.now }
{
    match *hist {
        Hist::Serve(_, _) => true,
        Hist::Start(who, _) | Hist::Resume(who, _) => {
            (1..=CLIENTS).contains(&who.client) && (1..=LAST_SEQ).contains(&who.seq)
        }
    }
}

/// Makes a step.
fn make(
    rt: &impl Abort,
    alloc: Global,
    server: &mut OneServer,
    hist: &Hist,
    text: &str,
) -> Result<Told, StepErr> {
    assert!(rt; is_named(hist), "{hist:?}");
    let body = Bytes::of(String::from_str(alloc, text)?.into_bytes());
    server.step(hist, &body)
}

fn telling_of(told: &Told) -> Telling<'_> {
    match told {
        Told::Replied(who, text) => Telling::Reply(*who, text.items()),
        Told::Called(tier, number, text) => Telling::Call(*tier, *number, text.items()),
        Told::Answered(tier, number, code) => Telling::Answer(*tier, *number, *code),
    }
}

/// Makes a step, which tells what it should.
fn tells(rt: &impl Abort, alloc: Global, server: &mut OneServer, step: &Step) -> Result<(), Fail> {
    let (hist, text, told) = step;
    let made = make(rt, alloc, server, hist, text)?;
    assert_eq!(rt; telling_of(&made), *told, "{hist:?}");
    Ok(())
}

/// A new server that has made these steps.
fn after(rt: &impl Abort, alloc: Global, steps: &[Step]) -> Result<OneServer, Fail> {
    let mut server = OneServer::new(alloc);
    for step in steps {
        tells(rt, alloc, &mut server, step)?;
    }
    Ok(server)
}

fn is_reply(rt: &impl Abort, told: &(ReqId, Bytes), reply: &(ReqId, &[u8])) {
    assert_eq!(rt; (told.0, told.1.items()), *reply);
}

/// Checks the server's replies.
fn has_replied(rt: &impl Abort, server: &OneServer, replies: &[(ReqId, &[u8])]) {
    let told = server.replies();
    assert_eq!(rt; told.len(), replies.len());
    for (told, reply) in told.iter().zip(replies) {
        is_reply(rt, told, reply);
    }
}

fn is_call(rt: &impl Abort, told: &(Tier, CallNo, Bytes), call: &(Tier, CallNo, &[u8])) {
    assert_eq!(rt; (told.0, told.1, told.2.items()), *call);
}

/// Checks the server's nested calls.
fn has_called(rt: &impl Abort, server: &OneServer, calls: &[(Tier, CallNo, &[u8])]) {
    let told = server.calls();
    assert_eq!(rt; told.len(), calls.len());
    for (told, call) in told.iter().zip(calls) {
        is_call(rt, told, call);
    }
}

#[test]
fn a_booking_calls_inventory_and_payment(rt: HostRuntime) -> Result<(), Fail> {
    let server = after(&rt, rt.alloc(), A_BOOKING)?;
    has_replied(
        &rt,
        &server,
        &[(OPENING, b"opened 1"), (BOOKING, b"booked 17")],
    );
    has_called(
        &rt,
        &server,
        &[
            (Tier::Inv, 1, b"reserve 1 2"),
            (Tier::Pay, 1, b"charge 1 20"),
        ],
    );
    Ok(())
}

#[test]
fn a_declined_payment_releases_the_seats(rt: HostRuntime) -> Result<(), Fail> {
    let server = after(&rt, rt.alloc(), A_DECLINED_PAYMENT)?;
    has_replied(&rt, &server, &[(OPENING, b"opened 1")]);
    has_called(
        &rt,
        &server,
        &[
            (Tier::Inv, 1, b"reserve 1 2"),
            (Tier::Pay, 1, b"charge 1 20000"),
            (Tier::Inv, 2, b"release 1 2"),
        ],
    );
    Ok(())
}

fn is_refused(rt: &impl Abort, alloc: Global, refusal: &Refusal) -> Result<(), Fail> {
    let (count, hist, text, row) = *refusal;
    if count > A_BOOKING.len() {
        return Err("the booking has fewer steps".into());
    }
    let mut server = after(rt, alloc, &A_BOOKING[..count])?;
    let made = make(rt, alloc, &mut server, &hist, text);
    assert_eq!(rt; made.err(), Some(StepErr::Illegal { row }), "{hist:?}");
    Ok(())
}

#[test]
fn steps_that_break_a_rule_are_refused(rt: HostRuntime) -> Result<(), Fail> {
    for refusal in REFUSALS {
        is_refused(&rt, rt.alloc(), refusal)?;
    }
    Ok(())
}
