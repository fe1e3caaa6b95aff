// What a turn of a log writes down, sends and answers.
ghost use Rattle.std.specs.Prelude.{◌≡◌, ◌+◌, ◌<◌, ◌≤◌, ◌++◌, length, map, take, OnOk, IfOk};
ghost use Rattle.std.specs.Bool.{OnTrue};
ghost use Rattle.std.specs.List.{AllByRecursion};
ghost use Rattle.log_values.specs.Records.{FitsFact};
ghost use Rattle.frames.specs.LogMessages.{FitsLog};
ghost use Rattle.tier_model.specs.Moves.{as_fact, log_packets, log_cause, log_answer, offer_cause};
ghost use Rattle.world.specs.Parts.{sealed};
ghost use Rattle.world.specs.LogNodes.{HasSent, IsFrameAt, needs_own};

use aeg_base::{Bytes, End, Memory, NodeId, Seq, Value};
use frames::{Outbox, encode_log};
use log_values::format::LAST_INDEX;
use log_values::{AnyValue, Fact};
use paxos_log::{Fact as LogFact, LogIdle, Offering, PaxMsg};
use std::alloc::Global;
use tier_model::{Idle, Turn};

/// A fact of the log, as a journal has it.
fn as_fact(fact: LogFact<AnyValue>) -> Fact
    ensures { result ≡ as_fact fact }
{
    match fact {
        LogFact::Promised(b) => Fact::Promised(b),
        LogFact::Accepted(p, b, v) => Fact::Accepted(p, b, v),
        LogFact::Learned(p, v) => Fact::Learned(p, v),
    }
}

/// The facts of a turn, in order.
pub fn facts_of(alloc: Global, facts: Seq<LogFact<AnyValue>>) -> Result<Vec<Fact>, Memory>
    ensures { IfOk result (λ list. list.items ≡ map as_fact facts) }
{
    let facts = facts.into_vec();
    let mut list = Vec::with_capacity(alloc, facts.len())?;
    for fact in facts {
        list.push(as_fact(fact))?;
    }
    Ok(list)
}

/// Whether the second message is the first one again, as when all are told the same.
fn is_again(first: &PaxMsg<AnyValue>, second: &PaxMsg<AnyValue>) -> bool
    ensures { OnTrue result (first.now ≡ second.now) }
{
    match first {
        PaxMsg::Prepare(b, p) => match second {
            PaxMsg::Prepare(ballot, pos) => b == ballot && p == pos,
            _ => false,
        },
        PaxMsg::Accepted(b, p, v) => match second {
            PaxMsg::Accepted(ballot, pos, value) => b == ballot && p == pos && v.same(value),
            _ => false,
        },
        _ => false,
    }
}

/// The frame of a message of the node's log. A message that is the one before again isn't written anew.
fn frame_at(
    alloc: Global,
    from: NodeId,
    sends: &[(u8, PaxMsg<AnyValue>)],
    i: usize,
    sent: &[(End, Bytes)],
) -> Result<Bytes, Memory>
    requires node { from.index ≤ LAST_INDEX }
    requires fit { AllByRecursion (λ send. FitsLog from.tier send.1) sends.now }
    requires within { i < length sends.now }
    requires before { HasSent from.tier from.index (take i sends.now) sent.now }
    ensures { IfOk result (λ bytes. IsFrameAt from.tier from.index sends.now i bytes) }
{
    let message = &sends[i].1;
    if i > 0 && is_again(&sends[i - 1].1, message) {
        if let Some((_, bytes)) = sent.last() {
            return bytes.copy();
        }
    }
    encode_log(alloc, from, message)
}

/// Adds the messages of the node's log as packets, in order.
pub fn send_all(
    alloc: Global,
    from: NodeId,
    sends: Seq<(u8, PaxMsg<AnyValue>)>,
    out: &mut Outbox,
) -> Result<(), Memory>
    requires node { from.index ≤ LAST_INDEX }
    requires fit { AllByRecursion (λ send. FitsLog from.tier send.1) sends }
    ensures { OnOk result (out.new ≡ out.old ++ map sealed (log_packets from.tier from.index sends)) }
{
    let list = sends.items();
    for i in 0..list.len() {
        let bytes = frame_at(alloc, from, list, i, out.items())?;
        let to = list[i].0;
        let receiver = NodeId {
            tier: from.tier,
            index: to,
        };
        out.push(End::Node(receiver), bytes)?;
    }
    Ok(())
}

fn cause_of(idle: LogIdle) -> Idle
    ensures { result ≡ log_cause idle }
{
    match idle {
        LogIdle::BallotSpent => Idle::BallotSpent,
        LogIdle::Stale { promised } => Idle::Stale { promised },
        LogIdle::Behind { pos } => Idle::Behind { pos },
        LogIdle::Nothing => Idle::Nothing,
    }
}

/// What a turn of the log comes to.
pub fn answer_of(idle: Option<LogIdle>) -> Turn
    ensures { result ≡ log_answer idle }
{
    match idle {
        None => Turn::Did,
        Some(idle) => Turn::Idle(cause_of(idle)),
    }
}

/// What stands in the way of an offer besides the value itself.
pub fn offer_cause(wants: Offering) -> Option<Idle>
    ensures { result ≡ offer_cause wants }
{
    match wants {
        Offering::NotLeader => Some(Idle::NotLeader),
        Offering::NoPromises { have } => Some(Idle::NoPromises { have }),
        Offering::InFlight { pos } => Some(Idle::InFlight { pos }),
        Offering::LogFull => Some(Idle::LogFull),
        Offering::Taken => None,
        Offering::Free { .. } => None,
    }
}

/// Whether a leader may offer a value of its own, since none was reported.
pub fn needs_own(wants: Offering) -> bool
    ensures { result ≡ needs_own wants }
{
    matches!(wants, Offering::Free { .. })
}
