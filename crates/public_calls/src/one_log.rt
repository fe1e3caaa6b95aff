// A node that is alone, a majority, and a restart.
ghost use Rattle.std.specs.Prelude.{◌≡◌, ◌+◌, ◌*◌, ◌<◌};
ghost use Rattle.paxos_log.specs.TierLog.{HasPlace, new_log};

use crate::marks::{FIRST, Mark, VALUE};
use aeg_base::{Ballot, Memory, Pos};
use paxos_log::{Fact, LogIdle, LogTurn, Offering, PaxMsg, TierLog};
use std::process::Abort;
use std::test::Fail;

const HIGHER: Ballot = Ballot {
    counter: 2,
    node: 1,
};

const PREPARE: PaxMsg<Mark> = PaxMsg::Prepare(FIRST, 0);

const ACCEPT: PaxMsg<Mark> = PaxMsg::Accept(FIRST, 0, VALUE);

const VOTE: PaxMsg<Mark> = PaxMsg::Accepted(FIRST, 0, VALUE);

/// What the leader of three sends first, and with its offer.
const PREPARES: &[(u8, PaxMsg<Mark>)] = &[(1, PREPARE), (2, PREPARE)];

const OFFERS: &[(u8, PaxMsg<Mark>)] = &[(1, ACCEPT), (2, ACCEPT), (0, VOTE), (1, VOTE), (2, VOTE)];

const PROMISES: &[(u8, PaxMsg<Mark>)] = &[(0, PaxMsg::Promise(FIRST, 0, None))];

/// What is written down with an acceptance, and when the value is learned.
const ACCEPTED: &[Fact<Mark>] = &[Fact::Accepted(0, FIRST, VALUE)];

const LEARNED: &[Fact<Mark>] = &[Fact::Learned(0, VALUE)];

fn writes(turn: &LogTurn<Mark>, facts: &[Fact<Mark>]) -> bool {
    turn.facts.items() == facts
}

fn sends(turn: &LogTurn<Mark>, packets: &[(u8, PaxMsg<Mark>)]) -> bool {
    turn.sends.items() == packets
}

/// What a message does.
fn told(log: &mut TierLog<Mark>, from: u8, msg: &PaxMsg<Mark>) -> Result<LogTurn<Mark>, Memory>
    requires sender { from < 2 * log.old.faults + 1 }
    requires place { HasPlace msg.now }
    ensures { log.new.faults ≡ log.old.faults }
{
    log.on_msg(from, msg)
}

/// Whether this is what a message makes the log send.
fn answers(
    log: &mut TierLog<Mark>,
    from: u8,
    msg: &PaxMsg<Mark>,
    packets: &[(u8, PaxMsg<Mark>)],
) -> Result<bool, Memory>
    requires sender { from < 2 * log.old.faults + 1 }
    requires place { HasPlace msg.now }
    ensures { log.new.faults ≡ log.old.faults }
{
    let turn = told(log, from, msg)?;
    Ok(sends(&turn, packets))
}

/// Whether this is why a message makes the log do nothing.
fn idles(
    log: &mut TierLog<Mark>,
    from: u8,
    msg: &PaxMsg<Mark>,
    why: LogIdle,
) -> Result<bool, Memory>
    requires sender { from < 2 * log.old.faults + 1 }
    requires place { HasPlace msg.now }
    ensures { log.new.faults ≡ log.old.faults }
{
    let turn = told(log, from, msg)?;
    Ok(turn.idle == Some(why))
}

/// Whether this is what an acceptance of the value makes the log learn and write down.
fn learns(
    log: &mut TierLog<Mark>,
    from: u8,
    learned: Option<Pos>,
    facts: &[Fact<Mark>],
) -> Result<bool, Memory>
    requires { from < 2 * log.old.faults + 1 }
    ensures { log.new.faults ≡ log.old.faults }
{
    let turn = told(log, from, &VOTE)?;
    Ok(turn.learned == learned && writes(&turn, facts))
}

/// Whether the value is learned, at position 0 alone.
fn knows(log: &TierLog<Mark>) -> bool {
    log.learned(0) == Some(&VALUE) && log.first_open() == 1
}

/// Whether this is what the log asks for when it begins to lead.
fn leads(log: &mut TierLog<Mark>, packets: &[(u8, PaxMsg<Mark>)]) -> Result<bool, Memory>
    ensures { log.new.faults ≡ log.old.faults }
{
    let turn = log.lead()?;
    Ok(writes(&turn, &[Fact::Promised(FIRST)]) && sends(&turn, packets))
}

/// Whether the log offers the value at position 0 with these packets.
fn offers(log: &mut TierLog<Mark>, packets: &[(u8, PaxMsg<Mark>)]) -> Result<bool, Memory>
    ensures { log.new.faults ≡ log.old.faults }
{
    let Offering::Free { pos: 0 } = log.wants() else {
        return Ok(false);
    };
    let turn = log.offer(Some(&VALUE))?;
    Ok(writes(&turn, ACCEPTED) && sends(&turn, packets))
}

fn chooses_alone(log: &mut TierLog<Mark>) -> Result<bool, Memory> {
    Ok(
        leads(log, &[])?
            && offers(log, &[(0, VOTE)])?
            && learns(log, 0, Some(0), LEARNED)?
            && knows(log),
    )
}

#[test]
fn a_node_alone_chooses_its_value(rt: HostRuntime) -> Result<(), Fail> {
    assert!(rt; chooses_alone(&mut TierLog::new(rt.alloc(), 0, 0))?);
    Ok(())
}

/// Whether the log of node 0 of three offers the value, once node 1 has promised.
fn leads_three(leader: &mut TierLog<Mark>) -> Result<bool, Memory>
    requires { leader.old.faults ≡ 1 }
    ensures { leader.new.faults ≡ 1 }
{
    Ok(
        leads(leader, PREPARES)?
            && answers(leader, 1, &PaxMsg::Promise(FIRST, 0, None), &[])?
            && offers(leader, OFFERS)?,
    )
}

/// Whether the value is learned once nodes 0 and 1 have accepted it.
fn learns_by_majority(leader: &mut TierLog<Mark>) -> Result<bool, Memory>
    requires { leader.old.faults ≡ 1 }
{
    Ok(
        learns(leader, 0, None, &[])?
            && idles(leader, 0, &VOTE, LogIdle::Nothing)?
            && learns(leader, 1, Some(0), LEARNED)?,
    )
}

fn choose_by_majority(rt: &impl Abort, leader: &mut TierLog<Mark>) -> Result<(), Fail>
    requires { leader.old.faults ≡ 1 }
{
    assert!(rt; leads_three(leader)?);
    assert!(rt; learns_by_majority(leader)?);
    Ok(())
}

#[test]
fn a_majority_chooses_the_leaders_value(rt: HostRuntime) -> Result<(), Fail> {
    choose_by_majority(&rt, &mut TierLog::new(rt.alloc(), 1, 0))
}

fn promises_and_accepts(other: &mut TierLog<Mark>) -> Result<bool, Memory> {
    if !answers(other, 0, &PREPARE, PROMISES)? {
        return Ok(false);
    }
    let turn = told(other, 0, &ACCEPT)?;
    Ok(writes(&turn, ACCEPTED))
}

#[test]
fn another_node_promises_and_accepts(rt: HostRuntime) -> Result<(), Fail> {
    assert!(rt; promises_and_accepts(&mut TierLog::new(rt.alloc(), 1, 1))?);
    Ok(())
}

/// Restores a learned value and a promise in the log of a node of three. Whether the value is learned.
fn restores(log: &mut TierLog<Mark>) -> Result<bool, Memory>
    requires fresh { log.old ≡ new_log 1 2 }
    ensures { log.new.faults ≡ 1 }
{
    log.restore(&[Fact::Learned(0, VALUE), Fact::Promised(HIGHER)])?;
    Ok(knows(log))
}

/// Whether a restored node asks for what it lacks and tells what it has.
fn asks_and_tells(log: &mut TierLog<Mark>) -> Result<bool, Memory>
    requires { log.old.faults ≡ 1 }
    ensures { log.new.faults ≡ 1 }
{
    Ok(
        answers(log, 0, &PaxMsg::Learn(1, VALUE), &[(0, PaxMsg::Ask(2))])?
            && answers(log, 1, &PaxMsg::Ask(0), &[(1, PaxMsg::Learn(0, VALUE))])?,
    )
}

/// Whether it keeps its promise.
fn is_stale(log: &mut TierLog<Mark>) -> Result<bool, Memory>
    requires { log.old.faults ≡ 1 }
    ensures { log.new.faults ≡ 1 }
{
    let stale = LogIdle::Stale { promised: HIGHER };
    idles(log, 0, &PaxMsg::Prepare(FIRST, 2), stale)
}

/// Whether a node that has learned position 1 too tells so.
fn is_behind(log: &mut TierLog<Mark>) -> Result<bool, Memory>
    requires { log.old.faults ≡ 1 }
{
    let accept = PaxMsg::Accept(HIGHER, 3, VALUE);
    let behind = LogIdle::Behind { pos: 2 };
    Ok(
        answers(log, 0, &accept, &[(0, PaxMsg::Behind(2))])?
            && idles(log, 0, &PaxMsg::Accepted(HIGHER, 3, VALUE), behind)?,
    )
}

fn restart(rt: &impl Abort, log: &mut TierLog<Mark>) -> Result<(), Fail>
    requires fresh { log.old ≡ new_log 1 2 }
{
    assert!(rt; restores(log)?);
    assert!(rt; asks_and_tells(log)?);
    assert!(rt; is_stale(log)? && is_behind(log)?);
    Ok(())
}

#[test]
fn a_restart_keeps_what_was_promised_and_learned(rt: HostRuntime) -> Result<(), Fail> {
    restart(&rt, &mut TierLog::new(rt.alloc(), 1, 2))
}
