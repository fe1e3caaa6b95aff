// The bodies of a log's messages.
ghost use Rattle.std.specs.Prelude.{◌≡◌, ◌++◌, OnOk, ℕ};
ghost use Rattle.log_values.specs.Reading.{Found, Gives};
ghost use Rattle.log_values.specs.Values.{FitsAny};
ghost use Rattle.log_values.specs.declared.any_value.AnyValue.{AnyValue};
ghost use Rattle.frames.specs.LogMessages.{is_carried, is_at_parity, carried_at, open_at, report, report_at, FitsReport, vote_at, log_kind, log_body, log_body_at, FitsLog};
ghost use Rattle.frames.specs.Votes.{vote};

use aeg_base::limits::POSITIONS;
use aeg_base::{Ballot, Bytes, Memory, Pos, Tier};
use aeg_wire::{Cursor, put_u8, put_u16};
use log_model::PaxMsg;
use log_values::format::{
    ACCEPT_KIND, ACCEPTED_KIND, ASK_KIND, BEHIND_KIND, LEARN_KIND, NO_REPORT, PREPARE_KIND,
    PROMISE_KIND, REPORT,
};
use log_values::{AnyValue, MidValue, Misread, put_ballot, take_ballot, take_position, take_value};
use std::alloc::Global;

fn is_turn_of(pos: Pos, value: &MidValue) -> bool
    ensures { result ≡ is_at_parity pos value.now }
{
    match value {
        MidValue::Batch(_) => pos % 2 == 0,
        MidValue::Verdict(_) => pos % 2 == 1,
    }
}

/// Whether the log of this tier can have the value at the position.
pub fn carries(tier: Tier, pos: Pos, value: &AnyValue) -> bool
    ensures { result ≡ is_carried tier pos value.now }
{
    match tier {
        Tier::Mid => match value {
            AnyValue::Mid(v) => is_turn_of(pos, v),
            AnyValue::Back(_) => false,
        },
        Tier::Inv | Tier::Pay => match value {
            AnyValue::Mid(_) => false,
            AnyValue::Back(_) => true,
        },
    }
}

#[tactic(auto, unfolding(crate::specs::LogMessages::carried_at))]
fn take_carried(
    alloc: Global,
    tier: Tier,
    pos: Pos,
    from: &mut Cursor<'_>,
) -> Result<AnyValue, Misread>
    ensures { Gives (λ v. v) result from.new (carried_at tier pos from.old) }
{
    let value = take_value(alloc, from)?;
    if carries(tier, pos, &value) {
        return Ok(value);
    }
    Err(Misread::Outside)
}

/// A position up to the first one past the log.
#[tactic(auto, unfolding(crate::specs::LogMessages::open_at))]
fn take_open(from: &mut Cursor<'_>) -> Option<Pos>
    ensures { Found (λ n. n) result from.new (open_at from.old) }
{
    let pos = from.take_u16()?;
    if pos <= POSITIONS {
        return Some(pos);
    }
    None
}

#[tactic(auto, unfolding(crate::specs::LogMessages::report_at))]
fn take_report(
    alloc: Global,
    tier: Tier,
    pos: Pos,
    from: &mut Cursor<'_>,
) -> Result<Option<(Ballot, AnyValue)>, Misread>
    ensures { Gives (λ r. r) result from.new (report_at tier pos from.old) }
{
    match from.take_u8().ok_or(Misread::Outside)? {
        NO_REPORT => Ok(None),
        REPORT => {
            if pos >= POSITIONS {
                return Err(Misread::Outside);
            }
            let ballot = take_ballot(from).ok_or(Misread::Outside)?;
            let value = take_carried(alloc, tier, pos, from)?;
            Ok(Some((ballot, value)))
        }
        _ => Err(Misread::Outside),
    }
}

fn take_vote(
    alloc: Global,
    tier: Tier,
    from: &mut Cursor<'_>,
) -> Result<(Ballot, (Pos, AnyValue)), Misread>
    ensures { Gives (λ p. p) result from.new (vote_at tier from.old) }
{
    let ballot = take_ballot(from).ok_or(Misread::Outside)?;
    let pos = take_position(from).ok_or(Misread::Outside)?;
    let value = take_carried(alloc, tier, pos, from)?;
    Ok((ballot, (pos, value)))
}

/// The body of a message of a log, by its kind.
#[tactic(auto, unfolding(crate::specs::LogMessages::log_body_at))]
pub fn take_log(
    alloc: Global,
    tier: Tier,
    kind: u8,
    from: &mut Cursor<'_>,
) -> Result<PaxMsg<AnyValue>, Misread>
    ensures { Gives (λ m. m) result from.new (log_body_at tier kind from.old) }
{
    match kind {
        PREPARE_KIND => {
            let ballot = take_ballot(from).ok_or(Misread::Outside)?;
            let pos = take_open(from).ok_or(Misread::Outside)?;
            Ok(PaxMsg::Prepare(ballot, pos))
        }
        PROMISE_KIND => {
            let ballot = take_ballot(from).ok_or(Misread::Outside)?;
            let pos = take_open(from).ok_or(Misread::Outside)?;
            let reported = take_report(alloc, tier, pos, from)?;
            Ok(PaxMsg::Promise(ballot, pos, reported))
        }
        ACCEPT_KIND => {
            let (ballot, (pos, value)) = take_vote(alloc, tier, from)?;
            Ok(PaxMsg::Accept(ballot, pos, value))
        }
        ACCEPTED_KIND => {
            let (ballot, (pos, value)) = take_vote(alloc, tier, from)?;
            Ok(PaxMsg::Accepted(ballot, pos, value))
        }
        ASK_KIND => {
            let pos = take_open(from).ok_or(Misread::Outside)?;
            Ok(PaxMsg::Ask(pos))
        }
        LEARN_KIND => {
            let pos = take_position(from).ok_or(Misread::Outside)?;
            let value = take_carried(alloc, tier, pos, from)?;
            Ok(PaxMsg::Learn(pos, value))
        }
        BEHIND_KIND => {
            let pos = take_open(from).ok_or(Misread::Outside)?;
            Ok(PaxMsg::Behind(pos))
        }
        _ => Err(Misread::Outside),
    }
}

/// The kind of a message of a log.
pub fn kind_of_log(msg: &PaxMsg<AnyValue>) -> u8
    ensures { result ≡ log_kind msg.now }
{
    match msg {
        PaxMsg::Prepare(_, _) => PREPARE_KIND,
        PaxMsg::Promise(_, _, _) => PROMISE_KIND,
        PaxMsg::Accept(_, _, _) => ACCEPT_KIND,
        PaxMsg::Accepted(_, _, _) => ACCEPTED_KIND,
        PaxMsg::Ask(_) => ASK_KIND,
        PaxMsg::Learn(_, _) => LEARN_KIND,
        PaxMsg::Behind(_) => BEHIND_KIND,
    }
}

fn put_report(
    out: &mut Bytes,
    tier: Tier,
    pos: Pos,
    reported: &Option<(Ballot, AnyValue)>,
) -> Result<(), Memory>
    requires { FitsReport tier pos reported.now }
    ensures { OnOk result (out.new ≡ out.old ++ report reported.now) }
{
    match reported {
        None => put_u8(out, NO_REPORT)?,
        Some((ballot, value)) => {
            put_u8(out, REPORT)?;
            put_ballot(out, *ballot)?;
            value.encode(out)?;
        }
    }
    Ok(())
}

fn put_vote(out: &mut Bytes, ballot: Ballot, pos: Pos, value: &AnyValue) -> Result<(), Memory>
    requires { FitsAny value.now }
    ensures { OnOk result (out.new ≡ out.old ++ vote ballot pos value.now) }
{
    put_ballot(out, ballot)?;
    put_u16(out, pos)?;
    value.encode(out)?;
    Ok(())
}

/// Writes the body of a message of this tier's log.
pub fn put_log(out: &mut Bytes, tier: Tier, msg: &PaxMsg<AnyValue>) -> Result<(), Memory>
    requires { FitsLog tier msg.now }
    ensures { OnOk result (out.new ≡ out.old ++ log_body msg.now) }
{
    match msg {
        PaxMsg::Prepare(ballot, pos) => {
            put_ballot(out, *ballot)?;
            put_u16(out, *pos)?;
        }
        PaxMsg::Promise(ballot, pos, reported) => {
            put_ballot(out, *ballot)?;
            put_u16(out, *pos)?;
            put_report(out, tier, *pos, reported)?;
        }
        PaxMsg::Accept(ballot, pos, value) => put_vote(out, *ballot, *pos, value)?,
        PaxMsg::Accepted(ballot, pos, value) => put_vote(out, *ballot, *pos, value)?,
        PaxMsg::Ask(pos) => put_u16(out, *pos)?,
        PaxMsg::Learn(pos, value) => {
            put_u16(out, *pos)?;
            value.encode(out)?;
        }
        PaxMsg::Behind(pos) => put_u16(out, *pos)?,
    }
    Ok(())
}
