// Frames that come in.
ghost use Rattle.std.specs.Prelude.{◌≡◌, true, false, IfOk, MatchOption};
ghost use Rattle.svc_api.specs.Plan.{IsBackend};
ghost use Rattle.svc_api.specs.Requests.{IsRequest};
ghost use Rattle.frames.specs.declared.message.Msg.TheVariants as msgs;
ghost use Rattle.frames.specs.Frames.{FitsFrame};
ghost use Rattle.applied_rounds.specs.States.{programs_of};
ghost use Rattle.round_model.specs.Service.{is_request};
ghost use Rattle.tier_model.specs.Moves.{tier_of};
ghost use Rattle.tier_model.specs.MidRows.{is_backend_node, on_frame};
ghost use Rattle.node_log.specs.Received.{on_bytes};
ghost use Rattle.mid_rounds.specs.Deciding.{DecidesMove, IsInRange, IsMember, mid_in};

use crate::answers::{on_answer, on_have};
use crate::requests::on_request;
use crate::tokens::on_token;
use crate::turns::take_turn;
use aeg_base::{Bytes, End, Memory, ReqId, Tier};
use frames::{FrameErr, Msg, Outbox, decode};
use log_values::AnyValue;
use mid_rounds::Keeping;
use node_log::{Decided, Member, Working, node_in};
use paxos_log::PaxMsg;
use svc_api::Service;
use tier_model::Turn;

/// The tier of an end, where it is a backend node.
fn backend_in(member: Member, from: End) -> Option<Tier>
    requires { IsMember member }
    ensures { MatchOption result (is_backend_node member.faults from ≡ false)
        (λ tier. (is_backend_node member.faults from ≡ true) × ((tier ≡ tier_of from) × IsBackend tier)) }
{
    if node_in(member.faults, Tier::Inv, from).is_some() {
        return Some(Tier::Inv);
    }
    if node_in(member.faults, Tier::Pay, from).is_some() {
        return Some(Tier::Pay);
    }
    None
}

/// A message of the log, from a node of its tier.
fn on_log<S: Service>(
    member: Member,
    svc: &S,
    up: &mut Working<Keeping>,
    from: End,
    message: &PaxMsg<AnyValue>,
    out: &mut Outbox,
) -> Result<Decided, Memory>
    requires member { IsMember member }
    requires range { IsInRange (programs_of (S.table svc.now) (S.beginning svc.now)) member up.old }
    requires fits { FitsFrame from (msgs.Log message.now) }
    ensures { DecidesMove (programs_of (S.table svc.now) (S.beginning svc.now)) member (on_frame member.faults
        (programs_of (S.table svc.now) (S.beginning svc.now)) member.me.index (mid_in member up.old) from (msgs.Log message.now))
        up.old up.new out.old out.new result }
{
    let Some(index) = node_in(member.faults, Tier::Mid, from) else {
        return Ok(Decided::refused(member.alloc, 7));
    };
    let open = up.log.first_open();
    let turn = up.log.on_msg(index, message)?;
    take_turn(member, svc, up, open, turn, out)
}

/// Whether the text is a request of the service.
fn is_request<S: Service>(svc: &S, who: ReqId, body: &Bytes) -> Result<bool, Memory>
    requires { IsRequest who }
    ensures { IfOk result (λ is. is ≡ is_request (programs_of (S.table svc.now) (S.beginning svc.now)) who body.now) }
{
    let program = svc.begin(who, body, 0)?;
    Ok(program.is_some())
}

/// A request, from a client.
fn on_asked<S: Service>(
    member: Member,
    svc: &S,
    up: &mut Working<Keeping>,
    from: End,
    seq: u32,
    body: &Bytes,
    out: &mut Outbox,
) -> Result<Decided, Memory>
    requires member { IsMember member }
    requires range { IsInRange (programs_of (S.table svc.now) (S.beginning svc.now)) member up.old }
    requires fits { FitsFrame from (msgs.Request seq body.now) }
    ensures { DecidesMove (programs_of (S.table svc.now) (S.beginning svc.now)) member (on_frame member.faults
        (programs_of (S.table svc.now) (S.beginning svc.now)) member.me.index (mid_in member up.old) from (msgs.Request seq body.now))
        up.old up.new out.old out.new result }
{
    let End::Client(client) = from else {
        return Ok(Decided::refused(member.alloc, 7));
    };
    let who = ReqId { client, seq };
    if !is_request(svc, who, body)? {
        return Ok(Decided::refused(member.alloc, 8));
    }
    on_request(member, up, who, body, out)
}

/// A message, which a client, a backend node or a node of its tier may send.
fn on_message<S: Service>(
    member: Member,
    svc: &S,
    up: &mut Working<Keeping>,
    from: End,
    message: &Msg,
    out: &mut Outbox,
) -> Result<Decided, Memory>
    requires member { IsMember member }
    requires range { IsInRange (programs_of (S.table svc.now) (S.beginning svc.now)) member up.old }
    requires fits { FitsFrame from message.now }
    ensures { DecidesMove (programs_of (S.table svc.now) (S.beginning svc.now)) member (on_frame member.faults
        (programs_of (S.table svc.now) (S.beginning svc.now)) member.me.index (mid_in member up.old) from message.now)
        up.old up.new out.old out.new result }
{
    match message {
        Msg::Log(message) => on_log(member, svc, up, from, message, out),
        Msg::Request { seq, body } => on_asked(member, svc, up, from, *seq, body, out),
        Msg::Token {
            round,
            token,
            order,
        } => match node_in(member.faults, Tier::Mid, from) {
            None => Ok(Decided::refused(member.alloc, 7)),
            Some(index) => on_token(member, up, *round, index, token, order.items(), out),
        },
        Msg::Answer { no, code } => match backend_in(member, from) {
            None => Ok(Decided::refused(member.alloc, 7)),
            Some(tier) => on_answer(member, up, tier, *no, *code, out),
        },
        Msg::Have { tier, no, code } => match node_in(member.faults, Tier::Mid, from) {
            None => Ok(Decided::refused(member.alloc, 7)),
            Some(index) => on_have(member, up, index, *tier, *no, *code, out),
        },
        _ => Ok(Decided::refused(member.alloc, 7)),
    }
}

/// Bytes that come in.
pub fn receive<S: Service>(
    member: Member,
    svc: &S,
    up: &mut Working<Keeping>,
    bytes: &[u8],
    out: &mut Outbox,
) -> Result<Decided, Memory>
    requires member { IsMember member }
    requires range { IsInRange (programs_of (S.table svc.now) (S.beginning svc.now)) member up.old }
    ensures { DecidesMove (programs_of (S.table svc.now) (S.beginning svc.now)) member (on_bytes (λ from message σ. on_frame member.faults
        (programs_of (S.table svc.now) (S.beginning svc.now)) member.me.index σ from message) bytes.now (mid_in member up.old))
        up.old up.new out.old out.new result }
{
    match decode(member.alloc, bytes) {
        Err(FrameErr::Memory) => Err(Memory),
        Err(FrameErr::Refused(refused)) => {
            let answer = Turn::Dropped(refused);
            Ok(Decided::without_facts(member.alloc, answer))
        }
        Ok((header, message)) => {
            let decided = on_message(member, svc, up, header.from, &message, out);
            drop(message);
            decided
        }
    }
}
