// Frames that come in.
ghost use Rattle.frames.specs.declared.message.Msg.TheVariants as msgs;
ghost use Rattle.frames.specs.Frames.{FitsFrame};
ghost use Rattle.tier_model.specs.BackRows.{on_frame};
ghost use Rattle.node_log.specs.Received.{on_bytes};
ghost use Rattle.backend_node.specs.Backends.{backend_by};
ghost use Rattle.backend_node.specs.Deciding.{DecidesMove, IsInRange, IsMember, back_in};

use crate::calls::{on_call, on_settle};
use crate::serving::Serving;
use crate::turns::take_turn;
use aeg_base::{End, Memory, Tier};
use frames::{FrameErr, Msg, Outbox, decode};
use log_values::AnyValue;
use node_log::{Decided, Member, Working, node_in};
use paxos_log::PaxMsg;
use svc_api::Backend;
use tier_model::Turn;

/// A message of the log, from a node of its tier.
fn on_log<B: Backend>(
    member: Member,
    up: &mut Working<Serving<B>>,
    from: End,
    message: &PaxMsg<AnyValue>,
    out: &mut Outbox,
) -> Result<Decided, Memory>
    requires member { IsMember member }
    requires range { IsInRange member up.old }
    requires fits { FitsFrame from (msgs.Log message.now) }
    ensures { DecidesMove member (on_frame member.faults (backend_by B.opening B.state_after B.code_of) member.me.tier member.me.index (back_in up.old)
        from (msgs.Log message.now)) up.old up.new out.old out.new result }
{
    let Some(index) = node_in(member.faults, member.me.tier, from) else {
        return Ok(Decided::refused(member.alloc, 7));
    };
    let open = up.log.first_open();
    let turn = up.log.on_msg(index, message)?;
    take_turn(member, up, open, turn, out)
}

/// A message, which a middle node or a node of its tier may send.
fn on_message<B: Backend>(
    member: Member,
    up: &mut Working<Serving<B>>,
    from: End,
    message: &Msg,
    out: &mut Outbox,
) -> Result<Decided, Memory>
    requires member { IsMember member }
    requires range { IsInRange member up.old }
    requires fits { FitsFrame from message.now }
    ensures { DecidesMove member (on_frame member.faults (backend_by B.opening B.state_after B.code_of) member.me.tier member.me.index (back_in up.old)
        from message.now) up.old up.new out.old out.new result }
{
    match message {
        Msg::Log(message) => on_log(member, up, from, message, out),
        Msg::Call { no, body } => match node_in(member.faults, Tier::Mid, from) {
            None => Ok(Decided::refused(member.alloc, 7)),
            Some(index) => on_call(member, up, index, *no, body, out),
        },
        Msg::Settle { floor } => match node_in(member.faults, Tier::Mid, from) {
            None => Ok(Decided::refused(member.alloc, 7)),
            Some(index) => on_settle(member, up, index, *floor, out),
        },
        _ => Ok(Decided::refused(member.alloc, 7)),
    }
}

/// Bytes that come in.
pub fn receive<B: Backend>(
    member: Member,
    up: &mut Working<Serving<B>>,
    bytes: &[u8],
    out: &mut Outbox,
) -> Result<Decided, Memory>
    requires member { IsMember member }
    requires range { IsInRange member up.old }
    ensures { DecidesMove member (on_bytes (λ from message σ. on_frame member.faults (backend_by B.opening B.state_after B.code_of) member.me.tier
        member.me.index σ from message) bytes.now (back_in up.old)) up.old up.new out.old out.new result }
{
    match decode(member.alloc, bytes) {
        Err(FrameErr::Memory) => Err(Memory),
        Err(FrameErr::Refused(refused)) => {
            let answer = Turn::Dropped(refused);
            Ok(Decided::without_facts(member.alloc, answer))
        }
        Ok((header, message)) => {
            let decided = on_message(member, up, header.from, &message, out);
            drop(message);
            decided
        }
    }
}
