// What a backend node tells its middle nodes.
ghost use Rattle.std.specs.Prelude.{◌≡◌, ◌+◌, ◌*◌, ◌++◌, ◌∷◌, [], OnOk, OnErr, IfSome};
ghost use Rattle.std.specs.List.{AllByRecursion};
ghost use Rattle.log_model.specs.Log.{nobody};
ghost use Rattle.round_model.specs.Lists.{each};
ghost use Rattle.server_shim.specs.Ranges.{IsCode};
ghost use Rattle.tier_model.specs.Back.{answer_to};
ghost use Rattle.tier_model.specs.BackRows.{answers_again, retry};
ghost use Rattle.node_log.specs.Packets.{all_sealed, StillHas};
ghost use Rattle.backend_node.specs.Backends.{told_to_all};
ghost use Rattle.backend_node.specs.Deciding.{IsInRange, IsMember, back_in};

use crate::serving::Serving;
use aeg_base::{CallNo, End, Memory, NodeId, Tier};
use frames::{Msg, Outbox};
use node_log::{Member, Working, send_asks, send_one, send_to_tier};
use svc_api::Backend;

/// Answers a call to one middle node.
pub fn answer_one(
    member: Member,
    to: u8,
    no: CallNo,
    code: u8,
    out: &mut Outbox,
) -> Result<(), Memory>
    requires member { IsMember member }
    requires fits { IsCode (no, code) }
    ensures sent { OnOk result (out.new ≡ out.old ++ all_sealed (answer_to member.me.tier member.me.index no code to ∷ [])) }
    ensures none { OnErr result (out.new ≡ out.old) }
{
    let message = Msg::Answer { no, code };
    let to = NodeId {
        tier: Tier::Mid,
        index: to,
    };
    let sent = send_one(
        member.alloc,
        End::Node(member.me),
        End::Node(to),
        &message,
        out,
    );
    drop(message);
    sent
}

/// Answers a call to all middle nodes.
fn send_answer(member: Member, no: CallNo, code: u8, out: &mut Outbox) -> Result<(), Memory>
    requires member { IsMember member }
    requires fits { IsCode (no, code) }
    ensures sent { OnOk result (out.new ≡ out.old
        ++ all_sealed (each (2 * member.faults + 1) nobody (answer_to member.me.tier member.me.index no code))) }
    ensures kept { StillHas out.old out.new }
{
    let message = Msg::Answer { no, code };
    let sent = send_to_tier(
        member.alloc,
        member.faults,
        End::Node(member.me),
        Tier::Mid,
        None,
        &message,
        out,
    );
    drop(message);
    sent
}

/// Answers the call that was served with a value, if one was.
pub fn send_answer_if(
    member: Member,
    answer: Option<(CallNo, u8)>,
    out: &mut Outbox,
) -> Result<(), Memory>
    requires member { IsMember member }
    requires fits { IfSome answer IsCode }
    ensures sent { OnOk result (out.new ≡ out.old ++ all_sealed (told_to_all member.faults member.me.tier member.me.index answer)) }
    ensures kept { StillHas out.old out.new }
{
    match answer {
        None => Ok(()),
        Some((no, code)) => send_answer(member, no, code, out),
    }
}

/// Answers these calls again.
fn send_answers(member: Member, codes: &[(CallNo, u8)], out: &mut Outbox) -> Result<(), Memory>
    requires member { IsMember member }
    requires fit { AllByRecursion IsCode codes.now }
    ensures sent { OnOk result (out.new ≡ out.old ++ all_sealed (answers_again member.faults member.me.tier member.me.index codes.now)) }
    ensures kept { StillHas out.old out.new }
{
    for i in 0..codes.len() {
        let (no, code) = codes[i];
        send_answer(member, no, code, out)?;
    }
    Ok(())
}

/// Tells again what may be lost: asks for the first open position, and the highest answers that are kept.
pub fn tell_again<B: Backend>(
    member: Member,
    up: &Working<Serving<B>>,
    out: &mut Outbox,
) -> Result<(), Memory>
    requires member { IsMember member }
    requires range { IsInRange member up.now }
    ensures sent { OnOk result (out.new ≡ out.old ++ all_sealed (retry member.faults member.me.tier member.me.index (back_in up.now)).sends) }
    ensures kept { StillHas out.old out.new }
{
    let at = up.log.first_open();
    send_asks(member.alloc, member.faults, member.me, at, out)?;
    let codes = up.rest.shim.highest()?;
    send_answers(member, &codes, out)
}
