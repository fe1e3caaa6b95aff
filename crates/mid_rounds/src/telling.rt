// What a middle node tells clients, backends and its tier.
ghost use Rattle.std.specs.Prelude.{◌≡◌, ◌<◌, ◌≤◌, ◌^◌, ◌+◌, ◌*◌, ◌++◌, ◌∷◌, [], OnOk, OnErr};
ghost use Rattle.std.specs.List.{AllByRecursion, flat_map};
ghost use Rattle.aeg_base.specs.declared.limits.TheConstants.{ROUNDS};
ghost use Rattle.svc_api.specs.Plan.{IsBackend};
ghost use Rattle.log_model.specs.Log.{is, nobody};
ghost use Rattle.log_values.specs.Fields.{IsCallNumber, IsClient, IsFloor, IsSeq, IsText};
ghost use Rattle.log_values.specs.Outcomes.{IsCommit};
ghost use Rattle.round_model.specs.Lists.{each};
ghost use Rattle.server_shim.specs.Ranges.{IsCode};
ghost use Rattle.tier_model.specs.Mid.{calls_to, reply_to};
ghost use Rattle.tier_model.specs.MidRows.{haves, settle_at, token_to};
ghost use Rattle.node_log.specs.Packets.{all_sealed, StillHas};
ghost use Rattle.mid_rounds.specs.Deciding.{IsMember};
ghost use Rattle.mid_rounds.specs.Telling.{IsToldIn, told_to};

use aeg_base::{Bytes, CallNo, End, Memory, NodeId, ReqId, Round, Seq, Tier};
use applied_rounds::Told;
use frames::{Msg, Outbox};
use log_values::Token;
use node_log::{Member, send_one, send_to_tier};

/// The node, as the sender of a frame.
fn sender(member: Member) -> End
    ensures { result ≡ End.Node (record { tier = Tier.Mid; index = member.me.index }) }
{
    End::Node(NodeId {
        tier: Tier::Mid,
        index: member.me.index,
    })
}

/// Tells a client its reply.
pub fn send_reply(member: Member, who: ReqId, text: &Bytes, out: &mut Outbox) -> Result<(), Memory>
    requires member { IsMember member }
    requires client { IsClient who.client }
    requires number { IsSeq who.seq }
    requires text { IsText text.now }
    ensures sent { OnOk result (out.new ≡ out.old ++ all_sealed (reply_to member.me.index who.client who.seq text.now ∷ [])) }
    ensures kept { OnErr result (out.new ≡ out.old) }
{
    let body = text.copy()?;
    let message = Msg::Reply { who, body };
    let sent = send_one(
        member.alloc,
        sender(member),
        End::Client(who.client),
        &message,
        out,
    );
    drop(message);
    sent
}

/// Calls all nodes of a backend's tier.
pub fn send_calls(
    member: Member,
    tier: Tier,
    no: CallNo,
    text: &Bytes,
    out: &mut Outbox,
) -> Result<(), Memory>
    requires member { IsMember member }
    requires number { IsCallNumber no }
    requires text { IsText text.now }
    ensures sent { OnOk result (out.new ≡ out.old ++ all_sealed (calls_to member.faults member.me.index tier no text.now)) }
    ensures kept { StillHas out.old out.new }
{
    let body = text.copy()?;
    let message = Msg::Call { no, body };
    let sent = send_to_tier(
        member.alloc,
        member.faults,
        sender(member),
        tier,
        None,
        &message,
        out,
    );
    drop(message);
    sent
}

/// Tells the others of its tier that it holds an answer.
pub fn send_haves(
    member: Member,
    tier: Tier,
    no: CallNo,
    code: u8,
    out: &mut Outbox,
) -> Result<(), Memory>
    requires member { IsMember member }
    requires tier { IsBackend tier }
    requires code { IsCode (no, code) }
    ensures sent { OnOk result (out.new ≡ out.old ++ all_sealed (haves member.faults member.me.index tier no code)) }
    ensures kept { StillHas out.old out.new }
{
    let message = Msg::Have { tier, no, code };
    let sent = send_to_tier(
        member.alloc,
        member.faults,
        sender(member),
        Tier::Mid,
        Some(member.me.index),
        &message,
        out,
    );
    drop(message);
    sent
}

/// Tells the others of its tier the token of its run of a round, and the order in which the segments finished.
pub fn send_token(
    member: Member,
    round: Round,
    token: Token,
    order: Seq<u8>,
    out: &mut Outbox,
) -> Result<(), Memory>
    requires member { IsMember member }
    requires round { round < ROUNDS }
    requires fits { IsCommit token order }
    ensures sent { OnOk result (out.new ≡ out.old ++ all_sealed (each (2 * member.faults + 1) (is member.me.index)
        (token_to member.me.index (record { round = round; from = member.me.index; token = token; order = order })))) }
    ensures kept { StillHas out.old out.new }
{
    let message = Msg::Token {
        round,
        token,
        order,
    };
    let sent = send_to_tier(
        member.alloc,
        member.faults,
        sender(member),
        Tier::Mid,
        Some(member.me.index),
        &message,
        out,
    );
    drop(message);
    sent
}

/// Tells all nodes of a backend's tier the floor of its answers.
pub fn send_settle(
    member: Member,
    tier: Tier,
    floor: CallNo,
    out: &mut Outbox,
) -> Result<(), Memory>
    requires member { IsMember member }
    requires floor { IsFloor floor }
    ensures sent { OnOk result (out.new ≡ out.old ++ all_sealed (each (2 * member.faults + 1) nobody (settle_at member.me.index tier floor))) }
    ensures kept { StillHas out.old out.new }
{
    let message = Msg::Settle { floor };
    let sent = send_to_tier(
        member.alloc,
        member.faults,
        sender(member),
        tier,
        None,
        &message,
        out,
    );
    drop(message);
    sent
}

/// Sends the reply, or the call.
fn tell_one(member: Member, told: &Told, out: &mut Outbox) -> Result<(), Memory>
    requires member { IsMember member }
    requires fits { IsToldIn told.now }
    ensures sent { OnOk result (out.new ≡ out.old ++ all_sealed (told_to member.faults member.me.index told.now)) }
    ensures kept { StillHas out.old out.new }
{
    match told {
        Told::Reply { who, text } => send_reply(member, *who, text, out),
        Told::Call { tier, no, text } => send_calls(member, *tier, *no, text, out),
    }
}

/// Sends a round's replies and calls, in order.
pub fn tell(member: Member, told: &[Told], out: &mut Outbox) -> Result<(), Memory>
    requires member { IsMember member }
    requires fit { AllByRecursion IsToldIn told.now }
    ensures sent { OnOk result (out.new ≡ out.old ++ flat_map (λ one. all_sealed (told_to member.faults member.me.index one)) told.now) }
    ensures kept { StillHas out.old out.new }
{
    for one in told {
        tell_one(member, one, out)?;
    }
    Ok(())
}
