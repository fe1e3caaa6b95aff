// The packets of a node.
ghost use Rattle.std.specs.Prelude.{◌≡◌, ◌+◌, ◌*◌, ◌<◌, ◌≤◌, ◌++◌, ◌∷◌, [], length, take, OnOk, OnErr, IfOk};
ghost use Rattle.std.specs.Bool.{OnTrue};
ghost use Rattle.std.specs.List.{AllByRecursion};
ghost use Rattle.aeg_base.specs.declared.names.End.TheVariants.{Node};
ghost use Rattle.frames.specs.Frames.{FitsFrame};
ghost use Rattle.frames.specs.LogMessages.{FitsLog};
ghost use Rattle.paxos_log.specs.TierLog.{skips};
ghost use Rattle.round_model.specs.Lists.{each};
ghost use Rattle.tier_model.specs.Moves.{asks, log_packets, node};
ghost use Rattle.node_log.specs.Packets.{all_sealed, to_tier, HasSent, IsFrameAt, StillHas};

use aeg_base::limits::{MAX_FAULTS, POSITIONS};
use aeg_base::{Ballot, Bytes, End, Memory, NodeId, Pos, Seq, Tier, Value};
use frames::{Msg, Outbox, encode, encode_log};
use log_values::AnyValue;
use log_values::format::LAST_INDEX;
use paxos_log::PaxMsg;
use std::alloc::Global;

/// Adds one packet.
pub fn send_one(
    alloc: Global,
    from: End,
    to: End,
    message: &Msg,
    out: &mut Outbox,
) -> Result<(), Memory>
    requires { FitsFrame from message.now }
    ensures sent { OnOk result (out.new ≡ out.old ++ all_sealed (record { from = from; to = to; message = message.now } ∷ [])) }
    ensures none { OnErr result (out.new ≡ out.old) }
{
    let bytes = encode(alloc, from, message)?;
    out.push(to, bytes)
}

/// Adds a packet with a copy of the bytes.
fn send_copy(to: End, bytes: &Bytes, out: &mut Outbox) -> Result<(), Memory>
    ensures sent { OnOk result (out.new ≡ out.old ++ (to, bytes.now) ∷ []) }
    ensures none { OnErr result (out.new ≡ out.old) }
{
    let copy = bytes.copy()?;
    out.push(to, copy)
}

/// Adds a packet with these bytes for each of so many nodes of a tier but the one that is left out, by ascending index.
fn send_bytes(
    nodes: u8,
    to: Tier,
    but: Option<u8>,
    bytes: &Bytes,
    out: &mut Outbox,
) -> Result<(), Memory>
    ensures sent { OnOk result (out.new ≡ out.old ++ each nodes (skips but) (λ y. (node to y, bytes.now))) }
    ensures kept { StillHas out.old out.new }
{
    for index in 0..nodes {
        if but != Some(index) {
            send_copy(End::Node(NodeId { tier: to, index }), bytes, out)?;
        }
    }
    Ok(())
}

/// Adds one message to each of the 2u+1 nodes of a tier, or to all but one, by ascending index.
pub fn send_to_tier(
    alloc: Global,
    u: u8,
    from: End,
    to: Tier,
    but: Option<u8>,
    message: &Msg,
    out: &mut Outbox,
) -> Result<(), Memory>
    requires faults { u ≤ MAX_FAULTS }
    requires fit { FitsFrame from message.now }
    ensures sent { OnOk result (out.new ≡ out.old ++ all_sealed (to_tier u from to but message.now)) }
    ensures kept { StillHas out.old out.new }
{
    let bytes = encode(alloc, from, message)?;
    let sent = send_bytes(2 * u + 1, to, but, &bytes, out);
    drop(bytes);
    sent
}

/// Whether the message is this Prepare.
fn is_prepare(message: &PaxMsg<AnyValue>, b: Ballot, p: Pos) -> bool
    ensures { OnTrue result (message.now ≡ PaxMsg.Prepare b p) }
{
    match message {
        PaxMsg::Prepare(ballot, pos) => *ballot == b && *pos == p,
        _ => false,
    }
}

/// Whether the message is this Accept.
fn is_accept(message: &PaxMsg<AnyValue>, b: Ballot, p: Pos, v: &AnyValue) -> bool
    ensures { OnTrue result (message.now ≡ PaxMsg.Accept b p v.now) }
{
    match message {
        PaxMsg::Accept(ballot, pos, value) => *ballot == b && *pos == p && value.same(v),
        _ => false,
    }
}

/// Whether the message is this Accepted.
fn is_accepted(message: &PaxMsg<AnyValue>, b: Ballot, p: Pos, v: &AnyValue) -> bool
    ensures { OnTrue result (message.now ≡ PaxMsg.Accepted b p v.now) }
{
    match message {
        PaxMsg::Accepted(ballot, pos, value) => *ballot == b && *pos == p && value.same(v),
        _ => false,
    }
}

/// Whether the second message is the first one again, as when all are told the same.
fn is_again(first: &PaxMsg<AnyValue>, second: &PaxMsg<AnyValue>) -> bool
    ensures { OnTrue result (first.now ≡ second.now) }
{
    match first {
        PaxMsg::Prepare(b, p) => is_prepare(second, *b, *p),
        PaxMsg::Accept(b, p, v) => is_accept(second, *b, *p, v),
        PaxMsg::Accepted(b, p, v) => is_accepted(second, *b, *p, v),
        _ => false,
    }
}

/// The frame of a message of the node's log. A message that is the one before again isn't written anew.
fn frame_at(
    alloc: Global,
    from: NodeId,
    sends: &[(u8, PaxMsg<AnyValue>)],
    i: usize,
    sent: &[(End, Bytes)],
) -> Result<Bytes, Memory>
    requires node { from.index ≤ LAST_INDEX }
    requires fit { AllByRecursion (λ send. FitsLog from.tier send.1) sends.now }
    requires within { i < length sends.now }
    requires before { HasSent from.tier from.index (take i sends.now) sent.now }
    ensures { IfOk result (λ bytes. IsFrameAt from.tier from.index sends.now i bytes) }
{
    let message = &sends[i].1;
    if i > 0 && is_again(&sends[i - 1].1, message) {
        if let Some((_, bytes)) = sent.last() {
            return bytes.copy();
        }
    }
    encode_log(alloc, from, message)
}

/// Adds the messages of a turn of the node's log as packets, in order.
pub fn send_log(
    alloc: Global,
    from: NodeId,
    sends: Seq<(u8, PaxMsg<AnyValue>)>,
    out: &mut Outbox,
) -> Result<(), Memory>
    requires node { from.index ≤ LAST_INDEX }
    requires fit { AllByRecursion (λ send. FitsLog from.tier send.1) sends }
    ensures sent { OnOk result (out.new ≡ out.old ++ all_sealed (log_packets from.tier from.index sends)) }
    ensures kept { StillHas out.old out.new }
{
    let list = sends.items();
    for i in 0..list.len() {
        let bytes = frame_at(alloc, from, list, i, out.items())?;
        let to = list[i].0;
        let receiver = NodeId {
            tier: from.tier,
            index: to,
        };
        out.push(End::Node(receiver), bytes)?;
    }
    Ok(())
}

/// Asks the other nodes of the tier for the value at a position.
pub fn send_asks(
    alloc: Global,
    u: u8,
    from: NodeId,
    at: Pos,
    out: &mut Outbox,
) -> Result<(), Memory>
    requires faults { u ≤ MAX_FAULTS }
    requires node { from.index ≤ LAST_INDEX }
    requires position { at ≤ POSITIONS }
    ensures sent { OnOk result (out.new ≡ out.old ++ all_sealed (log_packets from.tier from.index (asks u from.index at))) }
    ensures kept { StillHas out.old out.new }
{
    let message = Msg::Log(PaxMsg::Ask(at));
    let sent = send_to_tier(
        alloc,
        u,
        End::Node(from),
        from.tier,
        Some(from.index),
        &message,
        out,
    );
    drop(message);
    sent
}
