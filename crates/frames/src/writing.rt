// Writing frames.
ghost use Rattle.std.specs.Prelude.{◌≡◌, ◌∷◌, [], ◌≤◌, length, IfOk};
ghost use Rattle.aeg_base.specs.declared.names.End.TheVariants.{Node};
ghost use Rattle.frames.specs.declared.message.Msg.TheVariants.{Log};
ghost use Rattle.log_values.specs.declared.format.TheConstants.{FRAME_VERSION};
ghost use Rattle.frames.specs.Frames.{frame, tier_of, FitsFrame};
ghost use Rattle.frames.specs.Messages.{body, kind_of};
ghost use Rattle.frames.specs.Headers.{end_number, end_index};
ghost use Rattle.frames.specs.Lengths.{sized};

use crate::Msg;
use crate::header::{end_byte, index_byte};
use crate::log_body::{kind_of_log, put_log};
use crate::other_body::{kind_byte, put_body};
use crate::reading::tier_in;
use aeg_base::{Bytes, End, Memory, NodeId};
use log_model::PaxMsg;
use log_values::AnyValue;
use log_values::format::FRAME_VERSION;
use std::alloc::Global;

/// The room with which a frame begins: that of a message without a value, so that most frames take memory once.
const FRAME_ROOM: usize = 16;

/// The bytes with the length of what follows them set in the last two of the first six.
fn with_length(out: Bytes) -> Bytes
    requires low { 6 ≤ length out }
    requires high { length out ≤ 8198 }
    ensures { result ≡ sized out }
{
    let mut bytes = out.into_vec();
    let len = (bytes.len() - 6) as u16;
    let [high, low] = len.to_be_bytes();
    bytes[4] = high;
    bytes[5] = low;
    Bytes::of(bytes)
}

/// What stands before a body: the length is set once the body is there.
fn begun(alloc: Global, from: End, kind: u8) -> Result<Bytes, Memory>
    ensures { IfOk result (λ out. out ≡ FRAME_VERSION ∷ (kind ∷ (end_number from ∷ (end_index from ∷ (0 ∷ (0 ∷ [])))))) }
{
    let lead = [FRAME_VERSION, kind, end_byte(from), index_byte(from), 0, 0];
    let mut out = Vec::with_capacity(alloc, FRAME_ROOM)?;
    out.extend_from_slice(&lead)?;
    Ok(Bytes::of(out))
}

/// The one spelling of the message from this sender.
pub fn encode(alloc: Global, from: End, msg: &Msg) -> Result<Bytes, Memory>
    requires { FitsFrame from msg.now }
    ensures { IfOk result (λ bytes. bytes ≡ frame from msg.now) }
{
    let mut out = begun(alloc, from, kind_byte(msg))?;
    put_body(&mut out, tier_in(from), msg)?;
    Ok(with_length(out))
}

/// The one spelling of the message of a node's log.
pub fn encode_log(alloc: Global, from: NodeId, msg: &PaxMsg<AnyValue>) -> Result<Bytes, Memory>
    requires { FitsFrame (Node from) (Log msg.now) }
    ensures { IfOk result (λ bytes. bytes ≡ frame (Node from) (Log msg.now)) }
{
    let mut out = begun(alloc, End::Node(from), kind_of_log(msg))?;
    put_log(&mut out, from.tier, msg)?;
    Ok(with_length(out))
}
