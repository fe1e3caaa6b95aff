// Reading frames.
ghost use Rattle.std.specs.Prelude.{◌≡◌, ◌≢◌, IfOk, Some};
ghost use Rattle.aeg_base.specs.declared.names.End.{End};
ghost use Rattle.frames.specs.declared.message.Msg.{Msg};
ghost use Rattle.frames.specs.declared.header.Refused.{Refused};
ghost use Rattle.frames.specs.Frames.{Decodes, frame_of, header_for, tier_of, IsFrame, IsRefusedBy, refusal, GivesOrMemory};

use crate::header::take_header;
use crate::other_body::take_body;
use crate::{FrameErr, Header, Msg, Refused};
use aeg_base::{End, Memory, Tier};
use aeg_wire::Cursor;
use log_values::ended;
use std::alloc::Global;

pub fn tier_in(from: End) -> Tier
    ensures { result ≡ tier_of from }
{
    match from {
        End::Node(node) => node.tier,
        End::Client(_) => Tier::Mid,
    }
}

#[tactic(auto, unfolding(crate::specs::Frames::frame_of))]
fn frame_in(alloc: Global, bytes: &[u8]) -> Result<(Header, Msg), FrameErr>
    ensures exact { Decodes result (frame_of bytes.now) }
    ensures unread { (r : Refused) → refusal bytes.now ≡ Some r → r ≢ Refused.Row 6 → result ≡ Err (FrameErr.Refused r) }
{
    let mut from = Cursor::new(bytes);
    let header = match take_header(&mut from) {
        Ok(header) => header,
        Err(refused) => return Err(FrameErr::Refused(refused)),
    };
    let left = from.rest().len();
    let len = usize::from(header.len);
    if left < len {
        return Err(FrameErr::Refused(Refused::Short));
    }
    if len < left {
        return Err(FrameErr::Refused(Refused::Row(5)));
    }
    let read = take_body(alloc, tier_in(header.from), header.kind, &mut from);
    match ended(read, from.rest()) {
        Ok(Some(msg)) => Ok((header, msg)),
        Ok(None) => Err(FrameErr::Refused(Refused::Row(6))),
        Err(Memory) => Err(FrameErr::Memory),
    }
}

/// The frame that the bytes are, or the first refusal that holds.
pub fn decode(alloc: Global, bytes: &[u8]) -> Result<(Header, Msg), FrameErr>
    ensures found { IfOk result (λ f. IsFrame bytes.now f.0.from f.1 × (f.0 ≡ header_for f.0.from f.1)) }
    ensures only { (from : End) (msg : Msg) → IsFrame bytes.now from msg → GivesOrMemory result (header_for from msg, msg) }
    ensures refused { (r : Refused) → IsRefusedBy result r → refusal bytes.now ≡ Some r }
    ensures exact { Decodes result (frame_of bytes.now) }

    // What is refused before the body is read takes no memory.
    ensures unread { (r : Refused) → refusal bytes.now ≡ Some r → r ≢ Refused.Row 6 → result ≡ Err (FrameErr.Refused r) }
{
    frame_in(alloc, bytes)
}
