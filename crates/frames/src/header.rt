// The first six bytes of a frame.
ghost use Rattle.std.specs.Prelude.{◌≡◌};
ghost use Rattle.frames.specs.Headers.{Headed, lead_at, header_of, judged, sender_of, is_sent_by, end_number, end_index, node_of};
ghost use Rattle.log_values.specs.Reading.{Found};

use aeg_base::limits::CLIENTS;
use aeg_base::{End, NodeId, Tier};
use aeg_wire::Cursor;
use log_values::format::{
    ANSWER_KIND, BEHIND_KIND, BODY_BYTES, CLIENT_SENDER, FRAME_VERSION, INV_TIER, LAST_INDEX,
    LAST_KIND, LEARN_KIND, MID_TIER, PAY_TIER, PREPARE_KIND, REPLY_KIND, REQUEST_KIND,
};
use log_values::tier_byte;
use thiserror::Error;

/// Why a frame is refused: it is too short, or a row of the list of refusals holds, which are tried in order.
/// 1 another version, 2 another kind, 3 a sender out of range or one that doesn't send this kind, 4 a length above
/// the limit, 5 bytes after the body, 6 the body isn't one of its kind.
#[derive(Clone, Copy, Debug, PartialEq, Eq, Error)]
pub enum Refused {
    #[error("shorter than its header says")]
    Short,
    #[error("refused by rule {0}")]
    Row(u8),
}

/// What a frame says before its body: the kind of its message, who sent it, and the length of its body.
#[derive(Clone, Copy, Debug, PartialEq, Eq)]
pub struct Header {
    pub kind: u8,
    pub from: End,
    pub len: u16,
}

/// Why a frame wasn't read.
#[derive(Clone, Copy, Debug, PartialEq, Eq, Error)]
pub enum FrameErr {
    #[error(transparent)]
    Refused(Refused),
    #[error("there is no memory")]
    Memory,
}

/// The header's fields as they stand.
#[derive(Clone, Copy)]
pub struct Lead {
    version: u8,
    kind: u8,
    tier: u8,
    index: u8,
    len: u16,
}

#[tactic(auto, unfolding(crate::specs::Headers::lead_at))]
fn take_lead(from: &mut Cursor<'_>) -> Option<Lead>
    ensures { Found (λ l. l) result from.new (lead_at from.old) }
{
    let version = from.take_u8()?;
    let kind = from.take_u8()?;
    let tier = from.take_u8()?;
    let index = from.take_u8()?;
    let len = from.take_u16()?;
    Some(Lead {
        version,
        kind,
        tier,
        index,
        len,
    })
}

fn node(tier: Tier, index: u8) -> End
    ensures { result ≡ node_of tier index }
{
    End::Node(NodeId { tier, index })
}

/// Who sends by these two bytes.
#[tactic(auto, unfolding(crate::specs::Headers::sender_of))]
fn sender(tier: u8, index: u8) -> Option<End>
    ensures { result ≡ sender_of tier index }
{
    if tier == CLIENT_SENDER {
        if 1 <= index && index <= CLIENTS {
            return Some(End::Client(index));
        }
        return None;
    }
    if index > LAST_INDEX {
        return None;
    }
    match tier {
        MID_TIER => Some(node(Tier::Mid, index)),
        INV_TIER => Some(node(Tier::Inv, index)),
        PAY_TIER => Some(node(Tier::Pay, index)),
        _ => None,
    }
}

/// Whether this sender sends this kind.
fn sends(from: End, kind: u8) -> bool
    ensures { result ≡ is_sent_by from kind }
{
    match from {
        End::Client(_) => kind == REQUEST_KIND,
        End::Node(node) => match node.tier {
            Tier::Mid => REPLY_KIND <= kind && kind != ANSWER_KIND,
            Tier::Inv | Tier::Pay => {
                PREPARE_KIND <= kind && kind <= LEARN_KIND
                    || kind == ANSWER_KIND
                    || kind == BEHIND_KIND
            }
        },
    }
}

/// The byte of a sender's tier.
pub fn end_byte(from: End) -> u8
    ensures { result ≡ end_number from }
{
    match from {
        End::Node(node) => tier_byte(node.tier),
        End::Client(_) => CLIENT_SENDER,
    }
}

/// The byte of a sender's index.
pub fn index_byte(from: End) -> u8
    ensures { result ≡ end_index from }
{
    match from {
        End::Node(node) => node.index,
        End::Client(client) => client,
    }
}

#[tactic(auto, unfolding(crate::specs::Headers::judged))]
fn judge(lead: Lead) -> Result<Header, Refused>
    ensures { result ≡ judged lead }
{
    if lead.version != FRAME_VERSION {
        return Err(Refused::Row(1));
    }
    if lead.kind < REQUEST_KIND {
        return Err(Refused::Row(2));
    }
    if lead.kind > LAST_KIND {
        return Err(Refused::Row(2));
    }
    let Some(from) = sender(lead.tier, lead.index) else {
        return Err(Refused::Row(3));
    };
    if !sends(from, lead.kind) {
        return Err(Refused::Row(3));
    }
    if lead.len > BODY_BYTES {
        return Err(Refused::Row(4));
    }
    Ok(Header {
        kind: lead.kind,
        from,
        len: lead.len,
    })
}

/// The header at the front of what is left.
pub fn take_header(from: &mut Cursor<'_>) -> Result<Header, Refused>
    ensures { Headed result from.new (lead_at from.old) }
{
    let Some(lead) = take_lead(from) else {
        return Err(Refused::Short);
    };
    judge(lead)
}

/// The header of a frame, or the first refusal of its six bytes that holds.
pub fn decode_header(bytes: &[u8]) -> Result<Header, Refused>
    ensures { result ≡ header_of bytes.now }
{
    let mut from = Cursor::new(bytes);
    take_header(&mut from)
}
