// The fields of values and messages, each within its range.
ghost use Rattle.std.specs.Prelude.{◌≡◌, ◌++◌, OnOk, OnErr};
ghost use Rattle.aeg_wire.specs.Fields.{text_at, IsBegun};
ghost use Rattle.log_values.specs.Fields.{tier_number, backend_at, client_at, seq_at, call_number_at, floor_at, position_at, stage_at, ballot, ballot_at};
ghost use Rattle.log_values.specs.Reading.{Found, Gives};

use crate::Misread;
use crate::format::{INV_TIER, LAST_INDEX, LAST_STAGE, MID_TIER, PAY_TIER};
use aeg_base::limits::{CLIENTS, LAST_SEQ, POSITIONS};
use aeg_base::{Ballot, Bytes, CallNo, Memory, Pos, Tier};
use aeg_wire::{Cursor, put_u8, put_u32};
use std::alloc::Global;

/// The number of a tier: 0 in the middle, 1 and 2 for the backends.
pub fn tier_byte(tier: Tier) -> u8
    ensures { result ≡ tier_number tier }
{
    match tier {
        Tier::Mid => MID_TIER,
        Tier::Inv => INV_TIER,
        Tier::Pay => PAY_TIER,
    }
}

/// A backend tier, by its number.
#[tactic(auto, unfolding(crate::specs::Fields::backend_at))]
pub fn take_backend(from: &mut Cursor<'_>) -> Option<Tier>
    ensures { Found (λ t. t) result from.new (backend_at from.old) }
{
    match from.take_u8()? {
        INV_TIER => Some(Tier::Inv),
        PAY_TIER => Some(Tier::Pay),
        _ => None,
    }
}

/// A client, from 1 to 16.
#[tactic(auto, unfolding(crate::specs::Fields::client_at))]
pub fn take_client(from: &mut Cursor<'_>) -> Option<u8>
    ensures { Found (λ n. n) result from.new (client_at from.old) }
{
    let client = from.take_u8()?;
    if 1 <= client && client <= CLIENTS {
        return Some(client);
    }
    None
}

/// The number of a client's request.
#[tactic(auto, unfolding(crate::specs::Fields::seq_at))]
pub fn take_seq(from: &mut Cursor<'_>) -> Option<u32>
    ensures { Found (λ n. n) result from.new (seq_at from.old) }
{
    let seq = from.take_u32()?;
    if 1 <= seq && seq <= LAST_SEQ {
        return Some(seq);
    }
    None
}

/// The number of a call, from 1.
#[tactic(auto, unfolding(crate::specs::Fields::call_number_at))]
pub fn take_number(from: &mut Cursor<'_>) -> Option<CallNo>
    ensures { Found (λ n. n) result from.new (call_number_at from.old) }
{
    let no = from.take_u32()?;
    if 1 <= no {
        return Some(no);
    }
    None
}

/// A floor that was raised: it is 1 at first, so at least 2.
#[tactic(auto, unfolding(crate::specs::Fields::floor_at))]
pub fn take_floor(from: &mut Cursor<'_>) -> Option<CallNo>
    ensures { Found (λ n. n) result from.new (floor_at from.old) }
{
    let floor = from.take_u32()?;
    if 2 <= floor {
        return Some(floor);
    }
    None
}

/// A position that has a value.
#[tactic(auto, unfolding(crate::specs::Fields::position_at))]
pub fn take_position(from: &mut Cursor<'_>) -> Option<Pos>
    ensures { Found (λ n. n) result from.new (position_at from.old) }
{
    let position = from.take_u16()?;
    if position < POSITIONS {
        return Some(position);
    }
    None
}

/// The stage at which a request goes on after a call.
#[tactic(auto, unfolding(crate::specs::Fields::stage_at))]
pub fn take_stage(from: &mut Cursor<'_>) -> Option<u8>
    ensures { Found (λ n. n) result from.new (stage_at from.old) }
{
    let stage = from.take_u8()?;
    if 1 <= stage && stage <= LAST_STAGE {
        return Some(stage);
    }
    None
}

/// A ballot of a node.
#[tactic(auto, unfolding(crate::specs::Fields::ballot_at))]
pub fn take_ballot(from: &mut Cursor<'_>) -> Option<Ballot>
    ensures { Found (λ b. b) result from.new (ballot_at from.old) }
{
    let counter = from.take_u32()?;
    if counter < 1 {
        return None;
    }
    let node = from.take_u8()?;
    if node > LAST_INDEX {
        return None;
    }
    Some(Ballot { counter, node })
}

pub fn put_ballot(out: &mut Bytes, b: Ballot) -> Result<(), Memory>
    ensures ok { OnOk result (out.new ≡ out.old ++ ballot b) }
    ensures err { OnErr result (IsBegun out.old out.new (ballot b)) }
{
    put_u32(out, b.counter)?;
    put_u8(out, b.node)
}

/// A text of its own, copied from the bytes.
pub fn take_text(alloc: Global, from: &mut Cursor<'_>) -> Result<Bytes, Misread>
    ensures { Gives (λ t. t) result from.new (text_at from.old) }
{
    let text = from.take_text().ok_or(Misread::Outside)?;
    let items = Vec::from_slice(alloc, text)?;
    Ok(Bytes::of(items))
}
