// Ends of segments as text.
ghost use Rattle.std.specs.Prelude.{◌≡◌, ◌++◌, OnOk};
ghost use Rattle.std.specs.List.{flat_map, AllByRecursion};
ghost use Rattle.aeg_wire.specs.Formats.{list_at};
ghost use Rattle.svc_api.specs.Plan.{IsEnding};
ghost use Rattle.log_values.specs.Outcomes.{ending, ending_at};
ghost use Rattle.log_values.specs.Reading.{Found, Gives, Passes};
ghost use Rattle.log_values.specs.Ends.{ending_of};

use crate::Misread;
use crate::fields::{take_backend, take_stage, tier_byte};
use crate::format::{CALL_END, REPLY_END};
use aeg_base::{Bytes, Memory, Tier};
use aeg_wire::{Cursor, put_text, put_u8};
use std::alloc::Global;
use svc_api::Ending;

/// How a segment ends, without its text.
#[derive(Clone, Copy, Debug)]
pub enum EndKind {
    Reply,
    Call(Tier, u8),
}

/// An end, and its text where it lies.
#[tactic(auto, unfolding(crate::specs::Outcomes::ending_at))]
pub fn take_end<'a>(from: &mut Cursor<'a>) -> Option<(EndKind, &'a [u8])>
    ensures { Found (λ x. ending_of x.0 x.1.now) result from.new (ending_at from.old) }
{
    match from.take_u8()? {
        REPLY_END => {
            let reply = from.take_text()?;
            Some((EndKind::Reply, reply))
        }
        CALL_END => {
            let tier = take_backend(from)?;
            let stage = take_stage(from)?;
            let body = from.take_text()?;
            Some((EndKind::Call(tier, stage), body))
        }
        _ => None,
    }
}

/// An end with a text of its own.
pub fn own_end(alloc: Global, from: &mut Cursor<'_>) -> Result<Ending, Misread>
    ensures { Gives (λ e. e) result from.new (ending_at from.old) }
{
    let (kind, text) = take_end(from).ok_or(Misread::Outside)?;
    let body = Bytes::of(Vec::from_slice(alloc, text)?);
    match kind {
        EndKind::Reply => Ok(Ending::Reply(body)),
        EndKind::Call(tier, stage) => Ok(Ending::Call { tier, stage, body }),
    }
}

pub fn put_end(out: &mut Bytes, end: &Ending) -> Result<(), Memory>
    requires { IsEnding end.now }
    ensures { OnOk result (out.new ≡ out.old ++ ending end.now) }
{
    match end {
        Ending::Reply(reply) => {
            put_u8(out, REPLY_END)?;
            put_text(out, reply.items())?;
        }
        Ending::Call { tier, stage, body } => {
            put_u8(out, CALL_END)?;
            put_u8(out, tier_byte(*tier))?;
            put_u8(out, *stage)?;
            put_text(out, body.items())?;
        }
    }
    Ok(())
}

/// So many ends with texts of their own.
pub fn take_ends(alloc: Global, count: u8, from: &mut Cursor<'_>) -> Result<Vec<Ending>, Misread>
    ensures { Gives (λ v. v.items) result from.new (list_at ending_at count from.old) }
{
    let mut ends = Vec::new(alloc);
    for _ in 0..count {
        let end = own_end(alloc, from)?;
        ends.push(end)?;
    }
    Ok(ends)
}

/// Passes over so many ends.
pub fn pass_ends(count: u8, from: &mut Cursor<'_>) -> Option<()>
    ensures { Passes result from.new (list_at ending_at count from.old) }
{
    for _ in 0..count {
        let Some(_) = take_end(from) else {
            return None;
        };
    }
    Some(())
}

pub fn put_ends(out: &mut Bytes, ends: &[Ending]) -> Result<(), Memory>
    requires { AllByRecursion IsEnding ends.now }
    ensures { OnOk result (out.new ≡ out.old ++ flat_map ending ends.now) }
{
    for end in ends {
        put_end(out, end)?;
    }
    Ok(())
}
