// The bodies of all messages.
ghost use Rattle.std.specs.Prelude.{◌≡◌, ◌++◌, OnOk};
ghost use Rattle.log_values.specs.Reading.{Found, Gives};
ghost use Rattle.frames.specs.Messages.{kind_of, body, body_at, other_body_at, round_at, is_of_log, FitsMsg};

use crate::Msg;
use crate::log_body::{kind_of_log, put_log, take_log};
use aeg_base::limits::ROUNDS;
use aeg_base::{Bytes, Memory, ReqId, Round, Tier};
use aeg_wire::{Cursor, put_text, put_u8, put_u16, put_u32};
use log_values::format::{
    ANSWER_KIND, BEHIND_KIND, CALL_KIND, HAVE_KIND, LEARN_KIND, PREPARE_KIND, REPLY_KIND,
    REQUEST_KIND, SETTLE_KIND, TOKEN_KIND,
};
use log_values::{
    Misread, put_commit, take_backend, take_client, take_commit, take_floor, take_number, take_seq,
    take_text, tier_byte,
};
use std::alloc::Global;

#[tactic(auto, unfolding(crate::specs::Messages::round_at))]
fn take_round(from: &mut Cursor<'_>) -> Option<Round>
    ensures { Found (λ n. n) result from.new (round_at from.old) }
{
    let round = from.take_u16()?;
    if round < ROUNDS {
        return Some(round);
    }
    None
}

#[tactic(auto, unfolding(crate::specs::Messages::other_body_at))]
fn take_other(alloc: Global, kind: u8, from: &mut Cursor<'_>) -> Result<Msg, Misread>
    ensures { Gives (λ m. m) result from.new (other_body_at kind from.old) }
{
    match kind {
        REQUEST_KIND => {
            let seq = take_seq(from).ok_or(Misread::Outside)?;
            let body = take_text(alloc, from)?;
            Ok(Msg::Request { seq, body })
        }
        REPLY_KIND => {
            let client = take_client(from).ok_or(Misread::Outside)?;
            let seq = take_seq(from).ok_or(Misread::Outside)?;
            let body = take_text(alloc, from)?;
            let who = ReqId { client, seq };
            Ok(Msg::Reply { who, body })
        }
        TOKEN_KIND => {
            let round = take_round(from).ok_or(Misread::Outside)?;
            let (token, order) = take_commit(alloc, from)?;
            Ok(Msg::Token {
                round,
                token,
                order,
            })
        }
        CALL_KIND => {
            let no = take_number(from).ok_or(Misread::Outside)?;
            let body = take_text(alloc, from)?;
            Ok(Msg::Call { no, body })
        }
        ANSWER_KIND => {
            let no = take_number(from).ok_or(Misread::Outside)?;
            let code = from.take_u8().ok_or(Misread::Outside)?;
            Ok(Msg::Answer { no, code })
        }
        HAVE_KIND => {
            let tier = take_backend(from).ok_or(Misread::Outside)?;
            let no = take_number(from).ok_or(Misread::Outside)?;
            let code = from.take_u8().ok_or(Misread::Outside)?;
            Ok(Msg::Have { tier, no, code })
        }
        SETTLE_KIND => {
            let floor = take_floor(from).ok_or(Misread::Outside)?;
            Ok(Msg::Settle { floor })
        }
        _ => Err(Misread::Outside),
    }
}

fn is_log_kind(kind: u8) -> bool
    ensures { result ≡ is_of_log kind }
{
    PREPARE_KIND <= kind && kind <= LEARN_KIND || kind == BEHIND_KIND
}

/// The body of a message of this kind from this tier.
#[tactic(auto, unfolding(crate::specs::Messages::body_at))]
pub fn take_body(alloc: Global, tier: Tier, kind: u8, from: &mut Cursor<'_>) -> Result<Msg, Misread>
    ensures { Gives (λ m. m) result from.new (body_at tier kind from.old) }
{
    if is_log_kind(kind) {
        let msg = take_log(alloc, tier, kind, from)?;
        return Ok(Msg::Log(msg));
    }
    let msg = take_other(alloc, kind, from)?;
    Ok(msg)
}

/// The kind of a message.
pub fn kind_byte(msg: &Msg) -> u8
    ensures { result ≡ kind_of msg.now }
{
    match msg {
        Msg::Log(log) => kind_of_log(log),
        Msg::Request { .. } => REQUEST_KIND,
        Msg::Reply { .. } => REPLY_KIND,
        Msg::Token { .. } => TOKEN_KIND,
        Msg::Call { .. } => CALL_KIND,
        Msg::Answer { .. } => ANSWER_KIND,
        Msg::Have { .. } => HAVE_KIND,
        Msg::Settle { .. } => SETTLE_KIND,
    }
}

/// Writes the body of a message of this tier.
pub fn put_body(out: &mut Bytes, tier: Tier, msg: &Msg) -> Result<(), Memory>
    requires { FitsMsg tier msg.now }
    ensures { OnOk result (out.new ≡ out.old ++ body msg.now) }
{
    match msg {
        Msg::Log(log) => put_log(out, tier, log)?,
        Msg::Request { seq, body } => {
            put_u32(out, *seq)?;
            put_text(out, body.items())?;
        }
        Msg::Reply { who, body } => {
            put_u8(out, who.client)?;
            put_u32(out, who.seq)?;
            put_text(out, body.items())?;
        }
        Msg::Token {
            round,
            token,
            order,
        } => {
            put_u16(out, *round)?;
            put_commit(out, token, order.items())?;
        }
        Msg::Call { no, body } => {
            put_u32(out, *no)?;
            put_text(out, body.items())?;
        }
        Msg::Answer { no, code } => {
            put_u32(out, *no)?;
            put_u8(out, *code)?;
        }
        Msg::Have { tier, no, code } => {
            put_u8(out, tier_byte(*tier))?;
            put_u32(out, *no)?;
            put_u8(out, *code)?;
        }
        Msg::Settle { floor } => put_u32(out, *floor)?,
    }
    Ok(())
}
