// Requests of clients.
ghost use Rattle.std.specs.Prelude.{◌≡◌, suc, ◌==◌, ◌&&◌, not, None, option_copied, if◌then◌else◌};
ghost use Rattle.batcher.specs.Clients.{ClientTable};
ghost use Rattle.log_values.specs.Fields.{IsClient, IsSeq, IsText};
ghost use Rattle.round_model.specs.Service.{Programs};
ghost use Rattle.round_model.specs.Tables.{kept_of, last_of, pending_of};
ghost use Rattle.tier_model.specs.MidRows.{has_seq, on_request};
ghost use Rattle.mid_rounds.specs.Deciding.{DecidesMove, IsInRange, IsMember, mid_in};

use aeg_base::{Bytes, Memory, ReqId};
use batcher::{Clients, Pending};
use frames::Outbox;
use mid_rounds::{Keeping, send_reply};
use node_log::{Decided, Member, Working};
use tier_model::{Idle, Turn};

/// The reply that is kept for the request, where it is its client's last.
fn kept_reply(clients: &Clients, who: ReqId) -> Option<&Bytes>
    requires { IsClient who.client }
    ensures { option_copied result ≡ (if who.seq == last_of clients.now.last who.client then kept_of clients.now.kept who.client else None) }
{
    if who.seq != clients.last(who.client) {
        return None;
    }
    clients.kept(who.client)
}

/// Whether the request is its client's next one, and doesn't wait yet.
fn is_new(clients: &Clients, pending: &Pending, who: ReqId) -> bool
    requires client { IsClient who.client }
    requires number { IsSeq who.seq }
    ensures { result ≡ (who.seq == suc (last_of clients.now.last who.client) && not (has_seq (pending_of pending.now who.client) who.seq)) }
{
    if who.seq - 1 != clients.last(who.client) {
        return false;
    }
    match pending.get(who.client) {
        None => true,
        Some((seq, _)) => seq != who.seq,
    }
}

/// A client's request: its last one has its reply told again, and its next one waits from now on. Any other is passed
/// over, and so is one that waits.
pub fn on_request(
    member: Member,
    up: &mut Working<Keeping>,
    who: ReqId,
    body: &Bytes,
    out: &mut Outbox,
) -> Result<Decided, Memory>
    requires member { IsMember member }
    requires range { (p : Programs) × IsInRange p member up.old }
    requires client { IsClient who.client }
    requires number { IsSeq who.seq }
    requires text { IsText body.now }
    ensures { (p : Programs) → IsInRange p member up.old → DecidesMove p member
        (on_request member.me.index (mid_in member up.old) who.client who.seq body.now) up.old up.new out.old out.new result }
{
    if let Some(text) = kept_reply(up.rest.rounds.clients(), who) {
        send_reply(member, who, text, out)?;
        return Ok(Decided::without_facts(member.alloc, Turn::Did));
    }
    if !is_new(up.rest.rounds.clients(), &up.rest.pending, who) {
        return Ok(Decided::without_facts(member.alloc, Turn::Idle(Idle::Nothing)));
    }
    let body = body.copy()?;
    up.rest.pending.put(who, body);
    Ok(Decided::without_facts(member.alloc, Turn::Did))
}
