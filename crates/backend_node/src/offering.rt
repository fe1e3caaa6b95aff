// What a leading backend node offers.
ghost use Rattle.std.specs.Prelude.{◌≡◌, ◌&&◌, not, IfOk, option_copied};
ghost use Rattle.log_model.specs.Rows.{offer, wants};
ghost use Rattle.paxos_log.specs.TierLog.{CanOffer};
ghost use Rattle.round_model.specs.Lists.{is_some};
ghost use Rattle.round_model.specs.Shims.{due_floor, ready};
ghost use Rattle.tier_model.specs.Back.{in_log};
ghost use Rattle.tier_model.specs.BackRows.{offers, own_by, own_value};
ghost use Rattle.node_log.specs.Packets.{needs_own};
ghost use Rattle.backend_node.specs.Backends.{backend_by};
ghost use Rattle.node_log.specs.Deciding.{idle_in};
ghost use Rattle.backend_node.specs.Deciding.{DecidesMove, IsInRange, IsMember, back_in};

use crate::serving::Serving;
use crate::turns::take_turn;
use aeg_base::Memory;
use frames::Outbox;
use log_values::{AnyValue, BackValue};
use node_log::{Decided, Member, Working, needs_own, offer_cause};
use paxos_log::Offering;
use server_shim::Shim;
use svc_api::Backend;
use tier_model::{Idle, Turn};

/// A call of which u+1 equal copies came, or else a floor that u+1 middle nodes told.
fn own_value(shim: &Shim) -> Result<Option<AnyValue>, Memory>
    ensures { IfOk result (λ own. own ≡ own_by (ready shim.now) (due_floor shim.now)) }
{
    if let Some((no, body)) = shim.ready()? {
        return Ok(Some(AnyValue::Back(BackValue::Call { no, body })));
    }
    match shim.due() {
        None => Ok(None),
        Some(floor) => Ok(Some(AnyValue::Back(BackValue::Settle { floor }))),
    }
}

/// Whether only a value of its own can be offered, and there is none.
fn lacks_own(wants: Offering, own: &Option<AnyValue>) -> bool
    ensures { result ≡ (needs_own wants && not (is_some own.now)) }
{
    needs_own(wants) && own.is_none()
}

/// Offers the reported value or, where none was reported, its own.
fn offer_value<B: Backend>(
    member: Member,
    up: &mut Working<Serving<B>>,
    own: Option<&AnyValue>,
    out: &mut Outbox,
) -> Result<Decided, Memory>
    requires member { IsMember member }
    requires range { IsInRange member up.old }
    requires own { option_copied own ≡ own_value (back_in up.old) }
    requires can { CanOffer (wants member.faults up.old.log.state) (option_copied own) }
    ensures { DecidesMove member (in_log member.faults (backend_by B.opening B.state_after B.code_of) member.me.tier member.me.index (back_in up.old)
        (offer member.faults member.me.index up.old.log.state (own_value (back_in up.old)))) up.old up.new out.old out.new result }
{
    let open = up.log.first_open();
    let turn = up.log.offer(own)?;
    take_turn(member, up, open, turn, out)
}

/// Offers a value, where it leads and there is one.
pub fn offer<B: Backend>(
    member: Member,
    up: &mut Working<Serving<B>>,
    out: &mut Outbox,
) -> Result<Decided, Memory>
    requires member { IsMember member }
    requires range { IsInRange member up.old }
    ensures { DecidesMove member (offers member.faults (backend_by B.opening B.state_after B.code_of) member.me.tier member.me.index (back_in up.old))
        up.old up.new out.old out.new result }
{
    let wants = up.log.wants();
    if let Some(cause) = offer_cause(wants) {
        return Ok(Decided::without_facts(member.alloc, Turn::Idle(cause)));
    }
    let own = own_value(&up.rest.shim)?;
    if lacks_own(wants, &own) {
        return Ok(Decided::without_facts(member.alloc, Turn::Idle(Idle::Nothing)));
    }
    let decided = offer_value(member, up, own.as_ref(), out);
    drop(own);
    decided
}

/// Why an offer would be idle, if it would be.
pub fn offer_idle<B: Backend>(
    member: Member,
    up: &Working<Serving<B>>,
) -> Result<Option<Idle>, Memory>
    requires member { IsMember member }
    requires range { IsInRange member up.now }
    ensures { IfOk result (λ cause. cause ≡ idle_in (offers member.faults (backend_by B.opening B.state_after B.code_of) member.me.tier
        member.me.index (back_in up.now)).answer) }
{
    let wants = up.log.wants();
    if let Some(cause) = offer_cause(wants) {
        return Ok(Some(cause));
    }
    let own = own_value(&up.rest.shim)?;
    let lacks = lacks_own(wants, &own);
    drop(own);
    if lacks {
        return Ok(Some(Idle::Nothing));
    }
    Ok(None)
}
