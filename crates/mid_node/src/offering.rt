// What a leading middle node offers.
ghost use Rattle.std.specs.Prelude.{◌≡◌, ◌&&◌, not, IfOk, option_copied};
ghost use Rattle.applied_rounds.specs.States.{programs_of};
ghost use Rattle.log_model.specs.Rows.{offer, wants};
ghost use Rattle.paxos_log.specs.TierLog.{CanOffer};
ghost use Rattle.round_model.specs.Lists.{is_some};
ghost use Rattle.tier_model.specs.Mid.{in_log};
ghost use Rattle.tier_model.specs.MidRows.{offers, own_value};
ghost use Rattle.node_log.specs.Deciding.{idle_in};
ghost use Rattle.node_log.specs.Packets.{needs_own};
ghost use Rattle.mid_rounds.specs.Deciding.{DecidesMove, IsInRange, IsMember, mid_in};

use crate::own_values::{own_cause, own_value};
use crate::turns::take_turn;
use aeg_base::Memory;
use frames::Outbox;
use log_values::AnyValue;
use mid_rounds::Keeping;
use node_log::{Decided, Member, Working, needs_own, offer_cause};
use paxos_log::Offering;
use svc_api::Service;
use tier_model::{Idle, Turn};

/// Whether only a value of its own can be offered, and there is none.
fn lacks_own(wants: Offering, own: &Option<AnyValue>) -> bool
    ensures { result ≡ (needs_own wants && not (is_some own.now)) }
{
    needs_own(wants) && own.is_none()
}

/// Offers the reported value or, where none was reported, its own.
fn offer_value<S: Service>(
    member: Member,
    svc: &S,
    up: &mut Working<Keeping>,
    own: Option<&AnyValue>,
    out: &mut Outbox,
) -> Result<Decided, Memory>
    requires member { IsMember member }
    requires range { IsInRange (programs_of (S.table svc.now) (S.beginning svc.now)) member up.old }
    requires own { option_copied own ≡ own_value member.faults (programs_of (S.table svc.now) (S.beginning svc.now)) (mid_in member up.old) }
    requires can { CanOffer (wants member.faults up.old.log.state) (option_copied own) }
    ensures { DecidesMove (programs_of (S.table svc.now) (S.beginning svc.now)) member
        (in_log member.faults (programs_of (S.table svc.now) (S.beginning svc.now)) member.me.index (mid_in member up.old)
        (offer member.faults member.me.index up.old.log.state
        (own_value member.faults (programs_of (S.table svc.now) (S.beginning svc.now)) (mid_in member up.old)))) up.old up.new out.old out.new result }
{
    let open = up.log.first_open();
    let turn = up.log.offer(own)?;
    take_turn(member, svc, up, open, turn, out)
}

/// Offers a value, where it leads and there is one.
pub fn offer<S: Service>(
    member: Member,
    svc: &S,
    up: &mut Working<Keeping>,
    out: &mut Outbox,
) -> Result<Decided, Memory>
    requires member { IsMember member }
    requires range { IsInRange (programs_of (S.table svc.now) (S.beginning svc.now)) member up.old }
    ensures { DecidesMove (programs_of (S.table svc.now) (S.beginning svc.now)) member
        (offers member.faults (programs_of (S.table svc.now) (S.beginning svc.now)) member.me.index (mid_in member up.old)) up.old up.new out.old out.new result }
{
    let wants = up.log.wants();
    if let Some(cause) = offer_cause(wants) {
        return Ok(Decided::without_facts(member.alloc, Turn::Idle(cause)));
    }
    let own = own_value(member, svc, up)?;
    if lacks_own(wants, &own) {
        let cause = own_cause(member, up);
        return Ok(Decided::without_facts(member.alloc, Turn::Idle(cause)));
    }
    let decided = offer_value(member, svc, up, own.as_ref(), out);
    drop(own);
    decided
}

/// Why an offer would be idle, if it would be.
pub fn offer_idle<S: Service>(
    member: Member,
    svc: &S,
    up: &Working<Keeping>,
) -> Result<Option<Idle>, Memory>
    requires member { IsMember member }
    requires range { IsInRange (programs_of (S.table svc.now) (S.beginning svc.now)) member up.now }
    ensures { IfOk result (λ cause. cause ≡ idle_in (offers member.faults (programs_of (S.table svc.now) (S.beginning svc.now)) member.me.index
        (mid_in member up.now)).answer) }
{
    let wants = up.log.wants();
    if let Some(cause) = offer_cause(wants) {
        return Ok(Some(cause));
    }
    let own = own_value(member, svc, up)?;
    let lacks = lacks_own(wants, &own);
    drop(own);
    if lacks {
        return Ok(Some(own_cause(member, up)));
    }
    Ok(None)
}
