// What a middle node tells again.
ghost use Rattle.std.specs.Prelude.{◌≡◌, ◌++◌, OnOk};
ghost use Rattle.std.specs.List.{AllByRecursion, flat_map};
ghost use Rattle.round_model.specs.Held.{floor, highest};
ghost use Rattle.round_model.specs.Service.{Programs};
ghost use Rattle.svc_api.specs.Plan.{IsBackend};
ghost use Rattle.server_shim.specs.Ranges.{IsCode};
ghost use Rattle.round_model.specs.Lists.{concat};
ghost use Rattle.tier_model.specs.MidRows.{by_number, calls_again, haves, haves_again, open_calls, retry, settle_to};
ghost use Rattle.node_log.specs.Packets.{all_sealed, StillHas};
ghost use Rattle.mid_rounds.specs.Deciding.{IsInRange, IsMember, mid_in};
ghost use Rattle.mid_rounds.specs.Telling.{IsCallIn, IsWaiting, call_unless_held};

use crate::keeping::Keeping;
use crate::telling::{send_calls, send_haves, send_settle};
use aeg_base::{Bytes, CallNo, Memory, Tier};
use frames::Outbox;
use node_log::{Member, Working, send_asks};
use resp_durable::Held;

/// Calls again, where the answer isn't held.
fn call_again(
    member: Member,
    held: &Held,
    call: &(Tier, CallNo, Bytes),
    out: &mut Outbox,
) -> Result<(), Memory>
    requires member { IsMember member }
    requires fits { IsCallIn call.now }
    ensures sent { OnOk result (out.new ≡ out.old ++ all_sealed (call_unless_held member.faults member.me.index held.now call.now)) }
    ensures kept { StillHas out.old out.new }
{
    if held.held(call.0, call.1).is_some() {
        return Ok(());
    }
    send_calls(member, call.0, call.1, &call.2, out)
}

/// Makes these calls again whose answers aren't held, in order.
fn call_all_again(
    member: Member,
    held: &Held,
    calls: &[(Tier, CallNo, Bytes)],
    out: &mut Outbox,
) -> Result<(), Memory>
    requires member { IsMember member }
    requires fit { AllByRecursion IsCallIn calls.now }
    ensures sent { OnOk result (out.new ≡ out.old ++ flat_map (λ call. all_sealed (call_unless_held member.faults member.me.index held.now call)) calls.now) }
    ensures kept { StillHas out.old out.new }
{
    for call in calls {
        call_again(member, held, call, out)?;
    }
    Ok(())
}

/// Tells the others again which answers of the tier are held: these.
fn have_all_again(
    member: Member,
    tier: Tier,
    codes: &[(CallNo, u8)],
    out: &mut Outbox,
) -> Result<(), Memory>
    requires member { IsMember member }
    requires tier { IsBackend tier }
    requires fit { AllByRecursion IsCode codes.now }
    ensures sent { OnOk result (out.new ≡ out.old ++ flat_map (λ e. all_sealed (haves member.faults member.me.index tier e.0 e.1)) codes.now) }
    ensures kept { StillHas out.old out.new }
{
    for code in codes {
        send_haves(member, tier, code.0, code.1, out)?;
    }
    Ok(())
}

/// Tells the others again of the highest answers of the tier that are held.
fn have_again(member: Member, tier: Tier, held: &Held, out: &mut Outbox) -> Result<(), Memory>
    requires member { IsMember member }
    requires tier { IsBackend tier }
    requires fit { AllByRecursion IsCode (highest held.now tier) }
    ensures sent { OnOk result (out.new ≡ out.old
        ++ all_sealed (haves_again member.faults member.me.index tier (highest held.now tier))) }
    ensures kept { StillHas out.old out.new }
{
    let codes = held.highest(tier)?;
    have_all_again(member, tier, &codes, out)?;
    Ok(())
}

/// Tells the tier again the floor of its answers, where one was raised.
fn settle_again(member: Member, tier: Tier, held: &Held, out: &mut Outbox) -> Result<(), Memory>
    requires member { IsMember member }
    ensures sent { OnOk result (out.new ≡ out.old ++ all_sealed (settle_to member.faults member.me.index tier (floor held.now tier))) }
    ensures kept { StillHas out.old out.new }
{
    let floor = held.floor(tier);
    if floor > 1 {
        return send_settle(member, tier, floor, out);
    }
    Ok(())
}

/// Makes the calls again that wait and whose answers aren't held, by tier, then number.
fn call_waiting(member: Member, keeping: &Keeping, out: &mut Outbox) -> Result<(), Memory>
    requires member { IsMember member }
    requires fit { AllByRecursion IsWaiting (concat keeping.now.rounds.tables.queue) }
    ensures sent { OnOk result (out.new ≡ out.old ++ all_sealed (
        calls_again member.faults member.me.index (by_number (open_calls keeping.now.held Tier.Inv (concat keeping.now.rounds.tables.queue)))
        ++ calls_again member.faults member.me.index (by_number (open_calls keeping.now.held Tier.Pay (concat keeping.now.rounds.tables.queue))))) }
    ensures kept { StillHas out.old out.new }
{
    let calls = keeping.rounds.parked()?;
    call_all_again(member, &keeping.held, &calls, out)?;
    Ok(())
}

/// Tells again which answers are held, and the floors that were raised.
fn tell_held(member: Member, held: &Held, out: &mut Outbox) -> Result<(), Memory>
    requires member { IsMember member }
    requires inventory { AllByRecursion IsCode (highest held.now Tier.Inv) }
    requires payment { AllByRecursion IsCode (highest held.now Tier.Pay) }
    ensures sent { OnOk result (out.new ≡ out.old ++ all_sealed (haves_again member.faults member.me.index Tier.Inv (highest held.now Tier.Inv)
        ++ (haves_again member.faults member.me.index Tier.Pay (highest held.now Tier.Pay)
        ++ (settle_to member.faults member.me.index Tier.Inv (floor held.now Tier.Inv)
        ++ settle_to member.faults member.me.index Tier.Pay (floor held.now Tier.Pay))))) }
    ensures kept { StillHas out.old out.new }
{
    have_again(member, Tier::Inv, held, out)?;
    have_again(member, Tier::Pay, held, out)?;
    settle_again(member, Tier::Inv, held, out)?;
    settle_again(member, Tier::Pay, held, out)?;
    Ok(())
}

/// Tells again what may be lost: asks for the first open position; calls whose answers aren't held; the highest answers
/// that are; and floors that were raised.
pub fn tell_again(member: Member, up: &Working<Keeping>, out: &mut Outbox) -> Result<(), Memory>
    requires member { IsMember member }
    requires range { (p : Programs) × IsInRange p member up.now }
    ensures sent { OnOk result (out.new ≡ out.old ++ all_sealed (retry member.faults member.me.index (mid_in member up.now)).sends) }
    ensures kept { StillHas out.old out.new }
{
    let at = up.log.first_open();
    send_asks(member.alloc, member.faults, member.me, at, out)?;
    call_waiting(member, &up.rest, out)?;
    tell_held(member, &up.rest.held, out)?;
    Ok(())
}
