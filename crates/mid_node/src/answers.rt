// Answers of backends, and what others tell that they hold.
ghost use Rattle.std.specs.Prelude.{◌≡◌, ◌+◌, ◌*◌, ◌<◌, ◌++◌, ◌∷◌, [], IfOk, OnOk};
ghost use Rattle.svc_api.specs.Plan.{IsBackend};
ghost use Rattle.log_values.specs.declared.fact.Fact.TheVariants as facts;
ghost use Rattle.round_model.specs.Service.{Programs};
ghost use Rattle.server_shim.specs.Ranges.{IsCode};
ghost use Rattle.tier_model.specs.MidRows.{haves, on_answer, on_have};
ghost use Rattle.node_log.specs.Packets.{all_sealed, StillHas};
ghost use Rattle.mid_rounds.specs.Deciding.{DecidesMove, IsInRange, IsMember, mid_in};

use aeg_base::{CallNo, Memory, Tier};
use frames::Outbox;
use log_values::Fact;
use mid_rounds::{Keeping, send_haves};
use node_log::{Decided, Member, Working};
use tier_model::{Idle, Turn};

/// An answer that wasn't held before is written down, and the others are told that it is held.
fn take_answer(
    member: Member,
    tier: Tier,
    no: CallNo,
    code: u8,
    out: &mut Outbox,
) -> Result<Decided, Memory>
    requires member { IsMember member }
    requires tier { IsBackend tier }
    requires code { IsCode (no, code) }
    ensures facts { IfOk result (λ d. d.facts.items ≡ facts.Held tier no code ∷ []) }
    ensures answer { IfOk result (λ d. d.answer ≡ Turn.Did) }
    ensures sent { OnOk result (out.new ≡ out.old ++ all_sealed (haves member.faults member.me.index tier no code)) }
    ensures kept { StillHas out.old out.new }
{
    send_haves(member, tier, no, code, out)?;
    let mut facts = Vec::new(member.alloc);
    facts.push(Fact::Held(tier, no, code))?;
    Ok(Decided {
        facts,
        answer: Turn::Did,
    })
}

/// A backend's answer. One that is held already is passed over.
pub fn on_answer(
    member: Member,
    up: &mut Working<Keeping>,
    tier: Tier,
    no: CallNo,
    code: u8,
    out: &mut Outbox,
) -> Result<Decided, Memory>
    requires member { IsMember member }
    requires range { (p : Programs) × IsInRange p member up.old }
    requires tier { IsBackend tier }
    requires code { IsCode (no, code) }
    ensures { (p : Programs) → IsInRange p member up.old → DecidesMove p member
        (on_answer member.faults member.me.index (mid_in member up.old) tier no code) up.old up.new out.old out.new result }
{
    if up.rest.held.on_answer(tier, no, code)? {
        return take_answer(member, tier, no, code, out);
    }
    Ok(Decided::without_facts(member.alloc, Turn::Idle(Idle::Nothing)))
}

/// Another middle node tells that it holds an answer. The first time that it does is noted, and an answer that isn't held
/// here is held then.
pub fn on_have(
    member: Member,
    up: &mut Working<Keeping>,
    from: u8,
    tier: Tier,
    no: CallNo,
    code: u8,
    out: &mut Outbox,
) -> Result<Decided, Memory>
    requires member { IsMember member }
    requires range { (p : Programs) × IsInRange p member up.old }
    requires sender { from < 2 * member.faults + 1 }
    requires tier { IsBackend tier }
    requires code { IsCode (no, code) }
    ensures { (p : Programs) → IsInRange p member up.old → DecidesMove p member
        (on_have member.faults member.me.index (mid_in member up.old) from tier no code) up.old up.new out.old out.new result }
{
    if up.rest.held.noted(from, tier, no) {
        return Ok(Decided::without_facts(member.alloc, Turn::Idle(Idle::Nothing)));
    }
    if up.rest.held.on_have(from, tier, no, code)? {
        return take_answer(member, tier, no, code, out);
    }
    Ok(Decided::without_facts(member.alloc, Turn::Did))
}
