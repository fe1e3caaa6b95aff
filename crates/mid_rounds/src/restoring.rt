// What a restart makes of a journal's facts and of the values that the log learned.
ghost use Rattle.std.specs.Prelude.{◌≡◌, ℕ, ◌∷◌, ◌≤◌, List, [], length, IfOk, OnOk};
ghost use Rattle.fact_journal.specs.Fitting.{FactsFit};
ghost use Rattle.applied_rounds.specs.States.{programs_of};
ghost use Rattle.log_model.specs.Recover.{onto, recover};
ghost use Rattle.log_values.specs.declared.fact.Fact.{Fact as SomeFact};
ghost use Rattle.tier_model.specs.Moves.{held_in, log_facts};
ghost use Rattle.tier_model.specs.MidRows.{catch_up, recovered};
ghost use Rattle.node_log.specs.LogNodes.{IsOwnLog};
ghost use Rattle.row_laws.specs.Mids.{IsHeldIn};
ghost use Rattle.mid_rounds.specs.Mids.{mid_with};
ghost use Rattle.mid_rounds.specs.Deciding.{IsKeptWell, IsMember};

use crate::applying::{Settling, settle_next};
use crate::keeping::Keeping;
use aeg_base::Memory;
use applied_rounds::Applied;
use batcher::Pending;
use log_values::{AnyValue, Fact};
use node_log::Member;
use numbered::Numbered;
use paxos_log::TierLog;
use resp_durable::Held;
use svc_api::Service;

/// The answer of the fact is held, where it tells one.
fn hold(held: &mut Held, fact: &Fact) -> Result<(), Memory>
    ensures { (u x : ℕ) (older : List SomeFact) → held.old ≡ held_in u x older → OnOk result (held.new ≡ held_in u x (fact.now ∷ older)) }
{
    match fact {
        Fact::Held(tier, no, code) => {
            held.on_answer(*tier, *no, *code)?;
            Ok(())
        }
        _ => Ok(()),
    }
}

/// The answers that a journal's facts tell, the oldest one first.
pub fn restored_held(member: Member, facts: &[Fact]) -> Result<Held, Memory>
    requires member { IsMember member }
    requires fit { FactsFit member.me.tier 0 facts.now }
    ensures held { IfOk result (λ held. held ≡ held_in member.faults member.me.index (onto facts.now [])) }
    ensures range { IfOk result (IsHeldIn member.faults member.me.index) }
{
    let mut held = Held::new(member.alloc, member.faults, member.me.index);
    for fact in facts {
        hold(&mut held, fact)?;
    }
    Ok(held)
}

/// Rounds are applied while they can be. What they tell was told before.
fn catch_up<S: Service>(
    member: Member,
    svc: &S,
    log: &TierLog<AnyValue>,
    keeping: &mut Keeping,
) -> Result<(), Memory>
    requires member { IsMember member }
    requires kept { IsKeptWell (programs_of (S.table svc.now) (S.beginning svc.now)) member.faults member.me.index
        (mid_with member.me.index log.now.state keeping.old) keeping.old }
    ensures state { OnOk result (mid_with member.me.index log.now.state keeping.new ≡ catch_up (programs_of (S.table svc.now) (S.beginning svc.now))
        (length log.now.state.learned) (mid_with member.me.index log.now.state keeping.old)) }
    ensures range { OnOk result (IsKeptWell (programs_of (S.table svc.now) (S.beginning svc.now)) member.faults member.me.index
        (mid_with member.me.index log.now.state keeping.new) keeping.new) }
{
    for at in 0..log.first_open() {
        match settle_next(member, svc, log, keeping)? {
            Settling::Applied(told) => drop(told),
            Settling::NoAnswer { .. } => return Ok(()),
            Settling::Waits => return Ok(()),
        }
    }
    Ok(())
}

/// What a node keeps beside the restored log, with these answers: the rounds are applied anew that can be, no request
/// waits, and nothing is claimed.
pub fn restored_keeping<S: Service>(
    member: Member,
    svc: &S,
    depth: u8,
    held: Held,
    log: &TierLog<AnyValue>,
) -> Result<Keeping, Memory>
    requires member { IsMember member }
    requires depth { 1 ≤ depth }
    requires log { IsOwnLog member.faults member.me.tier member.me.index log.now }
    requires held { IsHeldIn member.faults member.me.index held }
    ensures state { (facts : List SomeFact) → held ≡ held_in member.faults member.me.index facts → log.now.state ≡ recover member.faults (log_facts facts)
        → IfOk result (λ keeping. mid_with member.me.index log.now.state keeping
        ≡ recovered member.faults (programs_of (S.table svc.now) (S.beginning svc.now)) depth member.me.index facts) }
    ensures range { IfOk result (λ keeping. IsKeptWell (programs_of (S.table svc.now) (S.beginning svc.now)) member.faults member.me.index
        (mid_with member.me.index log.now.state keeping) keeping) }
{
    let mut keeping = Keeping {
        rounds: Applied::new(member.alloc, depth)?,
        pending: Pending::new(),
        tallies: Numbered::new(member.alloc),
        held,
    };
    catch_up(member, svc, log, &mut keeping)?;
    Ok(keeping)
}
