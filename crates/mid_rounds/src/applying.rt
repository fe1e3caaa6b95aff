// The next round is applied.
ghost use Rattle.std.specs.Prelude.{◌≡◌, IfOk, OnOk};
ghost use Rattle.applied_rounds.specs.States.{programs_of};
ghost use Rattle.node_log.specs.Deciding.{idle_in};
ghost use Rattle.tier_model.specs.Mid.{applies, apply_state, ready};
ghost use Rattle.mid_rounds.specs.Mids.{mid_with};
ghost use Rattle.mid_rounds.specs.Deciding.{IsKeptWell, IsMember};
ghost use Rattle.mid_rounds.specs.Settlings.{settling_cause, tells_of, told_by};

use crate::keeping::Keeping;
use crate::rounds_learned::{batch_at, verdict_at};
use aeg_base::{CallNo, Memory, Tier};
use applied_rounds::{Applying, Told};
use log_values::AnyValue;
use node_log::Member;
use paxos_log::TierLog;
use svc_api::Service;

/// What became of the next round: what it tells once it is applied; the call whose answer a Serial lacks; or that its
/// batch or its verdict isn't learned, or its Commit doesn't fit.
#[derive(Debug, Drop)]
pub enum Settling {
    Applied(Vec<Told>),
    NoAnswer { tier: Tier, no: CallNo },
    Waits,
}

/// Applies the next round, where it can be.
pub fn settle_next<S: Service>(
    member: Member,
    svc: &S,
    log: &TierLog<AnyValue>,
    keeping: &mut Keeping,
) -> Result<Settling, Memory>
    requires member { IsMember member }
    requires kept { IsKeptWell (programs_of (S.table svc.now) (S.beginning svc.now)) member.faults member.me.index
        (mid_with member.me.index log.now.state keeping.old) keeping.old }
    ensures state { OnOk result (mid_with member.me.index log.now.state keeping.new ≡ apply_state (mid_with member.me.index log.now.state keeping.old)
        (ready (programs_of (S.table svc.now) (S.beginning svc.now)) (mid_with member.me.index log.now.state keeping.old))) }
    ensures told { IfOk result (λ settling. told_by settling ≡ tells_of (mid_with member.me.index log.now.state keeping.old)
        (ready (programs_of (S.table svc.now) (S.beginning svc.now)) (mid_with member.me.index log.now.state keeping.old))) }
    ensures cause { IfOk result (λ settling. settling_cause settling ≡ idle_in (applies member.faults (programs_of (S.table svc.now) (S.beginning svc.now))
        member.me.index (mid_with member.me.index log.now.state keeping.old)
        (ready (programs_of (S.table svc.now) (S.beginning svc.now)) (mid_with member.me.index log.now.state keeping.old))).answer) }
    ensures range { OnOk result (IsKeptWell (programs_of (S.table svc.now) (S.beginning svc.now)) member.faults member.me.index
        (mid_with member.me.index log.now.state keeping.new) keeping.new) }
{
    let round = keeping.rounds.applied();
    let Some(batch) = batch_at(log, round) else {
        return Ok(Settling::Waits);
    };
    let Some(verdict) = verdict_at(log, round) else {
        return Ok(Settling::Waits);
    };
    match keeping.rounds.apply(svc, batch, verdict, &keeping.held)? {
        Applying::Applied(told) => {
            keeping.pending.drop_done(keeping.rounds.clients());
            keeping.tallies.take_out(u32::from(round));
            Ok(Settling::Applied(told))
        }
        Applying::NoAnswer { tier, no } => Ok(Settling::NoAnswer { tier, no }),
        Applying::Misfit => Ok(Settling::Waits),
    }
}
