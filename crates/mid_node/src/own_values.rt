// What a leading middle node offers of its own, and why it has nothing to offer.
ghost use Rattle.std.specs.Prelude.{◌≡◌, ◌≤◌, IfOk};
ghost use Rattle.aeg_base.specs.declared.limits.TheConstants.{ROUNDS};
ghost use Rattle.applied_rounds.specs.States.{programs_of};
ghost use Rattle.log_model.specs.Log.{open_at};
ghost use Rattle.round_model.specs.Lists.{half, odd};
ghost use Rattle.round_model.specs.Service.{Programs};
ghost use Rattle.round_model.specs.Verdicts.{claims_in, how_many};
ghost use Rattle.tier_model.specs.MidRows.{own_batch, own_cause, own_value, own_verdict};
ghost use Rattle.mid_rounds.specs.Deciding.{IsInRange, IsMember, mid_in};

use aeg_base::{Memory, Round, Seq};
use log_values::{AnyValue, MidValue};
use mid_rounds::Keeping;
use node_log::{Member, Working};
use svc_api::Service;
use tier_model::Idle;

/// The verdict of the round that enough tokens give.
fn own_verdict(
    member: Member,
    up: &Working<Keeping>,
    round: Round,
) -> Result<Option<AnyValue>, Memory>
    requires member { IsMember member }
    requires range { (p : Programs) × IsInRange p member up.now }
    ensures { IfOk result (λ own. own ≡ own_verdict member.faults (mid_in member up.now) round) }
{
    let Some(tally) = up.rest.tallies.find(u32::from(round)) else {
        return Ok(None);
    };
    match tally.verdict()? {
        None => Ok(None),
        Some(verdict) => Ok(Some(AnyValue::Mid(MidValue::Verdict(verdict)))),
    }
}

/// The batch of the round, once the rounds before are applied, where a request is fresh or one waits for its call.
fn own_batch<S: Service>(
    member: Member,
    svc: &S,
    up: &Working<Keeping>,
    round: Round,
) -> Result<Option<AnyValue>, Memory>
    requires member { IsMember member }
    requires range { IsInRange (programs_of (S.table svc.now) (S.beginning svc.now)) member up.now }
    ensures { IfOk result (λ own. own ≡ own_batch (programs_of (S.table svc.now) (S.beginning svc.now)) (mid_in member up.now) round) }
{
    if up.rest.rounds.applied() < round {
        return Ok(None);
    }
    let batch = up.rest.rounds.batch(svc, &up.rest.pending)?;
    if batch.is_empty() && !up.rest.rounds.waits() {
        return Ok(None);
    }
    Ok(Some(AnyValue::Mid(MidValue::Batch(Seq::of(batch)))))
}

/// The node's own value for the first open position: a batch where it is even, and else a verdict.
pub fn own_value<S: Service>(
    member: Member,
    svc: &S,
    up: &Working<Keeping>,
) -> Result<Option<AnyValue>, Memory>
    requires member { IsMember member }
    requires range { IsInRange (programs_of (S.table svc.now) (S.beginning svc.now)) member up.now }
    ensures { IfOk result (λ own. own ≡ own_value member.faults (programs_of (S.table svc.now) (S.beginning svc.now)) (mid_in member up.now)) }
{
    let open = up.log.first_open();
    if open % 2 == 1 {
        return own_verdict(member, up, open / 2);
    }
    own_batch(member, svc, up, open / 2)
}

/// How many tokens of the round are in.
fn tokens_in(member: Member, up: &Working<Keeping>, round: Round) -> u8
    requires member { IsMember member }
    requires range { (p : Programs) × IsInRange p member up.now }
    ensures { result ≡ how_many member.faults (claims_in (mid_in member up.now).tally round) }
{
    match up.rest.tallies.find(u32::from(round)) {
        None => 0,
        Some(tally) => tally.have(),
    }
}

/// Why the node has no value of its own for the first open position.
pub fn own_cause(member: Member, up: &Working<Keeping>) -> Idle
    requires member { IsMember member }
    requires range { (p : Programs) × IsInRange p member up.now }
    ensures { result ≡ own_cause member.faults (mid_in member up.now) }
{
    let open = up.log.first_open();
    let applied = up.rest.rounds.applied();
    if open % 2 == 1 {
        return Idle::NoTokens {
            have: tokens_in(member, up, open / 2),
        };
    }
    if applied < open / 2 {
        return Idle::Unapplied { round: applied };
    }
    Idle::Nothing
}
