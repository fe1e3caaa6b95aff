// What a round tells once it is applied.
ghost use Rattle.std.specs.Prelude.{◌≡◌, ℕ, ◌+◌, ◌<◌, List, ◌∷◌, [], length, map, IfOk, OnOk};
ghost use Rattle.aeg_base.specs.declared.limits.TheConstants.{ROUNDS};
ghost use Rattle.svc_api.specs.declared.action.Ending.{Ending as End};
ghost use Rattle.round_model.specs.Lists.{OfTiers};
ghost use Rattle.round_model.specs.Tables.{Want, next_after, parks};
ghost use Rattle.pipeline.specs.Jobs.{want_of};
ghost use Rattle.pipeline.specs.States.{call_of};
ghost use Rattle.spec_barrier.specs.Barriers.{held_of};
ghost use Rattle.applied_rounds.specs.Told.{tolds};

use aeg_base::{Bytes, CallNo, Memory, ReqId, Tier};
use exec_model::{Job, Seg};
use spec_barrier::Barrier;
use std::alloc::Global;
use std::collections::VecDeque;
use svc_api::Ending;

/// What a round tells: a reply to a client, or a call of a backend.
#[derive(Debug, Drop)]
pub enum Told {
    Reply { who: ReqId, text: Bytes },
    Call { tier: Tier, no: CallNo, text: Bytes },
}

/// What a verdict made of the next round: what it tells, or the call whose answer isn't held, or that a token doesn't
/// fit.
#[derive(Debug, Drop)]
pub enum Applying {
    Applied(Vec<Told>),
    NoAnswer { tier: Tier, no: CallNo },
    Misfit,
}

/// What a segment tells by its end, with the next of these calls where it called.
fn tell_one(
    seg: &Seg,
    ending: &Ending,
    calls: &mut VecDeque<(Tier, CallNo, Bytes)>,
) -> Result<Told, Memory>
    requires { (next : OfTiers ℕ) × (ws : List Want) × (es : List End) × (calls.old.items ≡ map call_of (parks next (want_of seg.now ∷ ws) (ending.now ∷ es))) }
    ensures told { (next : OfTiers ℕ) (ws : List Want) (es : List End) → calls.old.items ≡ map call_of (parks next (want_of seg.now ∷ ws) (ending.now ∷ es))
        → IfOk result (λ told. told ∷ tolds (next_after next (ending.now ∷ [])) ws es ≡ tolds next (want_of seg.now ∷ ws) (ending.now ∷ es)) }
    ensures left { (next : OfTiers ℕ) (ws : List Want) (es : List End) → calls.old.items ≡ map call_of (parks next (want_of seg.now ∷ ws) (ending.now ∷ es))
        → OnOk result (calls.new.items ≡ map call_of (parks (next_after next (ending.now ∷ [])) ws es)) }
{
    match ending {
        Ending::Reply(text) => Ok(Told::Reply {
            who: seg.who,
            text: text.copy()?,
        }),
        Ending::Call { .. } => {
            let Some((tier, no, text)) = calls.pop_front() else {
                unreachable!()
            };
            Ok(Told::Call { tier, no, text })
        }
    }
}

/// What segments tell by their ends, with the calls that they made.
pub fn tell_all(
    alloc: Global,
    segs: &[Seg],
    ends: &[Ending],
    calls: Vec<(Tier, CallNo, Bytes)>,
) -> Result<Vec<Told>, Memory>
    requires each { length ends.now ≡ length segs.now }
    requires calls { (next : OfTiers ℕ) × (calls.items ≡ map call_of (parks next (map want_of segs.now) ends.now)) }
    ensures { (next : OfTiers ℕ) → calls.items ≡ map call_of (parks next (map want_of segs.now) ends.now)
        → IfOk result (λ told. told.items ≡ tolds next (map want_of segs.now) ends.now) }
{
    let mut calls = VecDeque::from(calls);
    let mut told = Vec::new(alloc);
    'segments: for i in 0..segs.len() {
        let one = tell_one(&segs[i], &ends[i], &mut calls)?;
        told.push(one)?;
    }
    Ok(told)
}

/// One more round is applied: what its segments tell by their ends passes the barrier.
pub fn let_out(
    alloc: Global,
    barrier: &mut Barrier<Told>,
    job: &Job,
    ends: &[Ending],
    calls: Vec<(Tier, CallNo, Bytes)>,
) -> Result<Vec<Told>, Memory>
    requires round { barrier.old.applied ≡ job.now.round }
    requires rounds { barrier.old.applied < ROUNDS }
    requires nothing { (r : ℕ) → held_of barrier.old r ≡ [] }
    requires each { length ends.now ≡ length job.now.segs }
    requires calls { (next : OfTiers ℕ) × (calls.items ≡ map call_of (parks next (map want_of job.now.segs) ends.now)) }
    ensures told { (next : OfTiers ℕ) → calls.items ≡ map call_of (parks next (map want_of job.now.segs) ends.now)
        → IfOk result (λ told. told.items ≡ tolds next (map want_of job.now.segs) ends.now) }
    ensures applied { barrier.new.applied ≡ barrier.old.applied + 1 }
    ensures nothing { (r : ℕ) → held_of barrier.new r ≡ [] }
{
    barrier.advance();
    let told = tell_all(alloc, job.segs.items(), ends, calls)?;
    barrier.hold(job.round, told)?;
    Ok(barrier.release(job.round))
}
