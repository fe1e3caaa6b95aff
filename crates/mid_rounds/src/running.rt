// Work: the next round is applied where its verdict is learned, and else is run.
ghost use Rattle.std.specs.Prelude.{◌≡◌, [], List, ℕ, Some, None, IfOk, IfSome, IsSome, OnOk};
ghost use Rattle.applied_rounds.specs.States.{programs_of};
ghost use Rattle.exec_core.specs.Counts.{one_more};
ghost use Rattle.exec_core.specs.Jobs.{UsesGiven};
ghost use Rattle.node_log.specs.Deciding.{idle_in};
ghost use Rattle.round_model.specs.After.{verdict_at};
ghost use Rattle.tier_model.specs.Mid.{applies, ready};
ghost use Rattle.tier_model.specs.MidRows.{runs_or_not, to_run, work};
ghost use Rattle.mid_rounds.specs.Deciding.{DecidesMove, IsInRange, IsMember, mid_in};
ghost use Rattle.mid_rounds.specs.Settlings.{cause_next, job_next};
ghost use Rattle.mid_rounds.specs.Running.{IsNextRun, note_in, runs_by, steps_of};

use crate::applying::{Settling, settle_next};
use crate::keeping::Keeping;
use crate::rounds_learned::{batch_at, verdict_at};
use crate::telling::{send_token, tell};
use crate::voting::add_vote;
use aeg_base::{Memory, Seq};
use applied_rounds::Applied;
use exec_core::{Exec, Job};
use frames::Outbox;
use log_values::{Token, Verdict};
use node_log::{Decided, Member, Working};
use pipeline::{JobState, Settled};
use svc_api::Service;
use tier_model::{Idle, Turn};

/// What a work does with the next round before its verdict: runs its job, or nothing.
#[derive(Debug, Drop)]
pub enum Next {
    Run(Job),
    Idle(Idle),
}

/// Applies the next round, whose verdict is learned, where it can be.
fn apply_next<S: Service>(
    member: Member,
    svc: &S,
    up: &mut Working<Keeping>,
    out: &mut Outbox,
) -> Result<Decided, Memory>
    requires member { IsMember member }
    requires range { IsInRange (programs_of (S.table svc.now) (S.beginning svc.now)) member up.old }
    ensures { DecidesMove (programs_of (S.table svc.now) (S.beginning svc.now)) member (applies member.faults
        (programs_of (S.table svc.now) (S.beginning svc.now)) member.me.index (mid_in member up.old)
        (ready (programs_of (S.table svc.now) (S.beginning svc.now)) (mid_in member up.old))) up.old up.new out.old out.new result }
{
    match settle_next(member, svc, &up.log, &mut up.rest)? {
        Settling::Applied(told) => {
            tell(member, &told, out)?;
            Ok(Decided::without_facts(member.alloc, Turn::Did))
        }
        Settling::NoAnswer { tier, no } => Ok(idle(member, Idle::NoAnswer { tier, no })),
        Settling::Waits => Ok(idle(member, Idle::Nothing)),
    }
}

/// Nothing is done, for this reason.
fn idle(member: Member, cause: Idle) -> Decided
    ensures facts { result.facts.items ≡ [] }
    ensures answer { result.answer ≡ Turn.Idle cause }
{
    Decided::without_facts(member.alloc, Turn::Idle(cause))
}

/// What a work does with the next round, whose verdict isn't learned.
fn next_job<S: Service>(member: Member, svc: &S, up: &Working<Keeping>) -> Result<Next, Memory>
    requires member { IsMember member }
    requires range { IsInRange (programs_of (S.table svc.now) (S.beginning svc.now)) member up.now }
    ensures job { IfOk result (λ next. IfSome (job_next next) (IsNextRun (programs_of (S.table svc.now) (S.beginning svc.now)) member up.now)) }
    ensures cause { (schedule : List ℕ) → IfOk result (λ next. cause_next next ≡ idle_in (runs_or_not member.faults
        (programs_of (S.table svc.now) (S.beginning svc.now)) member.me.index (mid_in member up.now)
        (to_run member.faults (programs_of (S.table svc.now) (S.beginning svc.now)) member.me.index (mid_in member up.now) schedule)).answer) }
{
    let Some(batch) = batch_at(&up.log, up.rest.rounds.applied()) else {
        return Ok(Next::Idle(Idle::NoBatch));
    };
    if up.rest.rounds.has_run() {
        return Ok(Next::Idle(Idle::Nothing));
    }
    match up.rest.rounds.job(svc, Some(batch), &up.rest.held)? {
        JobState::Ready(job) => Ok(Next::Run(job)),
        JobState::NoBatch => Ok(Next::Idle(Idle::NoBatch)),
        JobState::NoAnswer { tier, no } => Ok(Next::Idle(Idle::NoAnswer { tier, no })),
    }
}

/// A copy of the token of the node's own run.
fn own_token(rounds: &Applied) -> Result<Token, Memory>
    requires { IsSome rounds.now.run }
    ensures { IfOk result (λ token. IfSome rounds.now.run (λ claim. token ≡ claim.token)) }
{
    let Some(token) = rounds.token() else {
        unreachable!()
    };
    token.copy()
}

/// The numbers again.
fn copy_of(order: &Seq<u8>) -> Result<Seq<u8>, Memory>
    ensures { IfOk result (λ copy. copy ≡ order.now) }
{
    let numbers = Vec::from_slice(order.allocator(), order.items())?;
    Ok(Seq::of(numbers))
}

/// Runs the job of the next round. The node's own claim joins the tally, and the others are told.
fn run_next<S: Service, X: Exec<S>>(
    member: Member,
    svc: &S,
    up: &mut Working<Keeping>,
    exec: &mut X,
    job: Job,
    out: &mut Outbox,
) -> Result<Decided, Memory>
    requires member { IsMember member }
    requires range { IsInRange (programs_of (S.table svc.now) (S.beginning svc.now)) member up.old }
    requires job { IsNextRun (programs_of (S.table svc.now) (S.beginning svc.now)) member up.old job }
    ensures told { DecidesMove (programs_of (S.table svc.now) (S.beginning svc.now)) member
        (runs_by (programs_of (S.table svc.now) (S.beginning svc.now)) member (mid_in member up.old) job (steps_of result))
        up.old up.new out.old out.new result }
    ensures given { IfOk result (λ d. UsesGiven (S.beginning svc.now) job.segs up.old.rest.rounds.tables.store (X.given exec.old) (steps_of result)) }
    ensures note { IfOk result (λ d. IsSome (note_in d.answer)) }
    ensures ran { IfOk result (λ d. IfSome (note_in d.answer) (λ note. (X.runs exec.new ≡ one_more (X.runs exec.old))
        × (X.last exec.new ≡ Some (record { round = note.round; steps = note.steps })))) }
    ensures kept { X.given exec.new ≡ X.given exec.old }
{
    let note = up.rest.rounds.run(svc, exec, job)?;
    let token = own_token(&up.rest.rounds)?;
    let _added = add_vote(
        member,
        &mut up.rest.tallies,
        note.round,
        member.me.index,
        &token,
        note.order.items(),
    )?;
    let order = copy_of(&note.order)?;
    send_token(member, note.round, token, order, out)?;
    Ok(Decided::without_facts(member.alloc, Turn::Ran(note)))
}

/// Applies the next round, where its verdict is learned, and else runs it.
pub fn work<S: Service, X: Exec<S>>(
    member: Member,
    svc: &S,
    up: &mut Working<Keeping>,
    exec: &mut X,
    out: &mut Outbox,
) -> Result<Decided, Memory>
    requires member { IsMember member }
    requires range { IsInRange (programs_of (S.table svc.now) (S.beginning svc.now)) member up.old }
    ensures told { DecidesMove (programs_of (S.table svc.now) (S.beginning svc.now)) member
        (work member.faults (programs_of (S.table svc.now) (S.beginning svc.now)) member.me.index (mid_in member up.old) (steps_of result))
        up.old up.new out.old out.new result }
    ensures ran { IfOk result (λ d. IfSome (note_in d.answer) (λ note. (X.runs exec.new ≡ one_more (X.runs exec.old))
        × (X.last exec.new ≡ Some (record { round = note.round; steps = note.steps })))) }
    ensures other { IfOk result (λ d. note_in d.answer ≡ None → exec.new ≡ exec.old) }
    ensures given { (schedule : List ℕ) → X.given exec.old ≡ Some schedule → DecidesMove (programs_of (S.table svc.now) (S.beginning svc.now)) member
        (work member.faults (programs_of (S.table svc.now) (S.beginning svc.now)) member.me.index (mid_in member up.old) schedule)
        up.old up.new out.old out.new result }
    ensures kept { X.given exec.new ≡ X.given exec.old }
{
    if verdict_at(&up.log, up.rest.rounds.applied()).is_some() {
        return apply_next(member, svc, up, out);
    }
    match next_job(member, svc, up)? {
        Next::Idle(cause) => Ok(idle(member, cause)),
        Next::Run(job) => run_next(member, svc, up, exec, job, out),
    }
}

/// Why the next round, whose verdict this is, can't be applied, if it can't.
fn apply_idle<S: Service>(
    member: Member,
    svc: &S,
    up: &Working<Keeping>,
    verdict: &Verdict,
) -> Result<Option<Idle>, Memory>
    requires member { IsMember member }
    requires range { IsInRange (programs_of (S.table svc.now) (S.beginning svc.now)) member up.now }
    requires verdict { Some verdict.now ≡ verdict_at up.now.log.state.learned up.now.rest.rounds.applied }
    ensures { IfOk result (λ cause. cause ≡ idle_in (applies member.faults (programs_of (S.table svc.now) (S.beginning svc.now)) member.me.index
        (mid_in member up.now) (ready (programs_of (S.table svc.now) (S.beginning svc.now)) (mid_in member up.now))).answer) }
{
    let Some(batch) = batch_at(&up.log, up.rest.rounds.applied()) else {
        return Ok(Some(Idle::Nothing));
    };
    match up
        .rest
        .rounds
        .can_apply(svc, batch, verdict, &up.rest.held)?
    {
        Settled::Ready(_) => Ok(None),
        Settled::NoAnswer { tier, no } => Ok(Some(Idle::NoAnswer { tier, no })),
        Settled::Misfit => Ok(Some(Idle::Nothing)),
    }
}

/// Why a work would do nothing, if it would do nothing. Nothing is applied or run for that.
pub fn work_idle<S: Service>(
    member: Member,
    svc: &S,
    up: &Working<Keeping>,
) -> Result<Option<Idle>, Memory>
    requires member { IsMember member }
    requires range { IsInRange (programs_of (S.table svc.now) (S.beginning svc.now)) member up.now }
    ensures { (schedule : List ℕ) → IfOk result (λ cause. cause ≡ idle_in (work member.faults (programs_of (S.table svc.now) (S.beginning svc.now))
        member.me.index (mid_in member up.now) schedule).answer) }
{
    let Some(verdict) = verdict_at(&up.log, up.rest.rounds.applied()) else {
        return match next_job(member, svc, up)? {
            Next::Run(_) => Ok(None),
            Next::Idle(cause) => Ok(Some(cause)),
        };
    };
    apply_idle(member, svc, up, verdict)
}
