// Runs of the booking service before they are agreed, and what verdicts make of them.
ghost use Rattle.std.specs.Prelude.{◌≡◌, ◌≤◌, IfOk, length};
ghost use Rattle.std.specs.List.{All};
ghost use Rattle.exec_core.specs.Jobs.{BeginsWell};
ghost use Rattle.rollback.specs.Settled.{Reads, IsReadable};
ghost use Rattle.rollback.specs.Runs.{AreNumbers, WasRun};
ghost use Rattle.rollback.specs.Specs.{IsLeftBy};
ghost use Rattle.rollback.specs.Views.{job_of as its_job, ran_of, token_of};

use crate::booking_jobs::{
    BOOKS, BOTH_HELD, FIRST_WINS, SECOND_WINS, Turns, are_same, job_of, linked, run_asks, schedule,
};
use crate::runs_by_schedule::tells;
use aeg_base::Seq;
use booking::Booking;
use exec_core::{Job, Ran, run_by};
use kv_store::Store;
use log_values::{Token, Verdict};
use rollback::{Spec, settle_cold};
use std::alloc::Global;
use std::test::Fail;
use svc_api::{Ending, Outcome, Service};

/// Runs a job by a schedule, before any verdict.
fn run_made<S: Service>(
    alloc: Global,
    svc: &S,
    job: &Job,
    items: Turns,
    store: &mut Store,
) -> Result<Ran, Fail>
    requires begins { All (BeginsWell (S.beginning svc.now)) job.now.segs }
    requires few { length job.now.segs ≤ 32 }
    requires numbers { AreNumbers store.old.map }
    ensures was { IfOk result (WasRun job.now) }
    ensures left { IfOk result (λ ran. IsLeftBy ran store.new) }
{
    let by = schedule(alloc, items)?;
    let ran = run_by(alloc, svc, job, &by, store)?;
    Ok(ran)
}

fn begun(alloc: Global, job: Job, ran: Ran) -> Result<Spec, Fail>
    requires { WasRun job ran }
    ensures ran { IfOk result (λ spec. ran_of spec ≡ ran) }
    ensures reads { IfOk result (λ spec. Reads (token_of spec) (length job.segs)) }
    ensures job { IfOk result (λ spec. its_job spec ≡ job) }
{
    match Spec::begin(alloc, job, ran) {
        Ok(spec) => Ok(spec),
        Err(_) => Err("no memory".into()),
    }
}

/// Takes over a job that is run by a schedule.
fn speculate<S: Service>(
    alloc: Global,
    svc: &S,
    job: Job,
    items: Turns,
    store: &mut Store,
) -> Result<Spec, Fail>
    requires begins { All (BeginsWell (S.beginning svc.now)) job.segs }
    requires few { length job.segs ≤ 32 }
    requires numbers { AreNumbers store.old.map }
    ensures left { IfOk result (λ spec. IsLeftBy (ran_of spec) store.new) }
    ensures reads { IfOk result (λ spec. Reads (token_of spec) (length job.segs)) }
    ensures job { IfOk result (λ spec. its_job spec ≡ job) }
{
    let ran = run_made(alloc, svc, &job, items, store)?;
    begun(alloc, job, ran)
}

/// Takes over both bookings that are run by a schedule.
fn booked<S: Service>(alloc: Global, svc: &S, by: Turns, store: &mut Store) -> Result<Spec, Fail>
    requires { AreNumbers store.old.map }
    ensures left { IfOk result (λ spec. IsLeftBy (ran_of spec) store.new) }
    ensures reads { IfOk result (λ spec. Reads (token_of spec) 2) }
    ensures begins { IfOk result (λ spec. All (BeginsWell (S.beginning svc.now)) (its_job spec).segs) }
    ensures two { IfOk result (λ spec. length (its_job spec).segs ≡ 2) }
{
    let job = job_of(alloc, svc, &BOOKS)?;
    speculate(alloc, svc, job, by, store)
}

fn committed(alloc: Global, token: Token) -> Result<Verdict, Fail>
    requires { Reads token 2 }
    ensures { IfOk result (λ verdict. IsReadable verdict 2) }
{
    let order = Seq::of(vec![in alloc; 0u8, 1]?);
    Ok(Verdict::Commit { token, order })
}

/// The Commit of a run's own token.
fn own_commit(alloc: Global, spec: &Spec) -> Result<Verdict, Fail>
    requires { Reads (token_of spec.now) 2 }
    ensures { IfOk result (λ verdict. IsReadable verdict 2) }
{
    committed(alloc, spec.token().copy()?)
}

/// The Commit of the run in which the first booking gets the seat.
fn commit<S: Service>(alloc: Global, svc: &S, store: &mut Store) -> Result<Verdict, Fail>
    requires { AreNumbers store.old.map }
    ensures { IfOk result (λ verdict. IsReadable verdict 2) }
{
    let spec = booked(alloc, svc, FIRST_WINS, store)?;
    own_commit(alloc, &spec)
}

/// What was agreed on, and the store that it leaves.
#[derive(Drop)]
struct Agreement {
    verdict: Verdict,
    store: Store,
}

fn agreed<S: Service>(alloc: Global, svc: &S) -> Result<Agreement, Fail>
    ensures { IfOk result (λ agreed. IsReadable agreed.verdict 2) }
{
    let mut store = linked(alloc, svc)?;
    let verdict = commit(alloc, svc, &mut store)?;
    Ok(Agreement { verdict, store })
}

/// The store that both bookings leave.
fn left_by<S: Service>(alloc: Global, svc: &S, by: Turns) -> Result<Store, Fail> {
    let mut store = linked(alloc, svc)?;
    booked(alloc, svc, by, &mut store)?;
    Ok(store)
}

/// Whether both bookings leave this store.
fn is_left_by<S: Service>(alloc: Global, svc: &S, by: Turns, store: &Store) -> Result<bool, Fail> {
    let here = left_by(alloc, svc, by)?;
    are_same(&here, store)
}

#[test]
fn turns_that_differ_leave_other_stores(rt: HostRuntime) -> Result<(), Fail> {
    let svc = Booking::new(rt.alloc());
    let store = left_by(rt.alloc(), &svc, FIRST_WINS)?;
    assert!(rt; !is_left_by(rt.alloc(), &svc, SECOND_WINS, &store)?);
    Ok(())
}

/// Runs both bookings and settles the run by a verdict.
fn settle<S: Service>(
    alloc: Global,
    svc: &S,
    by: Turns,
    verdict: &Verdict,
    store: &mut Store,
) -> Result<Outcome, Fail>
    requires numbers { AreNumbers store.old.map }
    requires verdict { IsReadable verdict.now 2 }
{
    let spec = booked(alloc, svc, by, store)?;
    let outcome = spec.settle(svc, verdict, store)?;
    Ok(outcome)
}

/// Whether a run that is settled so leaves what was agreed on.
fn comes_to<S: Service>(
    alloc: Global,
    svc: &S,
    by: Turns,
    verdict: &Verdict,
    store: &Store,
) -> Result<bool, Fail>
    requires { IsReadable verdict.now 2 }
{
    let mut here = linked(alloc, svc)?;
    settle(alloc, svc, by, verdict, &mut here)?;
    are_same(&here, store)
}

/// The outcome that is left where the second booking's run meets a verdict.
fn replaced<S: Service>(alloc: Global, svc: &S, verdict: &Verdict) -> Result<Outcome, Fail>
    requires { IsReadable verdict.now 2 }
{
    let mut here = linked(alloc, svc)?;
    settle(alloc, svc, SECOND_WINS, verdict, &mut here)
}

/// Whether that outcome refuses the second booking.
fn is_refused<S: Service>(alloc: Global, svc: &S, verdict: &Verdict) -> Result<bool, Fail>
    requires { IsReadable verdict.now 2 }
{
    let outcome = replaced(alloc, svc, verdict)?;
    Ok(tells(&outcome, 1, "refused 5 LinkFull"))
}

#[test]
fn a_commit_replaces_another_run(rt: HostRuntime) -> Result<(), Fail> {
    let svc = Booking::new(rt.alloc());
    let agreed = agreed(rt.alloc(), &svc)?;
    assert!(rt;
        comes_to(
            rt.alloc(),
            &svc,
            SECOND_WINS,
            &agreed.verdict,
            &agreed.store
        )?
    );
    assert!(rt; is_refused(rt.alloc(), &svc, &agreed.verdict)?);
    Ok(())
}

#[test]
fn serial_replaces_another_run(rt: HostRuntime) -> Result<(), Fail> {
    let svc = Booking::new(rt.alloc());
    let store = left_by(rt.alloc(), &svc, FIRST_WINS)?;
    assert!(rt; comes_to(rt.alloc(), &svc, SECOND_WINS, &Verdict::Serial, &store)?);
    Ok(())
}

/// One of these bookings is run again.
#[test]
fn a_run_with_the_agreed_token_is_kept(rt: HostRuntime) -> Result<(), Fail> {
    let svc = Booking::new(rt.alloc());
    let agreed = agreed(rt.alloc(), &svc)?;
    assert!(rt; comes_to(rt.alloc(), &svc, BOTH_HELD, &agreed.verdict, &agreed.store)?);
    Ok(())
}

fn text_room(ending: Ending) -> usize {
    match ending {
        Ending::Reply(text) => text.into_vec().capacity(),
        Ending::Call { body, .. } => body.into_vec().capacity(),
    }
}

/// The room that the texts of an outcome take. One that was read from a token has no more than its texts; one that a run
/// made has what was left when they were written.
fn room_of(outcome: Outcome) -> usize {
    let mut room: usize = 0;
    for ending in outcome.ends.into_vec() {
        room = room.saturating_add(text_room(ending));
    }
    room
}

/// Settles a run by the Commit of its own token.
fn own_settled<S: Service>(alloc: Global, svc: &S, store: &mut Store) -> Result<Outcome, Fail>
    requires { AreNumbers store.old.map }
{
    let spec = booked(alloc, svc, &[], store)?;
    let verdict = own_commit(alloc, &spec)?;
    let outcome = spec.settle(svc, &verdict, store)?;
    Ok(outcome)
}

/// The room of the outcome that a run makes.
fn made_room<S: Service>(alloc: Global, svc: &S) -> Result<usize, Fail> {
    let mut here = linked(alloc, svc)?;
    let ran = run_asks(alloc, svc, &BOOKS, &[], &mut here)?;
    Ok(room_of(ran.outcome))
}

/// The room of the outcome that is left where such a run is settled by its own token.
fn kept_room<S: Service>(alloc: Global, svc: &S) -> Result<usize, Fail> {
    let mut here = linked(alloc, svc)?;
    let outcome = own_settled(alloc, svc, &mut here)?;
    Ok(room_of(outcome))
}

/// The room of the outcome that is left where another run meets the Commit of such a run.
fn told_room<S: Service>(alloc: Global, svc: &S) -> Result<usize, Fail> {
    let agreed = agreed(alloc, svc)?;
    let outcome = replaced(alloc, svc, &agreed.verdict)?;
    Ok(room_of(outcome))
}

#[test]
fn a_kept_run_is_not_made_again(rt: HostRuntime) -> Result<(), Fail> {
    let svc = Booking::new(rt.alloc());
    let made = made_room(rt.alloc(), &svc)?;
    assert!(rt; kept_room(rt.alloc(), &svc)? == made);
    assert!(rt; told_room(rt.alloc(), &svc)? != made);
    Ok(())
}

/// Applies a verdict at a node that has not run the round.
fn settle_at_once<S: Service>(
    alloc: Global,
    svc: &S,
    verdict: &Verdict,
    store: &mut Store,
) -> Result<Outcome, Fail>
    requires { IsReadable verdict.now 2 }
{
    let job = job_of(alloc, svc, &BOOKS)?;
    let outcome = settle_cold(alloc, svc, &job, verdict, store)?;
    Ok(outcome)
}

/// Whether a node that has not run the round comes to what was agreed on.
fn comes_at_once_to<S: Service>(
    alloc: Global,
    svc: &S,
    verdict: &Verdict,
    store: &Store,
) -> Result<bool, Fail>
    requires { IsReadable verdict.now 2 }
{
    let mut here = linked(alloc, svc)?;
    settle_at_once(alloc, svc, verdict, &mut here)?;
    are_same(&here, store)
}

#[test]
fn a_node_without_a_run_takes_the_verdict(rt: HostRuntime) -> Result<(), Fail> {
    let svc = Booking::new(rt.alloc());
    let agreed = agreed(rt.alloc(), &svc)?;
    assert!(rt; comes_at_once_to(rt.alloc(), &svc, &agreed.verdict, &agreed.store)?);
    assert!(rt; comes_at_once_to(rt.alloc(), &svc, &Verdict::Serial, &agreed.store)?);
    Ok(())
}

/// Runs both bookings on a store and drops the run; whether the run changed the store, and it is as before afterwards.
fn changes_and_restores<S: Service>(
    alloc: Global,
    svc: &S,
    store: &mut Store,
    before: &Store,
) -> Result<bool, Fail>
    requires { AreNumbers store.old.map }
{
    let spec = booked(alloc, svc, SECOND_WINS, store)?;
    let changed = !are_same(store, before)?;
    spec.drop_all(store);
    Ok(changed && are_same(store, before)?)
}

#[test]
fn dropping_a_run_restores_the_start(rt: HostRuntime) -> Result<(), Fail> {
    let svc = Booking::new(rt.alloc());
    let before = linked(rt.alloc(), &svc)?;
    let mut store = before.copy()?;
    assert!(rt; changes_and_restores(rt.alloc(), &svc, &mut store, &before)?);
    Ok(())
}
