// The jobs of rounds: a request that calls waits, and goes on once its answer is usable.
ghost use Rattle.std.specs.Prelude.{◌≡◌, List, IfOk};
ghost use Rattle.log_values.specs.declared.entry.Entry.{Entry as FreshEntry};
ghost use Rattle.pipeline.specs.States.{at_first};
ghost use Rattle.pipeline.specs.Jobs.{AreFresh, IsNextJob};

use aeg_base::{Bytes, Memory, Seq, Tier};
use booking::Booking;
use exec_model::Job;
use log_values::{Entry, Token, Verdict};
use pipeline::{JobState, Rounds, Settled};
use resp_durable::Held;
use std::alloc::Global;
use std::process::Abort;
use std::test::*;
use svc_api::Ending;

fn bytes(alloc: Global, text: &[u8]) -> Result<Bytes, Memory> {
    Ok(Bytes::of(Vec::from_slice(alloc, text)?))
}

/// The first request of client 1.
fn first_entries(alloc: Global) -> Result<Vec<Entry>, Memory>
    ensures fresh { IfOk result (λ entries. AreFresh (at_first 1) entries.items) }
{
    let body = bytes(alloc, b"book 1 2")?;
    let mut entries = Vec::new(alloc);
    entries.push(Entry {
        client: 1,
        seq: 1,
        body,
    })?;
    Ok(entries)
}

/// Whether the job is the round's, of one segment with this stage and this answer.
fn has_one(job: &Job, round: u16, stage: u8, answer: Option<u8>) -> bool {
    job.round == round
        && matches!(job.segs.items(), [seg] if seg.stage == stage && seg.answer == answer)
}

/// The text of the call that the request makes.
const CALL: &[u8] = b"reserve 1 2";

/// Whether the request's call is the only one.
fn has_call(calls: &[(Tier, u32, Bytes)]) -> bool {
    matches!(calls, [(tier, number, text)] if *tier == Tier::Inv && *number == 1 && text.items() == CALL)
}

/// The job is run: its one segment calls. Whether that call alone is to be made.
fn parks(alloc: Global, rounds: &mut Rounds, job: &Job) -> Result<bool, Memory>
    requires next { (fresh : List FreshEntry) × IsNextJob rounds.old fresh job.now }
    requires first { rounds.old.next ≡ 0 }
{
    let body = bytes(alloc, CALL)?;
    let ends = [Ending::Call {
        tier: Tier::Inv,
        stage: 1,
        body,
    }];
    if job.segs.items().len() != ends.len() {
        return Ok(false);
    }
    Ok(has_call(&rounds.park(job, &ends)?))
}

/// Whether round 0 runs the request, which calls.
fn runs_first(alloc: Global, rounds: &mut Rounds, held: &Held) -> Result<bool, Memory>
    requires first { rounds.old ≡ at_first 1 }
{
    let entries = first_entries(alloc)?;
    let JobState::Ready(job) = rounds.next_job(Some(&entries), held)? else {
        return Ok(false);
    };
    Ok(has_one(&job, 0, 0, None) && parks(alloc, rounds, &job)?)
}

fn is_parked(rounds: &Rounds) -> Result<bool, Memory> {
    Ok(has_call(&rounds.parked()?))
}

fn waits_for_its_batch(rounds: &Rounds, held: &Held) -> Result<bool, Memory> {
    Ok(matches!(rounds.next_job(None, held)?, JobState::NoBatch))
}

fn with_no_entries(rounds: &Rounds, held: &Held) -> Result<JobState, Memory> {
    rounds.next_job(Some(&[]), held)
}

fn waits_for_its_answer(rounds: &Rounds, held: &Held) -> Result<bool, Memory> {
    let state = with_no_entries(rounds, held)?;
    Ok(matches!(&state, JobState::NoAnswer { tier, no } if *tier == Tier::Inv && *no == 1))
}

/// Whether the request goes on with its answer, in round 1.
fn goes_on(rounds: &Rounds, held: &Held) -> Result<bool, Memory> {
    let state = with_no_entries(rounds, held)?;
    Ok(matches!(&state, JobState::Ready(job) if has_one(job, 1, 1, Some(7))))
}

fn settled(
    alloc: Global,
    rounds: &Rounds,
    verdict: &Verdict,
    held: &Held,
) -> Result<Settled, Memory> {
    rounds.settled_job(&Booking::new(alloc), &[], verdict, held)
}

/// Whether the verdict can be applied to round 1, where the request goes on with this answer.
fn settles(
    alloc: Global,
    rounds: &Rounds,
    verdict: &Verdict,
    held: &Held,
    answer: Option<u8>,
) -> Result<bool, Memory> {
    let settled = settled(alloc, rounds, verdict, held)?;
    Ok(matches!(&settled, Settled::Ready(job) if has_one(job, 1, 1, answer)))
}

/// No pairs, and one reply.
const ONE_REPLY: [u8; 6] = [0, 0, 1, 0, 1, b'k'];

/// No pairs, and no ends.
const NO_ENDS: [u8; 3] = [0, 0, 0];

fn commit(alloc: Global, token: &[u8]) -> Result<Verdict, Memory> {
    let token = Token::of(bytes(alloc, token)?);
    Ok(Verdict::Commit {
        token,
        order: Seq::new(alloc),
    })
}

/// A Commit needs no answer.
fn is_committed(alloc: Global, rounds: &Rounds, held: &Held) -> Result<bool, Memory> {
    let verdict = commit(alloc, &ONE_REPLY)?;
    settles(alloc, rounds, &verdict, held, None)
}

fn is_no_fit(alloc: Global, rounds: &Rounds, held: &Held) -> Result<bool, Memory> {
    let verdict = commit(alloc, &NO_ENDS)?;
    Ok(matches!(settled(alloc, rounds, &verdict, held)?, Settled::Misfit))
}

/// Whether the request waits: for its batch, and for its answer.
fn waits(rounds: &Rounds, held: &Held) -> Result<bool, Memory> {
    Ok(
        is_parked(rounds)?
            && waits_for_its_batch(rounds, held)?
            && waits_for_its_answer(rounds, held)?,
    )
}

/// Whether an answer that is held here alone is enough for a Serial verdict, and for nothing else.
fn is_held(alloc: Global, rounds: &Rounds, held: &mut Held) -> Result<bool, Memory>
    requires { held.old.faults ≡ 1 }
    ensures { held.new.faults ≡ 1 }
{
    held.on_answer(Tier::Inv, 1, 7)?;
    Ok(
        waits_for_its_answer(rounds, held)?
            && settles(alloc, rounds, &Verdict::Serial, held, Some(7))?,
    )
}

/// Whether the request goes on once two of three hold its answer.
fn is_usable(rounds: &Rounds, held: &mut Held) -> Result<bool, Memory>
    requires { held.old.faults ≡ 1 }
{
    held.on_have(1, Tier::Inv, 1, 7)?;
    goes_on(rounds, held)
}

/// Whether the request waits, where only a Commit applies, and goes on with its answer.
fn waits_and_goes_on(alloc: Global, rounds: &Rounds, held: &mut Held) -> Result<bool, Memory>
    requires { held.old.faults ≡ 1 }
{
    Ok(
        waits(rounds, held)?
            && is_committed(alloc, rounds, held)?
            && is_no_fit(alloc, rounds, held)?
            && is_held(alloc, rounds, held)?
            && is_usable(rounds, held)?,
    )
}

fn run(rt: &impl Abort, alloc: Global, rounds: &mut Rounds, held: &mut Held) -> Result<(), Fail>
    requires first { rounds.old ≡ at_first 1 }
    requires three { held.old.faults ≡ 1 }
{
    assert!(rt; runs_first(alloc, rounds, held)?);
    assert!(rt; waits_and_goes_on(alloc, rounds, held)?);
    Ok(())
}

#[test]
fn a_request_waits_for_a_usable_answer(rt: HostRuntime) -> Result<(), Fail> {
    let mut rounds = Rounds::new(rt.alloc(), 1)?;
    run(
        &rt,
        rt.alloc(),
        &mut rounds,
        &mut Held::new(rt.alloc(), 1, 0),
    )
}
