// The rounds of a node, and the job of the next one.
ghost use Rattle.std.specs.Prelude.{◌≡◌, ℕ, ◌<◌, ◌≤◌, List, [], map, length, replicate, is_none, IsTrue, None, IsSome, IfOk, IfSome, OnOk, OnErr};
ghost use Rattle.std.specs.List.{All};
ghost use Rattle.log_values.specs.declared.entry.Entry.{Entry as FreshEntry};
ghost use Rattle.aeg_base.specs.declared.names.Tier.{Tier as SomeTier};
ghost use Rattle.round_model.specs.Lists.{and_then, concat, head_of, is_some};
ghost use Rattle.round_model.specs.Numbered.{rises};
ghost use Rattle.round_model.specs.Held.{usable, held_code};
ghost use Rattle.round_model.specs.Service.{Programs};
ghost use Rattle.round_model.specs.Settling.{finish_of};
ghost use Rattle.round_model.specs.Tables.{Tables, parks};
ghost use Rattle.pipeline.specs.States.{at_first, by_tier, call_of, calling, moved_on, next_wants, numbered};
ghost use Rattle.pipeline.specs.Kept.{IsInRange};
ghost use Rattle.pipeline.specs.Jobs.{AreFresh, IsAsked, IsNextJob, is_serial, job_with, lacks, misfits, next_job, next_missing, read, told};
ghost use Rattle.pipeline.specs.Answers.{codes_of, has_no_batch, is_misfit, job_in, job_settled, missing_in, missing_settled, settled_of, state_of};

use crate::answers::Known;
use crate::calls::{calls_of, put_calls_to};
use crate::fit::fits;
use crate::numbers::Numbers;
use crate::parked::Parked;
use crate::parking::park_all;
use crate::segments::segments;
use aeg_base::limits::ROUNDS;
use aeg_base::{Bytes, CallNo, Memory, Round, Seq, Tier};
use exec_model::Job;
use log_values::{Entry, Verdict};
use resp_durable::Held;
use std::alloc::Global;
use std::collections::VecDeque;
use std::marker::Model;
use svc_api::{Ending, Service};

/// Whether the next round can run: its job, or what it lacks.
#[derive(Debug, Drop)]
pub enum JobState {
    Ready(Job),
    NoBatch,
    NoAnswer { tier: Tier, no: CallNo },
}

/// Whether a verdict can be applied to the next round: its job, or what it lacks.
#[derive(Debug, Drop)]
pub enum Settled {
    Ready(Job),
    NoAnswer { tier: Tier, no: CallNo },
    Misfit,
}

/// The next round, the requests that wait for their calls, and the next numbers of calls. A request that a round parked
/// is resumed so many rounds later as the depth says.
#[derive(Debug, Drop)]
pub struct Rounds {
    alloc: Global,
    next: Round,
    queue: VecDeque<Seq<Parked>>,
    numbers: Numbers,
}

impl Model for Rounds {
    ghost use Rattle.pipeline.specs.States.{RoundsState};
    ghost use Rattle.pipeline.specs.Kept.{IsInRange};

    ghost Value = { RoundsState };

    ghost view = { λ r. record { next = r.next; queue = r.queue.items; numbers = r.numbers } };

    ghost invariant = { λ r. IsInRange (record { next = r.next; queue = r.queue.items; numbers = r.numbers }) };
}

impl Rounds {
    /// Round 0 comes next, and none waits.
    pub fn new(alloc: Global, depth: u8) -> Result<Rounds, Memory>
        requires deep { 1 ≤ depth }
        ensures first { IfOk result (λ rounds. rounds ≡ at_first depth) }
    {
        Ok(Rounds {
            alloc,
            next: 0,
            queue: empty_lists(alloc, depth)?,
            numbers: Numbers::first(),
        })
    }

    // The requests that wait longest.
    fn oldest(&self) -> &[Parked]
        ensures oldest { result.now ≡ head_of self.now.queue }
        ensures range { IsInRange self.now }
    {
        match self.queue.front() {
            Some(parked) => parked.items(),
            None => &[],
        }
    }

    // The next round's job, with what answers count.
    fn job(&self, fresh: &[Entry], known: Known, held: &Held) -> Result<Job, Memory>
        ensures job { IfOk result (λ job. job ≡ job_with self.now (codes_of known held.now) fresh.now) }
    {
        let segs = segments(self.alloc, self.oldest(), fresh, known, held)?;
        Ok(Job {
            round: self.next,
            segs,
        })
    }

    // Whether the next round can run, all at once.
    fn job_state(&self, fresh: Option<&[Entry]>, held: &Held) -> Result<JobState, Memory>
        ensures state { IfOk result (λ state. state ≡ state_of self.now (usable held.now) (read fresh.entry)) }
        ensures memory { OnErr result (IsSome (job_in (state_of self.now (usable held.now) (read fresh.entry)))) }
        ensures range { IfOk result (λ state. IfSome (job_in state) (λ job. IsInRange self.now)) }
    {
        let Some(fresh) = fresh else {
            return Ok(JobState::NoBatch);
        };
        match Known::Usable.first_missing(self.oldest(), held) {
            Some((tier, no)) => Ok(JobState::NoAnswer { tier, no }),
            None => {
                let job = self.job(fresh, Known::Usable, held)?;
                Ok(JobState::Ready(job))
            }
        }
    }

    /// The next round's job, where its batch is learned and each answer is usable: held here, and known to be held by more
    /// than u replicas.
    pub fn next_job(&self, fresh: Option<&[Entry]>, held: &Held) -> Result<JobState, Memory>
        requires fresh { IfSome fresh (λ es. AreFresh self.now es.now) }
        ensures job { IfOk result (λ state. job_in state ≡ and_then (read fresh.entry) (next_job self.now (usable held.now))) }
        ensures no_answer { IfOk result (λ state. missing_in state ≡ and_then (read fresh.entry) (next_missing self.now (usable held.now))) }
        ensures memory { OnErr result (IsSome (and_then (read fresh.entry) (next_job self.now (usable held.now)))) }
        ensures no_batch { IfOk result (λ state. has_no_batch state ≡ is_none fresh.entry) }
        ensures next { IfOk result (λ state. IfSome (job_in state) (λ job. IfSome fresh.entry (λ es. IsNextJob self.now es.now job))) }
        ensures few { IfOk result (λ state. IfSome (job_in state) (λ job. length job.segs ≤ 16)) }
        ensures requests { IfOk result (λ state. IfSome (job_in state) (λ job. All IsAsked job.segs)) }
    {
        self.job_state(fresh, held)
    }

    // What the verdict makes of the next round, all at once.
    fn settle<S: Service>(
        &self,
        svc: &S,
        fresh: &[Entry],
        verdict: &Verdict,
        held: &Held,
    ) -> Result<Settled, Memory>
        requires fresh { AreFresh self.now fresh.now }
        ensures settled { IfOk result (λ settled. settled ≡ settled_of (S.table svc.now) self.now (held_code held.now) fresh.now verdict.now) }
        ensures memory { OnErr result (lacks (held_code held.now) (next_wants self.now fresh.now) verdict.now ≡ None) }
        ensures range { IfOk result (λ settled. IfSome (job_settled settled) (λ job. IsInRange self.now)) }
    {
        match verdict {
            Verdict::Commit { token, .. } => {
                let job = self.job(fresh, Known::Held, held)?;
                if !fits(self.alloc, svc, job.segs.items(), token)? {
                    return Ok(Settled::Misfit);
                }
                Ok(Settled::Ready(job))
            }
            Verdict::Serial => match Known::Held.first_missing(self.oldest(), held) {
                Some((tier, no)) => Ok(Settled::NoAnswer { tier, no }),
                None => {
                    let job = self.job(fresh, Known::Held, held)?;
                    Ok(Settled::Ready(job))
                }
            },
        }
    }

    /// The next round's job for its verdict, each segment with its answer where that is held. A Commit doesn't fit where its
    /// token tells no outcome with one end for each segment, or where a call among the ends has no stage at which its
    /// request goes on; it needs no answer. A Serial needs all of them.
    pub fn settled_job<S: Service>(
        &self,
        svc: &S,
        fresh: &[Entry],
        verdict: &Verdict,
        held: &Held,
    ) -> Result<Settled, Memory>
        requires fresh { AreFresh self.now fresh.now }
        ensures job { IfOk result (λ settled. IfSome (job_settled settled) (λ job. job ≡ job_with self.now (held_code held.now) fresh.now)) }
        ensures serial { IsTrue (is_serial verdict.now) → IfOk result (λ settled. job_settled settled ≡ next_job self.now (held_code held.now) fresh.now) }
        ensures no_answer { IfOk result (λ settled. missing_settled settled ≡ lacks (held_code held.now) (next_wants self.now fresh.now) verdict.now) }
        ensures memory { OnErr result (lacks (held_code held.now) (next_wants self.now fresh.now) verdict.now ≡ None) }
        ensures misfit { (m : Programs) → m.table ≡ S.table svc.now → m.read ≡ told
            → IfOk result (λ settled. is_misfit settled ≡ misfits m (next_wants self.now fresh.now) verdict.now) }
        ensures ready { (m : Programs) (T : Tables) → m.table ≡ S.table svc.now → m.read ≡ told
            → IfOk result (λ settled. is_some (job_settled settled)
            ≡ is_some (finish_of m (held_code held.now) (next_wants self.now fresh.now) T verdict.now)) }
        ensures next { IfOk result (λ settled. IfSome (job_settled settled) (IsNextJob self.now fresh.now)) }
        ensures few { IfOk result (λ settled. IfSome (job_settled settled) (λ job. length job.segs ≤ 16)) }
        ensures requests { IfOk result (λ settled. IfSome (job_settled settled) (λ job. All IsAsked job.segs)) }
    {
        self.settle(svc, fresh, verdict, held)
    }

    /// Parks the requests of the next round whose segments called, and goes on to the round after it. Answers the calls
    /// with their numbers, in job order.
    pub fn park(&mut self, job: &Job, ends: &[Ending]) -> Result<Vec<(Tier, CallNo, Bytes)>, Memory>
        requires next { (fresh : List FreshEntry) × IsNextJob self.old fresh job.now }
        requires rounds { self.old.next < ROUNDS }
        requires each { length ends.now ≡ length job.now.segs }
        ensures ok { (fresh : List FreshEntry) → IsNextJob self.old fresh job.now
            → OnOk result (self.new ≡ moved_on self.old (next_wants self.old fresh) ends.now) }
        ensures calls { (fresh : List FreshEntry) → IsNextJob self.old fresh job.now
            → IfOk result (λ calls. calls.items ≡ map call_of (parks self.old.numbers (next_wants self.old fresh) ends.now)) }
        ensures err { OnErr result (self.new ≡ self.old) }
    {
        let mut numbers = self.numbers;
        let parked = park_all(self.alloc, &mut numbers, job.segs.items(), ends)?;
        let calls = calls_of(self.alloc, parked.items())?;
        self.queue.push_back(parked)?;
        self.queue.pop_front();
        self.numbers = numbers;
        self.next += 1;
        Ok(calls)
    }

    /// The calls of the requests that wait, by tier, then number.
    pub fn parked(&self) -> Result<Vec<(Tier, CallNo, Bytes)>, Memory>
        ensures calls { IfOk result (λ calls. calls.items ≡ map call_of (by_tier (concat self.now.queue))) }
        ensures rise { (t : SomeTier) → IsTrue (rises 1 (numbered (calling t (concat self.now.queue)))) }
    {
        let mut calls = Vec::new(self.alloc);
        put_calls_to(Tier::Mid, &self.queue, &mut calls)?;
        put_calls_to(Tier::Inv, &self.queue, &mut calls)?;
        put_calls_to(Tier::Pay, &self.queue, &mut calls)?;
        Ok(calls)
    }
}

fn empty_lists(alloc: Global, depth: u8) -> Result<VecDeque<Seq<Parked>>, Memory>
    ensures empty { IfOk result (λ queue. queue.items ≡ replicate depth []) }
{
    let mut queue = VecDeque::new(alloc);
    for _ in 0..depth {
        queue.push_back(Seq::new(alloc))?;
    }
    Ok(queue)
}
