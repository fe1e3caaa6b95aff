// An acceptor of one log.
ghost use Rattle.std.specs.Prelude.{◌≡◌, OnErr, IfOk, None};
ghost use Rattle.log_model.specs.Log.{has_ballot};
ghost use Rattle.paxos_parts.specs.Acceptor.{AcceptorState, no_promise, voted_at, prepared, raised, after_prepare, weighed, voted, after_accept};

use crate::{Acceptance, Prepared, Vote};
use aeg_base::{Ballot, Memory, Pos, Value};
use std::marker::Model;

/// Promises ballots, and accepts values at positions.
#[derive(Drop)]
pub struct Acceptor<V> {
    promised: Ballot,
    vote: Option<Vote<V>>,
}

impl<V> Model for Acceptor<V> {
    ghost use Rattle.paxos_parts.specs.Acceptor.{AcceptorState};

    ghost Value = { AcceptorState V };

    ghost view = { λ a. record { promised = a.promised; vote = a.vote } };
}

impl<V: Value> Acceptor<V> {
    pub fn new() -> Self
        ensures { result ≡ no_promise }
    {
        Acceptor {
            promised: Ballot {
                counter: 0,
                node: 0,
            },
            vote: None,
        }
    }

    /// The acceptor that a restart restores.
    pub fn restored(promised: Ballot, vote: Option<Vote<V>>) -> Self
        ensures { result ≡ record { promised = promised; vote = vote } }
    {
        Acceptor { promised, vote }
    }

    pub fn promised(&self) -> Ballot
        ensures { result ≡ self.now.promised }
    {
        self.promised
    }

    /// What was accepted at the position.
    pub fn report(&self, p: Pos) -> Result<Option<(Ballot, V)>, Memory>
        ensures { IfOk result (λ report. report ≡ voted_at self.now.vote p) }
    {
        match &self.vote {
            Some(vote) if vote.at == p => {
                let value = vote.value.copy()?;
                Ok(Some((vote.ballot, value)))
            }
            _ => Ok(None),
        }
    }

    /// What it would answer to a Prepare.
    pub fn answer(&self, b: Ballot, p: Pos) -> Result<Prepared<V>, Memory>
        ensures { IfOk result (λ answer. answer ≡ prepared self.now b p) }
    {
        if b.is_at_most(self.promised) {
            return Ok(Prepared::Stale(self.promised));
        }
        let report = self.report(p)?;
        Ok(Prepared::Promised(report))
    }

    /// Promises the ballot.
    pub fn raise(&mut self, b: Ballot)
        ensures { self.new ≡ raised self.old b }
    {
        self.promised = b;
    }

    pub fn prepare(&mut self, b: Ballot, p: Pos) -> Result<Prepared<V>, Memory>
        ensures answer { IfOk result (λ answer. answer ≡ prepared self.old b p) }
        ensures after { IfOk result (λ _. self.new ≡ after_prepare self.old b) }
        ensures memory { OnErr result (self.new ≡ self.old) }
    {
        let answer = self.answer(b, p)?;
        if !b.is_at_most(self.promised) {
            self.raise(b);
        }
        Ok(answer)
    }

    /// Whether it accepted at the position with this ballot.
    pub fn has_voted(&self, b: Ballot, p: Pos) -> bool
        ensures { result ≡ has_ballot b (voted_at self.now.vote p) }
    {
        match &self.vote {
            Some(vote) if vote.at == p => vote.ballot.is_same(b),
            _ => false,
        }
    }

    /// What it would answer to an Accept.
    pub fn weigh(&self, b: Ballot, p: Pos) -> Acceptance
        ensures { result ≡ weighed self.now b p }
    {
        if b.is_below(self.promised) {
            return Acceptance::Stale(self.promised);
        }
        if self.has_voted(b, p) {
            return Acceptance::Again;
        }
        Acceptance::Accepted
    }

    /// Accepts the value, and promises its ballot.
    pub fn vote(&mut self, b: Ballot, p: Pos, value: V)
        ensures { self.new ≡ voted b p value }
    {
        self.promised = b;
        self.vote = Some(Vote {
            at: p,
            ballot: b,
            value,
        });
    }

    pub fn accept(&mut self, b: Ballot, p: Pos, v: &V) -> Result<Acceptance, Memory>
        ensures answer { IfOk result (λ answer. answer ≡ weighed self.old b p) }
        ensures after { IfOk result (λ _. self.new ≡ after_accept self.old b p v.now) }
        ensures memory { OnErr result (self.new ≡ self.old) }
    {
        let answer = self.weigh(b, p);
        if let Acceptance::Accepted = answer {
            let value = v.copy()?;
            self.vote(b, p, value);
        }
        Ok(answer)
    }

    /// Forgets what was accepted, since its position is learned.
    pub fn forget(&mut self)
        ensures { self.new ≡ record { promised = self.old.promised; vote = None } }
    {
        self.vote = None;
    }
}
