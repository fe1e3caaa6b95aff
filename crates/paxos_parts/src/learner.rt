// A learner of one log.
ghost use Rattle.std.specs.Prelude.{◌≡◌, ◌↔◌, ℕ, ◌+◌, ◌*◌, ◌<◌, ◌≤◌, length, nat_lt, slice_get, OnOk, OnErr, IfOk, IsTrue, option_copied};
ghost use Rattle.log_model.specs.Log.{is_from, seen_at};
ghost use Rattle.paxos_parts.specs.Learner.{LearnerState, no_news, completes, notes, learns, hears};

use crate::Seen;
use aeg_base::limits::{MAX_FAULTS, POSITIONS};
use aeg_base::{Ballot, Memory, Pos, Value};
use std::alloc::Global;
use std::marker::Model;

/// Learns one position after the other, as soon as a majority has accepted a value there with one ballot.
#[derive(Drop)]
pub struct Learner<V> {
    faults: u8,
    learned: Vec<V>,
    seen: Seen,
}

impl<V> Model for Learner<V> {
    ghost use Rattle.std.specs.Prelude.{◌≡◌, ◌+◌, ◌*◌, ◌≤◌, length};
    ghost use Rattle.aeg_base.specs.declared.limits.TheConstants.{POSITIONS};
    ghost use Rattle.paxos_parts.specs.Learner.{LearnerState};

    ghost Value = { LearnerState V };

    ghost view = { λ l. record { faults = l.faults; learned = l.learned.items; seen = l.seen } };

    ghost invariant = { λ l. (l.faults ≤ 2) × (length l.seen ≡ 2 * l.faults + 1) × (length l.learned.items ≤ POSITIONS) };
}

impl<V: Value> Learner<V> {
    /// The learner of a node in a tier of 2u+1.
    pub fn new(alloc: Global, u: u8) -> Self
        requires { u ≤ MAX_FAULTS }
        ensures { result ≡ no_news u }
    {
        Learner {
            faults: u,
            learned: Vec::new(alloc),
            seen: Seen::new(2 * u + 1),
        }
    }

    /// The number u of the tier of 2u+1 nodes.
    pub fn faults(&self) -> u8
        ensures number { result ≡ self.now.faults }
        ensures few { self.now.faults ≤ MAX_FAULTS }
    {
        self.faults
    }

    pub fn first_open(&self) -> Pos
        ensures position { result ≡ length self.now.learned }
        ensures within { result ≤ POSITIONS }
    {
        self.learned.len() as u16
    }

    pub fn learned(&self, p: Pos) -> Option<&V>
        ensures { option_copied result ≡ slice_get self.now.learned p }
    {
        self.learned.get(p as usize)
    }

    /// Whether the node is known to have accepted with this ballot or a higher one.
    pub fn knows(&self, from: u8, b: Ballot) -> bool
        requires { from < 2 * self.now.faults + 1 }
        ensures { result ≡ is_from b (seen_at self.now.seen from) }
    {
        match self.seen.at(from) {
            Some(seen) => b.is_at_most(seen),
            None => false,
        }
    }

    /// Whether a majority has accepted with the ballot, once this node has.
    pub fn completes(&self, from: u8, b: Ballot) -> bool
        requires { from < 2 * self.now.faults + 1 }
        ensures { result ≡ completes self.now from b }
    {
        self.seen.with(from, b).count(b) > self.faults
    }

    /// The node has accepted with the ballot.
    pub fn note(&mut self, from: u8, b: Ballot)
        requires { from < 2 * self.old.faults + 1 }
        ensures { self.new ≡ notes self.old from b }
    {
        self.seen = self.seen.with(from, b);
    }

    /// Learns the first open position.
    pub fn learn(&mut self, value: V) -> Result<(), Memory>
        requires { length self.old.learned < POSITIONS }
        ensures ok { OnOk result (self.new ≡ learns self.old value) }
        ensures memory { OnErr result (self.new ≡ self.old) }
    {
        self.learned.push(value)?;
        self.seen = Seen::new(2 * self.faults + 1);
        Ok(())
    }

    /// Hears of an Accepted. True where a position was learned.
    pub fn accepted(&mut self, from: u8, b: Ballot, p: Pos, v: &V) -> Result<bool, Memory>
        requires sender { from < 2 * self.old.faults + 1 }
        requires position { p < POSITIONS }
        ensures after { IfOk result (λ _. self.new ≡ hears self.old from b p v.now) }
        ensures grew { IfOk result (λ grew. IsTrue grew ↔ (length self.old.learned < length self.new.learned)) }
        ensures memory { OnErr result (self.new ≡ self.old) }
    {
        if p != self.first_open() || self.knows(from, b) {
            return Ok(false);
        }
        if !self.completes(from, b) {
            self.note(from, b);
            return Ok(false);
        }
        let value = v.copy()?;
        self.learn(value)?;
        Ok(true)
    }
}
