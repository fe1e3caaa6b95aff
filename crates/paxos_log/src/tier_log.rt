// One node's log.
ghost use Rattle.std.specs.Prelude.{◌≡◌, ℕ, ◌+◌, ◌*◌, ◌<◌, ◌≤◌, [], length, slice_get, OnErr, IfOk, option_copied};
ghost use Rattle.log_model.specs.Log.{told};
ghost use Rattle.log_model.specs.Rows.{tell, wants, on_msg};
ghost use Rattle.log_model.specs.Recover.{recover};
ghost use Rattle.paxos_log.specs.TierLog.{NodeLog, with_state, new_log, HasPlace, AreInOrder, newest_first};

mod accepting;
mod learning;
mod offering;
mod promising;

use crate::leading::Leading;
use crate::restoring::{restored_acceptor, restored_learner};
use crate::turns::{one, turn};
use aeg_base::limits::{MAX_FAULTS, POSITIONS};
use aeg_base::{Memory, Pos, Value};
use log_model::{Fact, LogTurn, Offering, PaxMsg};
use paxos_parts::{Acceptor, Learner};
use std::alloc::Global;
use std::marker::Model;

/// The log of one node of a tier: acceptor, learner and, at times, leader.
#[derive(Drop)]
pub struct TierLog<V> {
    alloc: Global,
    me: u8,
    acceptor: Acceptor<V>,
    learner: Learner<V>,
    leader: Option<Leading<V>>,
}

impl<V> Model for TierLog<V> {
    ghost use Rattle.std.specs.Prelude.{◌+◌, ◌*◌, ◌<◌};
    ghost use Rattle.paxos_log.specs.TierLog.{NodeLog, joined, IsLed, IsOpen};

    ghost Value = { NodeLog V };

    ghost view = { λ l. record { faults = l.learner.faults; me = l.me; state = joined l.acceptor l.learner l.leader } };

    ghost invariant = { λ l. (l.me < 2 * l.learner.faults + 1) × IsLed l.acceptor l.learner l.leader × IsOpen l.acceptor l.learner };
}

impl<V: Value> TierLog<V> {
    /// The log of the node `me` in a tier of 2u+1.
    pub fn new(alloc: Global, u: u8, me: u8) -> Self
        requires faults { u ≤ MAX_FAULTS }
        requires node { me < 2 * u + 1 }
        ensures { result ≡ new_log u me }
    {
        TierLog {
            alloc,
            me,
            acceptor: Acceptor::new(),
            learner: Learner::new(alloc, u),
            leader: None,
        }
    }

    pub fn learned(&self, p: Pos) -> Option<&V>
        ensures { option_copied result ≡ slice_get self.now.state.learned p }
    {
        self.learner.learned(p)
    }

    pub fn first_open(&self) -> Pos
        ensures position { result ≡ length self.now.state.learned }
        ensures within { result ≤ POSITIONS }
    {
        self.learner.first_open()
    }

    /// What a message of another node, or its own, does.
    pub fn on_msg(&mut self, from: u8, msg: &PaxMsg<V>) -> Result<LogTurn<V>, Memory>
        requires sender { from < 2 * self.old.faults + 1 }
        requires place { HasPlace msg.now }
        ensures turn { IfOk result (λ turn. turn ≡ told (on_msg self.old.faults self.old.state from msg.now)) }
        ensures after { IfOk result (λ _. self.new ≡ with_state self.old (on_msg self.old.faults self.old.state from msg.now).state) }
        ensures memory { OnErr result (self.new ≡ self.old) }
    {
        match msg {
            PaxMsg::Prepare(b, p) => self.on_prepare(from, *b, *p),
            PaxMsg::Promise(b, p, report) => self.on_promise(from, *b, *p, report),
            PaxMsg::Accept(b, p, v) => self.on_accept(from, *b, *p, v),
            PaxMsg::Accepted(b, p, v) => self.on_accepted(from, *b, *p, v),
            PaxMsg::Ask(p) => self.on_ask(from, *p),
            PaxMsg::Learn(p, v) => self.on_learn(from, *p, v),
            PaxMsg::Behind(p) => self.on_ask(from, *p),
        }
    }

    /// Restores what these facts leave, the oldest one first. The log is as `new` made it.
    pub fn restore(&mut self, facts: &[Fact<V>]) -> Result<(), Memory>
        requires fresh { self.old.state ≡ recover self.old.faults [] }
        requires order { AreInOrder 0 facts.now }
        ensures after { IfOk result (λ _. self.new ≡ with_state self.old (recover self.old.faults (newest_first facts.now))) }
        ensures memory { OnErr result (self.new ≡ self.old) }
    {
        let learner = restored_learner(self.alloc, self.learner.faults(), facts)?;
        let acceptor = restored_acceptor(facts, learner.first_open())?;
        self.learner = learner;
        self.acceptor = acceptor;
        self.leader = None;
        Ok(())
    }

    /// Tells the node the value that is learned there.
    fn tell(&self, to: u8, p: Pos) -> Result<LogTurn<V>, Memory>
        ensures { IfOk result (λ turn. turn ≡ told (tell self.now.state to p)) }
    {
        match self.learner.learned(p) {
            None => Ok(turn(Vec::new(self.alloc), Vec::new(self.alloc), None)),
            Some(value) => {
                let copy = value.copy()?;
                let sends = one(self.alloc, (to, PaxMsg::Learn(p, copy)))?;
                Ok(turn(Vec::new(self.alloc), sends, None))
            }
        }
    }
}
