// Learning positions, and telling them.
ghost use Rattle.std.specs.Prelude.{◌≡◌, ◌+◌, ◌*◌, ◌<◌, length, OnErr, IfOk};
ghost use Rattle.aeg_base.specs.declared.limits.TheConstants.{POSITIONS};
ghost use Rattle.log_model.specs.Log.{told};
ghost use Rattle.log_model.specs.Rows.{on_accepted, on_learn, on_ask, learned_turn};
ghost use Rattle.paxos_log.specs.TierLog.{with_state};

use super::TierLog;
use crate::turns::{idle, one, turn};
use aeg_base::{Ballot, Memory, Pos, Value};
use log_model::{Fact, LogIdle, LogTurn, PaxMsg};

impl<V: Value> TierLog<V> {
    pub(crate) fn on_accepted(
        &mut self,
        from: u8,
        b: Ballot,
        p: Pos,
        v: &V,
    ) -> Result<LogTurn<V>, Memory>
        requires sender { from < 2 * self.old.faults + 1 }
        requires place { p < POSITIONS }
        ensures turn { IfOk result (λ turn. turn ≡ told (on_accepted self.old.faults self.old.state from b p v.now)) }
        ensures after { IfOk result (λ _. self.new ≡ with_state self.old (on_accepted self.old.faults self.old.state from b p v.now).state) }
        ensures memory { OnErr result (self.new ≡ self.old) }
    {
        let open = self.learner.first_open();
        if p < open {
            return Ok(idle(self.alloc, LogIdle::Nothing));
        }
        if p > open {
            return Ok(idle(self.alloc, LogIdle::Behind { pos: open }));
        }
        if self.learner.knows(from, b) {
            return Ok(idle(self.alloc, LogIdle::Nothing));
        }
        if self.learner.completes(from, b) {
            return self.learn(p, v, Vec::new(self.alloc));
        }
        self.learner.note(from, b);
        Ok(turn(Vec::new(self.alloc), Vec::new(self.alloc), None))
    }

    pub(crate) fn on_learn(&mut self, from: u8, p: Pos, v: &V) -> Result<LogTurn<V>, Memory>
        requires { p < POSITIONS }
        ensures turn { IfOk result (λ turn. turn ≡ told (on_learn self.old.state from p v.now)) }
        ensures after { IfOk result (λ _. self.new ≡ with_state self.old (on_learn self.old.state from p v.now).state) }
        ensures memory { OnErr result (self.new ≡ self.old) }
    {
        let open = self.learner.first_open();
        if p < open {
            return Ok(idle(self.alloc, LogIdle::Nothing));
        }
        if p > open {
            return Ok(idle(self.alloc, LogIdle::Behind { pos: open }));
        }
        let sends = one(self.alloc, (from, PaxMsg::Ask(p + 1)))?;
        self.learn(p, v, sends)
    }

    /// An Ask or a Behind: it wants the value that is learned there.
    pub(crate) fn on_ask(&mut self, from: u8, p: Pos) -> Result<LogTurn<V>, Memory>
        ensures turn { IfOk result (λ turn. turn ≡ told (on_ask self.old.state from p)) }
        ensures after { IfOk result (λ _. self.new ≡ with_state self.old (on_ask self.old.state from p).state) }
        ensures memory { OnErr result (self.new ≡ self.old) }
    {
        if p < self.learner.first_open() {
            return self.tell(from, p);
        }
        Ok(idle(self.alloc, LogIdle::Nothing))
    }

    /// Learns the value at the open position.
    fn learn(&mut self, p: Pos, v: &V, sends: Vec<(u8, PaxMsg<V>)>) -> Result<LogTurn<V>, Memory>
        requires position { p ≡ length self.old.state.learned }
        requires place { p < POSITIONS }
        ensures turn { IfOk result (λ turn. turn ≡ told (learned_turn self.old.state p v.now sends.items)) }
        ensures after { IfOk result (λ _. self.new ≡ with_state self.old (learned_turn self.old.state p v.now sends.items).state) }
        ensures memory { OnErr result (self.new ≡ self.old) }
    {
        let value = v.copy()?;
        let facts = one(self.alloc, Fact::Learned(p, v.copy()?))?;
        self.learner.learn(value)?;
        self.acceptor.forget();
        Ok(turn(facts, sends, Some(p)))
    }
}
