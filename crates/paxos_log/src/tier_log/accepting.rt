// Accepting values.
ghost use Rattle.std.specs.Prelude.{◌≡◌, length, OnErr, IfOk};
ghost use Rattle.log_model.specs.Log.{told, says};
ghost use Rattle.log_model.specs.Rows.{on_accept, accepts, says_again};
ghost use Rattle.paxos_log.specs.TierLog.{with_state};

use super::TierLog;
use crate::leading::keep_of_ballot;
use crate::messages::send_each;
use crate::turns::{idle, one, turn};
use aeg_base::{Ballot, Memory, Pos, Value};
use log_model::{Fact, LogIdle, LogTurn, PaxMsg};

impl<V: Value> TierLog<V> {
    pub(crate) fn on_accept(
        &mut self,
        from: u8,
        b: Ballot,
        p: Pos,
        v: &V,
    ) -> Result<LogTurn<V>, Memory>
        ensures turn { IfOk result (λ turn. turn ≡ told (on_accept self.old.faults self.old.state from b p v.now)) }
        ensures after { IfOk result (λ _. self.new ≡ with_state self.old (on_accept self.old.faults self.old.state from b p v.now).state) }
        ensures memory { OnErr result (self.new ≡ self.old) }
    {
        let open = self.learner.first_open();
        if p < open {
            return self.tell(from, p);
        }
        if p > open {
            let sends = one(self.alloc, (from, PaxMsg::Behind(open)))?;
            return Ok(turn(Vec::new(self.alloc), sends, None));
        }
        let promised = self.acceptor.promised();
        if b.is_below(promised) {
            return Ok(idle(self.alloc, LogIdle::Stale { promised }));
        }
        if self.acceptor.has_voted(b, open) {
            return self.say_again(b, p);
        }
        self.accept(b, p, v)
    }

    /// Tells all again what was accepted at the position.
    fn say_again(&self, b: Ballot, p: Pos) -> Result<LogTurn<V>, Memory>
        ensures { IfOk result (λ turn. turn ≡ told (says self.now.state (says_again self.now.faults b p self.now.state.accepted))) }
    {
        let nodes = 2 * self.learner.faults() + 1;
        let mut sends = Vec::new(self.alloc);
        if let Some((_, value)) = self.acceptor.report(self.learner.first_open())? {
            send_each(&mut sends, nodes, None, &PaxMsg::Accepted(b, p, value))?;
            return Ok(turn(Vec::new(self.alloc), sends, None));
        }
        Ok(turn(Vec::new(self.alloc), sends, None))
    }

    /// Accepts the value at the open position.
    fn accept(&mut self, b: Ballot, p: Pos, v: &V) -> Result<LogTurn<V>, Memory>
        requires { p ≡ length self.old.state.learned }
        ensures turn { IfOk result (λ turn. turn ≡ told (accepts self.old.faults self.old.state b p v.now)) }
        ensures after { IfOk result (λ _. self.new ≡ with_state self.old (accepts self.old.faults self.old.state b p v.now).state) }
        ensures memory { OnErr result (self.new ≡ self.old) }
    {
        let nodes = 2 * self.learner.faults() + 1;
        let value = v.copy()?;
        let facts = one(self.alloc, Fact::Accepted(p, b, v.copy()?))?;
        let mut sends = Vec::new(self.alloc);
        send_each(&mut sends, nodes, None, &PaxMsg::Accepted(b, p, v.copy()?))?;
        keep_of_ballot(&mut self.leader, b);
        self.acceptor.vote(b, p, value);
        Ok(turn(facts, sends, None))
    }
}
