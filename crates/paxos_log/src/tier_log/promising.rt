// Leading, and promises.
ghost use Rattle.std.specs.Prelude.{◌≡◌, ◌+◌, ◌*◌, ◌<◌, ◌≤◌, length, OnErr, IfOk};
ghost use Rattle.log_model.specs.Log.{told};
ghost use Rattle.log_model.specs.Rows.{last_counter, lead, leads, promises, on_prepare, on_promise};
ghost use Rattle.paxos_log.specs.Parts.{lead_out};
ghost use Rattle.paxos_log.specs.TierLog.{with_state};

use super::TierLog;
use crate::leading::{begun, take_promise};
use crate::messages::send_each;
use crate::turns::{idle, one, turn};
use aeg_base::limits::MAX_FAULTS;
use aeg_base::{Ballot, Memory, Pos, Value};
use log_model::{Fact, LogIdle, LogTurn, PaxMsg};
use std::alloc::Global;

impl<V: Value> TierLog<V> {
    /// Begins to lead, with a ballot above the promised one.
    pub fn lead(&mut self) -> Result<LogTurn<V>, Memory>
        ensures turn { IfOk result (λ turn. turn ≡ told (lead self.old.faults self.old.me self.old.state)) }
        ensures after { IfOk result (λ _. self.new ≡ with_state self.old (lead self.old.faults self.old.me self.old.state).state) }
        ensures memory { OnErr result (self.new ≡ self.old) }
    {
        let promised = self.acceptor.promised();
        if promised.counter == u32::MAX {
            return Ok(idle(self.alloc, LogIdle::BallotSpent));
        }
        self.begin()
    }

    /// Leads with the next ballot.
    fn begin(&mut self) -> Result<LogTurn<V>, Memory>
        requires { self.old.state.promised.counter < last_counter }
        ensures turn { IfOk result (λ turn. turn ≡ told (leads self.old.faults self.old.me self.old.state)) }
        ensures after { IfOk result (λ _. self.new ≡ with_state self.old (leads self.old.faults self.old.me self.old.state).state) }
        ensures memory { OnErr result (self.new ≡ self.old) }
    {
        let promised = self.acceptor.promised();
        let ballot = Ballot {
            counter: promised.counter + 1,
            node: self.me,
        };
        let at = self.learner.first_open();
        let u = self.learner.faults();
        let best = self.acceptor.report(at)?;
        let out = asked(self.alloc, u, self.me, ballot, at)?;
        self.acceptor.raise(ballot);
        self.leader = Some(begun(u, self.me, ballot, at, best));
        Ok(out)
    }

    pub(crate) fn on_prepare(&mut self, from: u8, b: Ballot, p: Pos) -> Result<LogTurn<V>, Memory>
        ensures turn { IfOk result (λ turn. turn ≡ told (on_prepare self.old.state from b p)) }
        ensures after { IfOk result (λ _. self.new ≡ with_state self.old (on_prepare self.old.state from b p).state) }
        ensures memory { OnErr result (self.new ≡ self.old) }
    {
        if p < self.learner.first_open() {
            return self.tell(from, p);
        }
        let promised = self.acceptor.promised();
        if b.is_at_most(promised) {
            return Ok(idle(self.alloc, LogIdle::Stale { promised }));
        }
        self.promise(from, b, p)
    }

    /// Promises the ballot, which is above the promised one.
    fn promise(&mut self, from: u8, b: Ballot, p: Pos) -> Result<LogTurn<V>, Memory>
        requires { length self.old.state.learned ≤ p }
        ensures turn { IfOk result (λ turn. turn ≡ told (promises self.old.state from b p)) }
        ensures after { IfOk result (λ _. self.new ≡ with_state self.old (promises self.old.state from b p).state) }
        ensures memory { OnErr result (self.new ≡ self.old) }
    {
        let report = self.acceptor.report(p)?;
        let facts = one(self.alloc, Fact::Promised(b))?;
        let sends = one(self.alloc, (from, PaxMsg::Promise(b, p, report)))?;
        self.acceptor.raise(b);
        self.leader = None;
        Ok(turn(facts, sends, None))
    }

    pub(crate) fn on_promise(
        &mut self,
        from: u8,
        b: Ballot,
        p: Pos,
        report: &Option<(Ballot, V)>,
    ) -> Result<LogTurn<V>, Memory>
        requires { from < 2 * self.old.faults + 1 }
        ensures turn { IfOk result (λ turn. turn ≡ told (on_promise self.old.state self.old.state.leader from b p report.now)) }
        ensures after { IfOk result (λ _. self.new ≡ with_state self.old (on_promise self.old.state self.old.state.leader from b p report.now).state) }
        ensures memory { OnErr result (self.new ≡ self.old) }
    {
        if take_promise(&mut self.leader, from, b, p, report)? {
            return Ok(turn(Vec::new(self.alloc), Vec::new(self.alloc), None));
        }
        Ok(idle(self.alloc, LogIdle::Nothing))
    }
}

/// What a leader that begins writes down and sends.
fn asked<V: Value>(alloc: Global, u: u8, me: u8, b: Ballot, p: Pos) -> Result<LogTurn<V>, Memory>
    requires { u ≤ MAX_FAULTS }
    ensures { IfOk result (λ out. out ≡ lead_out u me b p) }
{
    let facts = one(alloc, Fact::Promised(b))?;
    let nodes = 2 * u + 1;
    let mut sends = Vec::with_capacity(alloc, usize::from(nodes))?;
    send_each(&mut sends, nodes, Some(me), &PaxMsg::Prepare(b, p))?;
    Ok(turn(facts, sends, None))
}
