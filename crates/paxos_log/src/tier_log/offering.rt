// Offers of a leader.
ghost use Rattle.std.specs.Prelude.{◌≡◌, ◌≤◌, OnErr, IfOk, option_copied};
ghost use Rattle.log_model.specs.Log.{told};
ghost use Rattle.log_model.specs.Rows.{wants, offer};
ghost use Rattle.paxos_log.specs.Parts.{offer_out};
ghost use Rattle.paxos_log.specs.TierLog.{with_state, CanOffer};

use super::TierLog;
use crate::leading::{note_sent, value_of};
use crate::messages::send_each;
use crate::turns::{one, turn};
use aeg_base::limits::{MAX_FAULTS, POSITIONS};
use aeg_base::{Ballot, Memory, Pos, Value};
use log_model::{Fact, LogTurn, Offering, PaxMsg};
use std::alloc::Global;

impl<V: Value> TierLog<V> {
    /// What it would offer as a leader, or why it offers nothing.
    pub fn wants(&self) -> Offering
        ensures { result ≡ wants self.now.faults self.now.state }
    {
        let leader = match &self.leader {
            None => return Offering::NotLeader,
            Some(leader) => leader,
        };
        let have = leader.promisers.count();
        if have <= self.learner.faults() {
            return Offering::NoPromises { have };
        }
        let open = self.learner.first_open();
        if open == POSITIONS {
            return Offering::LogFull;
        }
        if leader.last == Some(open) {
            return Offering::InFlight { pos: open };
        }
        if open == leader.led_at && leader.best.is_some() {
            return Offering::Taken;
        }
        Offering::Free { pos: open }
    }

    /// Offers the reported value or, where none was reported, its own.
    pub fn offer(&mut self, own: Option<&V>) -> Result<LogTurn<V>, Memory>
        requires { CanOffer (wants self.old.faults self.old.state) (option_copied own) }
        ensures turn { IfOk result (λ turn. turn ≡ told (offer self.old.faults self.old.me self.old.state (option_copied own.entry))) }
        ensures after { IfOk result (λ _. self.new ≡ with_state self.old (offer self.old.faults self.old.me self.old.state (option_copied own.entry)).state) }
        ensures memory { OnErr result (self.new ≡ self.old) }
    {
        let at = self.learner.first_open();
        let (ballot, value) = match value_of(&self.leader, at, own)? {
            Some(offered) => offered,
            None => unreachable!(),
        };
        let out = offered(
            self.alloc,
            self.learner.faults(),
            self.me,
            ballot,
            at,
            &value,
        )?;
        note_sent(&mut self.leader, at);
        self.acceptor.vote(ballot, at, value);
        Ok(out)
    }
}

/// What an offer of the value writes down and sends.
fn offered<V: Value>(
    alloc: Global,
    u: u8,
    me: u8,
    b: Ballot,
    p: Pos,
    v: &V,
) -> Result<LogTurn<V>, Memory>
    requires { u ≤ MAX_FAULTS }
    ensures { IfOk result (λ out. out ≡ offer_out u me b p v.now) }
{
    let nodes = 2 * u + 1;
    let facts = one(alloc, Fact::Accepted(p, b, v.copy()?))?;
    let mut sends = Vec::with_capacity(alloc, 2 * usize::from(nodes))?;
    send_each(
        &mut sends,
        nodes,
        Some(me),
        &PaxMsg::Accept(b, p, v.copy()?),
    )?;
    send_each(&mut sends, nodes, None, &PaxMsg::Accepted(b, p, v.copy()?))?;
    Ok(turn(facts, sends, None))
}
