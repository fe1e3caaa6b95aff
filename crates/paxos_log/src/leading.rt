// What a leader keeps.
ghost use Rattle.std.specs.Prelude.{◌≡◌, ◌+◌, ◌*◌, ◌<◌, ◌≤◌, true, false, length, replicate, slice_set, Some, None, OnOk, OnErr, IfOk, IfSome, option_copied, option_map};
ghost use Rattle.log_model.specs.Log.{is_better};
ghost use Rattle.log_model.specs.Rows.{join, to_offer};
ghost use Rattle.paxos_log.specs.Parts.{takes_promise, after_promise, offered_by};
ghost use Rattle.paxos_log.specs.TierLog.{as_leader, kept, sent};

use aeg_base::limits::MAX_FAULTS;
use aeg_base::{Ballot, Memory, Pos, Value};
use log_model::copy_report;
use paxos_parts::Members;

/// A leader's ballot, the first open position as it began to lead, who has promised, the best report there, and the
/// last position at which it sent a value.
#[derive(Drop)]
pub struct Leading<V> {
    pub ballot: Ballot,
    pub led_at: Pos,
    pub promisers: Members,
    pub best: Option<(Ballot, V)>,
    pub last: Option<Pos>,
}

/// A leader that begins, and has promised itself.
pub fn begun<V: Value>(
    u: u8,
    me: u8,
    ballot: Ballot,
    at: Pos,
    best: Option<(Ballot, V)>,
) -> Leading<V>
    requires few { u ≤ MAX_FAULTS }
    requires node { me < 2 * u + 1 }
    ensures { result ≡ record { ballot = ballot; led_at = at; promisers = slice_set (replicate (2 * u + 1) false) me true; best = best; last = None } }
{
    let mut promisers = Members::new(2 * u + 1);
    promisers.add(me);
    Leading {
        ballot,
        led_at: at,
        promisers,
        best,
        last: None,
    }
}

/// Whether the report has a higher ballot than the best one.
pub fn is_better<V>(report: &Option<(Ballot, V)>, best: &Option<(Ballot, V)>) -> bool
    ensures { result ≡ is_better report.now best.now }
{
    match report {
        None => false,
        Some((ballot, _)) => match best {
            None => true,
            Some((highest, _)) => highest.is_below(*ballot),
        },
    }
}

/// A leader of another ballot stops to lead.
pub fn keep_of_ballot<V: Value>(leader: &mut Option<Leading<V>>, b: Ballot)
    ensures { leader.new ≡ kept leader.old b }
{
    let stops = match leader {
        Some(leader) => !leader.ballot.is_same(b),
        None => false,
    };
    if stops {
        *leader = None;
    }
}

/// The ballot and the value with which a leader offers at the open position.
pub fn value_of<V: Value>(
    leader: &Option<Leading<V>>,
    at: Pos,
    own: Option<&V>,
) -> Result<Option<(Ballot, V)>, Memory>
    ensures { IfOk result (λ offered. offered ≡ offered_by (option_map as_leader leader.now) at (option_copied own.entry)) }
{
    match leader {
        None => Ok(None),
        Some(leader) => match leader.to_offer(at, own)? {
            Some(value) => Ok(Some((leader.ballot, value))),
            None => Ok(None),
        },
    }
}

/// A leader has sent a value at the position.
pub fn note_sent<V: Value>(leader: &mut Option<Leading<V>>, at: Pos)
    ensures { leader.new ≡ sent leader.old at }
{
    match leader {
        None => {}
        Some(leader) => {
            leader.last = Some(at);
        }
    }
}

/// Takes a promise, if there is a leader of its ballot that has sent nothing yet and doesn't have the sender.
pub fn take_promise<V: Value>(
    leader: &mut Option<Leading<V>>,
    from: u8,
    b: Ballot,
    p: Pos,
    report: &Option<(Ballot, V)>,
) -> Result<bool, Memory>
    requires { IfSome leader.old (λ l. from < length l.promisers) }
    ensures taken { IfOk result (λ taken. taken ≡ takes_promise (option_map as_leader leader.old) from b) }
    ensures after { IfOk result (λ _. option_map as_leader leader.new ≡ after_promise (option_map as_leader leader.old) from b p report.now) }
    ensures memory { OnErr result (leader.new ≡ leader.old) }
{
    match leader {
        None => Ok(false),
        Some(leader) => leader.take(from, b, p, report),
    }
}

impl<V: Value> Leading<V> {
    /// Takes a promise of its ballot, if it has sent nothing yet and doesn't have the sender.
    fn take(
        &mut self,
        from: u8,
        b: Ballot,
        p: Pos,
        report: &Option<(Ballot, V)>,
    ) -> Result<bool, Memory>
        requires { from < length self.old.promisers }
        ensures taken { IfOk result (λ taken. taken ≡ takes_promise (Some (as_leader self.old)) from b) }
        ensures after { IfOk result (λ _. Some (as_leader self.new) ≡ after_promise (Some (as_leader self.old)) from b p report.now) }
        ensures memory { OnErr result (self.new ≡ self.old) }
    {
        if self.ballot.is_same(b) && self.last.is_none() && !self.promisers.has(from) {
            self.join(from, p, report)?;
            return Ok(true);
        }
        Ok(false)
    }

    /// A node has promised, and reports what it accepted at `p`.
    pub fn join(&mut self, from: u8, p: Pos, report: &Option<(Ballot, V)>) -> Result<(), Memory>
        requires { from < length self.old.promisers }
        ensures ok { OnOk result (as_leader self.new ≡ join (as_leader self.old) from p report.now) }
        ensures memory { OnErr result (self.new ≡ self.old) }
    {
        if p == self.led_at && is_better(report, &self.best) {
            let best = copy_report(report)?;
            self.best = best;
        }
        self.promisers.add(from);
        Ok(())
    }

    /// The value to offer at the open position.
    pub fn to_offer(&self, at: Pos, own: Option<&V>) -> Result<Option<V>, Memory>
        ensures { IfOk result (λ value. value ≡ to_offer at (as_leader self.now) (option_copied own.entry)) }
    {
        if at == self.led_at {
            if let Some((_, value)) = &self.best {
                let copy = value.copy()?;
                return Ok(Some(copy));
            }
        }
        match own {
            Some(value) => {
                let copy = value.copy()?;
                Ok(Some(copy))
            }
            None => Ok(None),
        }
    }
}
