// The messages of Paxos.
ghost use Rattle.std.specs.Prelude.{◌≡◌, IfOk};

use aeg_base::{Ballot, Memory, Pos, Value};

/// A message of one node of a tier to another, after Lamport, Paxos Made Simple. A promise reports what its sender
/// accepted at the position. `Ask` wants the value learned at a position; `Behind` tells the sender's first open
/// position.
#[derive(Debug, Drop, PartialEq)]
pub enum PaxMsg<V> {
    Prepare(Ballot, Pos),
    Promise(Ballot, Pos, Option<(Ballot, V)>),
    Accept(Ballot, Pos, V),
    Accepted(Ballot, Pos, V),
    Ask(Pos),
    Learn(Pos, V),
    Behind(Pos),
}

/// What a promise reports, again.
pub fn copy_report<V: Value>(report: &Option<(Ballot, V)>) -> Result<Option<(Ballot, V)>, Memory>
    ensures { IfOk result (λ copy. copy ≡ report.now) }
{
    match report {
        None => Ok(None),
        Some((ballot, value)) => {
            let copy = value.copy()?;
            Ok(Some((*ballot, copy)))
        }
    }
}

impl<V: Value> PaxMsg<V> {
    /// The same message again.
    #[inline(always)]
    pub fn copy(&self) -> Result<Self, Memory>
        ensures { IfOk result (λ copy. copy ≡ self.now) }
    {
        match self {
            PaxMsg::Prepare(b, p) => Ok(PaxMsg::Prepare(*b, *p)),
            PaxMsg::Promise(b, p, report) => {
                let copy = copy_report(report)?;
                Ok(PaxMsg::Promise(*b, *p, copy))
            }
            PaxMsg::Accept(b, p, v) => {
                let copy = v.copy()?;
                Ok(PaxMsg::Accept(*b, *p, copy))
            }
            PaxMsg::Accepted(b, p, v) => {
                let copy = v.copy()?;
                Ok(PaxMsg::Accepted(*b, *p, copy))
            }
            PaxMsg::Ask(p) => Ok(PaxMsg::Ask(*p)),
            PaxMsg::Learn(p, v) => {
                let copy = v.copy()?;
                Ok(PaxMsg::Learn(*p, copy))
            }
            PaxMsg::Behind(p) => Ok(PaxMsg::Behind(*p)),
        }
    }
}
