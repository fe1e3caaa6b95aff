// What a node decided, before it is written down.
ghost use Rattle.std.specs.Prelude.{◌≡◌, ◌≤◌, ◌++◌, [], map, OnOk, IfOk};
ghost use Rattle.std.specs.List.{AllByRecursion};
ghost use Rattle.frames.specs.LogMessages.{FitsLog};
ghost use Rattle.tier_model.specs.Moves.{as_fact, log_answer, log_packets};
ghost use Rattle.node_log.specs.Packets.{all_sealed, StillHas};

use crate::answers::answer_of;
use crate::facts::facts_of;
use crate::sending::send_log;
use aeg_base::{Memory, NodeId};
use frames::{Outbox, Refused};
use log_values::format::LAST_INDEX;
use log_values::{AnyValue, Fact};
use paxos_log::LogTurn;
use std::alloc::Global;
use tier_model::Turn;

/// The facts to write down, and the answer to give then. The packets stand in the outbox.
#[derive(Drop)]
pub struct Decided {
    pub facts: Vec<Fact>,
    pub answer: Turn,
}

impl Decided {
    /// Nothing is to be written down.
    pub fn without_facts(alloc: Global, answer: Turn) -> Self
        ensures facts { result.facts.items ≡ [] }
        ensures answer { result.answer ≡ answer }
    {
        Decided {
            facts: Vec::new(alloc),
            answer,
        }
    }

    /// A frame that the node refuses by this rule, after it was read.
    pub fn refused(alloc: Global, rule: u8) -> Self
        ensures facts { result.facts.items ≡ [] }
        ensures answer { result.answer ≡ Turn.Dropped (Refused.Row rule) }
    {
        Decided::without_facts(alloc, Turn::Dropped(Refused::Row(rule)))
    }
}

/// What a turn of the node's log alone comes to.
pub fn decide_turn(
    alloc: Global,
    me: NodeId,
    turn: LogTurn<AnyValue>,
    out: &mut Outbox,
) -> Result<Decided, Memory>
    requires node { me.index ≤ LAST_INDEX }
    requires fit { AllByRecursion (λ send. FitsLog me.tier send.1) turn.sends }
    ensures facts { IfOk result (λ d. d.facts.items ≡ map as_fact turn.facts) }
    ensures answer { IfOk result (λ d. d.answer ≡ log_answer turn.idle) }
    ensures sent { OnOk result (out.new ≡ out.old ++ all_sealed (log_packets me.tier me.index turn.sends)) }
    ensures kept { StillHas out.old out.new }
{
    let facts = facts_of(alloc, turn.facts)?;
    send_log(alloc, me, turn.sends, out)?;
    Ok(Decided {
        facts,
        answer: answer_of(turn.idle),
    })
}
