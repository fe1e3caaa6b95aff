// The log that a node's journal leaves.
ghost use Rattle.std.specs.Prelude.{◌≡◌, ◌+◌, ◌*◌, ◌<◌, ◌≤◌, IfOk};
ghost use Rattle.fact_journal.specs.Fitting.{FactsFit};
ghost use Rattle.log_model.specs.Recover.{recover};
ghost use Rattle.paxos_log.specs.TierLog.{AreInOrder, new_log, newest_first, with_state};
ghost use Rattle.node_log.specs.LogNodes.{IsOwnLog};
ghost use Rattle.node_log.specs.Restarting.{restored_log};

use crate::facts::log_facts;
use aeg_base::limits::MAX_FAULTS;
use aeg_base::{Memory, NodeId};
use log_values::{AnyValue, Fact};
use paxos_log::{Fact as LogFact, TierLog};
use std::alloc::Global;

/// The log that its own facts leave, the oldest one first.
fn log_from(
    alloc: Global,
    u: u8,
    index: u8,
    facts: &[LogFact<AnyValue>],
) -> Result<TierLog<AnyValue>, Memory>
    requires faults { u ≤ MAX_FAULTS }
    requires node { index < 2 * u + 1 }
    requires order { AreInOrder 0 facts.now }
    ensures { IfOk result (λ log. log ≡ with_state (new_log u index) (recover u (newest_first facts.now))) }
{
    let mut log = TierLog::new(alloc, u, index);
    match log.restore(facts) {
        Ok(()) => Ok(log),
        Err(memory) => Err(memory),
    }
}

/// The log that the facts of a node's journal leave, the oldest one first.
pub fn restored(
    alloc: Global,
    u: u8,
    me: NodeId,
    facts: Vec<Fact>,
) -> Result<TierLog<AnyValue>, Memory>
    requires faults { u ≤ MAX_FAULTS }
    requires node { me.index < 2 * u + 1 }
    requires fit { FactsFit me.tier 0 facts.items }
    ensures log { IfOk result (λ log. log ≡ restored_log u me.index facts.items) }
    ensures own { IfOk result (IsOwnLog u me.tier me.index) }
{
    let facts = log_facts(alloc, facts)?;
    let log = log_from(alloc, u, me.index, &facts);
    drop(facts);
    log
}
