// The facts of a node's log, as a journal has them.
ghost use Rattle.std.specs.Prelude.{◌≡◌, ◌∷◌, ◌++◌, [], map, IfOk, OnOk};
ghost use Rattle.tier_model.specs.Moves.{as_fact, log_facts};

use aeg_base::{Memory, Seq};
use log_values::{AnyValue, Fact};
use paxos_log::Fact as LogFact;
use std::alloc::Global;

/// A fact of the log, as a journal has it.
fn as_fact(fact: LogFact<AnyValue>) -> Fact
    ensures { result ≡ as_fact fact }
{
    match fact {
        LogFact::Promised(b) => Fact::Promised(b),
        LogFact::Accepted(p, b, v) => Fact::Accepted(p, b, v),
        LogFact::Learned(p, v) => Fact::Learned(p, v),
    }
}

/// The facts of a turn of the log, in order.
pub fn facts_of(alloc: Global, facts: Seq<LogFact<AnyValue>>) -> Result<Vec<Fact>, Memory>
    ensures { IfOk result (λ list. list.items ≡ map as_fact facts) }
{
    let facts = facts.into_vec();
    let mut list = Vec::with_capacity(alloc, facts.len())?;
    for fact in facts {
        list.push(as_fact(fact))?;
    }
    Ok(list)
}

/// Adds the fact, where it is one of the log. An answer that is held is none.
fn add(list: &mut Vec<LogFact<AnyValue>>, fact: Fact) -> Result<(), Memory>
    ensures { OnOk result (list.new.items ≡ list.old.items ++ log_facts (fact ∷ [])) }
{
    match fact {
        Fact::Promised(b) => {
            list.push(LogFact::Promised(b))?;
            Ok(())
        }
        Fact::Accepted(p, b, v) => {
            list.push(LogFact::Accepted(p, b, v))?;
            Ok(())
        }
        Fact::Learned(p, v) => {
            list.push(LogFact::Learned(p, v))?;
            Ok(())
        }
        Fact::Held(_, _, _) => Ok(()),
    }
}

/// The facts of the log among a journal's, in order.
pub fn log_facts(alloc: Global, facts: Vec<Fact>) -> Result<Vec<LogFact<AnyValue>>, Memory>
    ensures { IfOk result (λ list. list.items ≡ log_facts facts.items) }
{
    let mut list = Vec::new(alloc);
    for fact in facts {
        add(&mut list, fact)?;
    }
    Ok(list)
}
