// What a node takes from its disk.
ghost use Rattle.std.specs.Prelude.{◌≡◌, ◌∷◌, ◌++◌, [], IfOk, OnOk};
ghost use Rattle.tier_model.specs.Moves.{log_facts};
ghost use Rattle.world.specs.Restoring.{as_fault, as_opening_fault, leaves_doubt};
ghost use Rattle.world.specs.Parts.{list_found};

use aeg_base::Memory;
use fact_journal::{AppendErr, OpenErr};
use log_values::{AnyValue, Fact};
use paxos_log::Fact as LogFact;
use std::alloc::Global;
use tier_model::Fault;

/// Why a node went down, where its record was not written.
pub fn fault_of(error: AppendErr) -> Fault
    ensures { result ≡ as_fault error }
{
    match error {
        AppendErr::Disk => Fault::Disk,
        AppendErr::Full { len } => Fault::JournalFull { len },
        AppendErr::Memory => Fault::Memory,
    }
}

/// Whether its disk may have the record all the same.
pub fn leaves_doubt(error: AppendErr) -> bool
    ensures { result ≡ leaves_doubt error }
{
    matches!(error, AppendErr::Disk)
}

/// Why a node stays down, where its journal was not opened.
pub fn opening_fault(error: OpenErr) -> Fault
    ensures { result ≡ as_opening_fault error }
{
    match error {
        OpenErr::Disk => Fault::Disk,
        OpenErr::BadRecord { at } => Fault::BadRecord { at },
        OpenErr::Memory => Fault::Memory,
    }
}

/// Which of the lists that a disk may stand for was read, by its number: the second is longer than what the node knew.
pub fn list_found(doubt: bool, known: u64, found: u64) -> u8
    ensures { result ≡ list_found doubt known found }
{
    if doubt && known < found {
        return 1;
    }
    0
}

/// Adds the fact, where it is one of the log. An answer that is held is none.
fn add(list: &mut Vec<LogFact<AnyValue>>, fact: Fact) -> Result<(), Memory>
    ensures { OnOk result (list.new.items ≡ list.old.items ++ log_facts (fact ∷ [])) }
{
    match fact {
        Fact::Promised(b) => {
            list.push(LogFact::Promised(b))?;
            Ok(())
        }
        Fact::Accepted(p, b, v) => {
            list.push(LogFact::Accepted(p, b, v))?;
            Ok(())
        }
        Fact::Learned(p, v) => {
            list.push(LogFact::Learned(p, v))?;
            Ok(())
        }
        Fact::Held(_, _, _) => Ok(()),
    }
}

/// The facts of the log among a journal's, in order.
pub fn log_facts(alloc: Global, facts: Vec<Fact>) -> Result<Vec<LogFact<AnyValue>>, Memory>
    ensures { IfOk result (λ list. list.items ≡ log_facts facts.items) }
{
    let mut list = Vec::new(alloc);
    for fact in facts {
        add(&mut list, fact)?;
    }
    Ok(list)
}
