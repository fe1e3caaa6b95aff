// What a node decided is written down.
ghost use Rattle.std.specs.Prelude.{◌≡◌, List, IfOk, OnOk, OnErr, true};
ghost use Rattle.aeg_disk.specs.Disk.{Later};
ghost use Rattle.fact_journal.specs.Standing.{HasFacts};
ghost use Rattle.log_values.specs.declared.fact.Fact.{Fact};
ghost use Rattle.node_log.specs.Settling.{CanRecord, Records};
ghost use Rattle.node_log.specs.Views.{Wrote, MayHaveWritten, HasCause};

use crate::decided::Decided;
use crate::faults::fault_of;
use aeg_base::Memory;
use aeg_disk::Disk;
use fact_journal::FactJournal;
use log_values::{Fact, Record};
use tier_model::{Fault, Turn};

/// Writes the facts down as one record.
fn append<D: Disk>(journal: &mut FactJournal, disk: &mut D, facts: Vec<Fact>) -> Result<(), Fault>
    requires can { CanRecord facts.items }
    requires ready { (D.state disk.old).tells ≡ true → (rs : List (List Fact)) × HasFacts rs (D.state disk.old) journal.old }
    ensures wrote { OnOk result (Wrote (D.state disk.old) (D.state disk.new) journal.old journal.new facts.items) }
    ensures may_have { OnErr result (MayHaveWritten (D.state disk.old) (D.state disk.new) journal.old facts.items) }
    ensures cause { (fault : Fault) → result ≡ Err fault → HasCause (D.state disk.old) (D.state disk.new) journal.old facts.items fault }
    ensures later { Later (D.state disk.old) (D.state disk.new) }
{
    let record = Record::of(facts);
    let answer = journal.append(disk, &record);
    drop(record.into_facts());
    match answer {
        Ok(()) => Ok(()),
        Err(error) => Err(fault_of(error)),
    }
}

/// Writes down what was decided, where there was memory for it.
pub fn write_down<D: Disk>(
    journal: &mut FactJournal,
    disk: &mut D,
    decided: Result<Decided, Memory>,
) -> Result<Turn, Fault>
    requires can { IfOk decided (λ d. CanRecord d.facts.items) }
    requires ready { OnOk decided ((D.state disk.old).tells ≡ true → (rs : List (List Fact)) × HasFacts rs (D.state disk.old) journal.old) }
    ensures { Records (D.state disk.old) (D.state disk.new) journal.old journal.new decided result }
{
    let decided = decided?;
    append(journal, disk, decided.facts)?;
    Ok(decided.answer)
}
