// A node while it is up.
ghost use Rattle.std.specs.Prelude.{◌≡◌, IfOk};

use aeg_base::Memory;
use fact_journal::FactJournal;
use log_values::AnyValue;
use paxos_log::TierLog;
use std::alloc::Global;

/// Its log in memory, and its opened journal.
#[derive(Drop)]
pub struct Working {
    pub log: TierLog<AnyValue>,
    pub journal: FactJournal,
}

/// A node at work with these. A box has both, so that a call takes them and puts them back without moving them.
pub fn at_work(
    alloc: Global,
    log: TierLog<AnyValue>,
    journal: FactJournal,
) -> Result<Box<Working>, Memory>
    ensures { IfOk result (λ up. up.value ≡ record { log = log; journal = journal }) }
{
    Ok(Box::new(alloc, Working { log, journal })?)
}
