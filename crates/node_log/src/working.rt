// A node while it is up.
ghost use Rattle.std.specs.Prelude.{◌≡◌, IfOk};

use aeg_base::Memory;
use fact_journal::FactJournal;
use log_values::AnyValue;
use paxos_log::TierLog;
use std::alloc::Global;

/// Its log in memory, its opened journal, and what else it keeps. A box has them, so that a call takes them and puts them
/// back without moving them.
#[derive(Drop)]
pub struct Working<R> {
    pub log: TierLog<AnyValue>,
    pub journal: FactJournal,
    pub rest: R,
}

/// A node at work with these.
pub fn at_work<R: Drop>(
    alloc: Global,
    log: TierLog<AnyValue>,
    journal: FactJournal,
    rest: R,
) -> Result<Box<Working<R>>, Memory>
    ensures { IfOk result (λ up. up.value ≡ record { log = log; journal = journal; rest = rest }) }
{
    Ok(Box::new(alloc, Working { log, journal, rest })?)
}
