// What the errors of a journal are to its node.
ghost use Rattle.std.specs.Prelude.{◌≡◌};
ghost use Rattle.node_log.specs.Faults.{as_fault, as_opening_fault};

use fact_journal::{AppendErr, OpenErr};
use tier_model::Fault;

/// Why a node went down, where its record was not written.
pub fn fault_of(error: AppendErr) -> Fault
    ensures { result ≡ as_fault error }
{
    match error {
        AppendErr::Disk => Fault::Disk,
        AppendErr::Full { len } => Fault::JournalFull { len },
        AppendErr::Memory => Fault::Memory,
    }
}

/// Why a node stays down, where its journal was not opened.
pub fn opening_fault(error: OpenErr) -> Fault
    ensures { result ≡ as_opening_fault error }
{
    match error {
        OpenErr::Disk => Fault::Disk,
        OpenErr::BadRecord { at } => Fault::BadRecord { at },
        OpenErr::Memory => Fault::Memory,
    }
}
