// What is printed of a node's answer.
ghost use Rattle.std.specs.Prelude.{◌≡◌, ◌++◌, OnOk};
ghost use Rattle.std.specs.declared.result.Result.TheVariants.{Err};
ghost use Rattle.world.specs.Telling.{told_fault, told_command, told_frame, told_restart, HadMemory, IsFault};

use crate::text::lines::{add_cut, add_disk, add_drop, add_full, add_idle, add_record};
use aeg_base::{Bytes, End, Memory, NodeId};
use tier_model::{Fault, Turn};

/// A fault of the node, unless it is want of memory. `met` says whether its disk met an armed stop.
fn add_fault(out: &mut Bytes, node: NodeId, met: bool, fault: Fault) -> Result<(), Memory>
    ensures told { OnOk result (out.new ≡ out.old ++ told_fault node met fault) }
    ensures memory { OnOk result (IsFault fault) }
{
    match fault {
        Fault::JournalFull { .. } => add_full(out, node),
        Fault::Memory => Err(Memory),
        Fault::Disk => {
            if met {
                return add_cut(out, node);
            }
            add_disk(out, node)
        }
        Fault::BadRecord { at } => add_record(out, node, at),
    }
}

/// The answer to a command.
pub fn add_command(
    out: &mut Bytes,
    node: NodeId,
    met: bool,
    answer: Result<Turn, Fault>,
) -> Result<(), Memory>
    ensures told { OnOk result (out.new ≡ out.old ++ told_command node met answer) }
    ensures memory { OnOk result (HadMemory answer) }
{
    match answer {
        Ok(Turn::Idle(cause)) => add_idle(out, End::Node(node), cause),
        Ok(_) => Ok(()),
        Err(fault) => add_fault(out, node, met, fault),
    }
}

/// The answer to a packet.
pub fn add_frame(
    out: &mut Bytes,
    node: NodeId,
    met: bool,
    answer: Result<Turn, Fault>,
) -> Result<(), Memory>
    ensures told { OnOk result (out.new ≡ out.old ++ told_frame node met answer) }
    ensures memory { OnOk result (HadMemory answer) }
{
    match answer {
        Ok(Turn::Dropped(refusal)) => add_drop(out, End::Node(node), refusal),
        Ok(_) => Ok(()),
        Err(fault) => add_fault(out, node, met, fault),
    }
}

/// What a restart came to.
pub fn add_restart(out: &mut Bytes, node: NodeId, answer: Result<u8, Fault>) -> Result<(), Memory>
    ensures told { OnOk result (out.new ≡ out.old ++ told_restart node answer) }
    ensures memory { OnOk result (HadMemory answer) }
{
    match answer {
        Ok(_) => Ok(()),
        Err(fault) => add_fault(out, node, false, fault),
    }
}
