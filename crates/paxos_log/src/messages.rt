// Messages to several nodes.
ghost use Rattle.std.specs.Prelude.{◌≡◌, ◌++◌, OnOk};
ghost use Rattle.log_model.specs.Log.{to_each};
ghost use Rattle.paxos_log.specs.TierLog.{skips};

use aeg_base::{Memory, Value};
use log_model::PaxMsg;

/// Adds the message to each of so many nodes but the one that is skipped, by ascending index.
#[inline(always)]
pub fn send_each<V: Value>(
    sends: &mut Vec<(u8, PaxMsg<V>)>,
    nodes: u8,
    skip: Option<u8>,
    message: &PaxMsg<V>,
) -> Result<(), Memory>
    ensures { OnOk result (sends.new.items ≡ sends.old.items ++ to_each nodes (skips skip) message.now) }
{
    for node in 0..nodes {
        if skip != Some(node) {
            let copy = message.copy()?;
            sends.push((node, copy))?;
        }
    }
    Ok(())
}
