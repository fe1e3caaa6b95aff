// What a node is told to do.
ghost use Rattle.std.specs.Prelude.{◌≡◌};
ghost use Rattle.world.specs.Commands.{event_of};

use aeg_base::NodeId;
use run_model::{Fared, TraceEvent};

/// Commands that a node may write down, so that its disk may stop during them.
#[derive(Clone, Copy, Debug, PartialEq, Eq)]
pub enum Command {
    Lead,
    Offer,
}

impl Command {
    /// The event that the command is, where the node is told so.
    pub fn event(self, node: NodeId, fared: Fared) -> TraceEvent
        ensures { result ≡ event_of self node fared }
    {
        match self {
            Command::Lead => TraceEvent::Lead { node, fared },
            Command::Offer => TraceEvent::Offer { node, fared },
        }
    }
}
