// What became of the lines of a script.
use aeg_base::{Bytes, End, NodeId, Seq};

/// How the node's device fared in an event: well, stopped at its nth write or sync (from 1) with or without what was
/// written since the last sync, or with a fault that leaves open whether the event's record is there.
#[derive(Clone, Copy, Debug, PartialEq, Eq)]
pub enum Fared {
    Fine,
    Cut { nth: u8, keep: bool },
    Fault,
}

/// What a restart found on the disk: one of the lists of records that it may stand for, by its number from 0, or a fault.
#[derive(Clone, Copy, Debug, PartialEq, Eq)]
pub enum Found {
    Reads { list: u8 },
    Fault,
}

/// An event of a run. A retry is one of a node or of a client.
#[derive(Debug, Drop)]
pub enum TraceEvent {
    Submit {
        client: u8,
        body: Bytes,
    },
    Deliver {
        packet: u32,
        fared: Fared,
    },
    Short {
        packet: u32,
        bytes: u32,
        fared: Fared,
    },
    Lead {
        node: NodeId,
        fared: Fared,
    },
    Offer {
        node: NodeId,
        fared: Fared,
    },
    Work {
        node: NodeId,
        schedule: Seq<u8>,
    },
    Retry {
        end: End,
    },
    Crash {
        node: NodeId,
    },
    Restart {
        node: NodeId,
        found: Found,
    },
    Wipe {
        node: NodeId,
    },
}
