// The lines of a script.
use aeg_base::{Bytes, End, NodeId, Seq};

/// A line of a script after its header. An item of `by` is a segment and how often it stands.
#[derive(Debug, Drop)]
pub enum Event {
    Submit {
        client: u8,
        body: Bytes,
    },
    Deliver {
        packet: u32,
    },
    Short {
        packet: u32,
        bytes: u32,
    },
    Cut {
        nth: u8,
        keep: bool,
        line: CutLine,
    },
    Lead {
        node: NodeId,
    },
    Offer {
        node: NodeId,
    },
    Retry {
        end: End,
    },
    Work {
        node: NodeId,
        by: Option<Seq<(u8, u16)>>,
    },
    Crash {
        node: NodeId,
    },
    Restart {
        node: NodeId,
    },
    Wipe {
        node: NodeId,
    },
    Flow,
    Calm,
    Lose,
}

/// A line during which a disk can be stopped.
#[derive(Clone, Copy, Debug, PartialEq, Eq)]
pub enum CutLine {
    Deliver { packet: u32 },
    Lead { node: NodeId },
    Offer { node: NodeId },
}
