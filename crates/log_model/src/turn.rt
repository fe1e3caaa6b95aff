// What an event does at the log of a node, and why it may do nothing.
use crate::{Fact, PaxMsg};
use aeg_base::{Ballot, Pos, Seq};

/// Why a message or the wish to lead changed nothing and sent nothing.
#[derive(Clone, Copy, Debug, PartialEq, Eq)]
pub enum LogIdle {
    /// The promised ballot has the last counter.
    BallotSpent,
    /// A ballot at least as high as the message's is promised.
    Stale { promised: Ballot },
    /// The message's position is past the first open one, which is this.
    Behind { pos: Pos },
    Nothing,
}

/// What a leader would offer now, or why it offers nothing.
#[derive(Clone, Copy, Debug, PartialEq, Eq)]
pub enum Offering {
    NotLeader,
    /// Fewer than a majority have promised: so many.
    NoPromises { have: u8 },
    /// A value was sent at the open position already.
    InFlight { pos: Pos },
    LogFull,
    /// The value that a promise reported.
    Taken,
    /// A value of the node's own at this position.
    Free { pos: Pos },
}

/// What an event did: the facts to write down before any packet leaves, the packets with the index of the node that
/// each goes to, the position that was learned, and why nothing happened.
#[derive(Debug, Drop)]
pub struct LogTurn<V> {
    pub facts: Seq<Fact<V>>,
    pub sends: Seq<(u8, PaxMsg<V>)>,
    pub learned: Option<Pos>,
    pub idle: Option<LogIdle>,
}
