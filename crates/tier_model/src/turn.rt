// What a node answers to a packet or a command.
use aeg_base::{Ballot, CallNo, Memory, Pos, Round, Seq, Tier};
use frames::Refused;
use thiserror::Error;

/// How a job ran: its round, the steps of its segments, their order, and how often a group was run again.
#[derive(Debug, Drop)]
pub struct RunNote {
    pub round: Round,
    pub steps: Seq<u8>,
    pub order: Seq<u8>,
    pub redo: u8,
}

/// Why nothing was done.
#[derive(Clone, Copy, Debug, PartialEq, Eq)]
pub enum Idle {
    BallotSpent,
    NotLeader,
    NoPromises { have: u8 },
    InFlight { pos: Pos },
    LogFull,
    Unapplied { round: Round },
    NoTokens { have: u8 },
    Nothing,
    NoBatch,
    NoAnswer { tier: Tier, no: CallNo },
    Stale { promised: Ballot },
    Behind { pos: Pos },
}

/// What a node's turn came to. A node that dropped a packet, or was idle, is as it was.
#[derive(Debug, Drop)]
pub enum Turn {
    Did,
    Ran(RunNote),
    Dropped(Refused),
    Idle(Idle),
}

/// Why a node went down.
#[derive(Clone, Copy, Debug, PartialEq, Eq, Error)]
pub enum Fault {
    #[error("the disk failed")]
    Disk,
    #[error("the journal would have {len} bytes")]
    JournalFull { len: u64 },
    #[error("no record stands at byte {at}")]
    BadRecord { at: u64 },
    #[error("there is no memory")]
    Memory,
}

impl From<Memory> for Fault {
    ghost use Rattle.std.specs.Prelude.{◌≡◌};
    ghost use Rattle.tier_model.specs.declared.turn.Fault.TheVariants as faults;

    ghost from_gives = { λ _ e. e ≡ faults.Memory };

    fn from(_: Memory) -> Self {
        Fault::Memory
    }
}
