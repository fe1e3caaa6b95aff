// What a node answers for its log.
ghost use Rattle.std.specs.Prelude.{◌≡◌};
ghost use Rattle.tier_model.specs.Moves.{log_cause, log_answer, offer_cause};
ghost use Rattle.node_log.specs.Packets.{needs_own};

use paxos_log::{LogIdle, Offering};
use tier_model::{Idle, Turn};

fn cause_of(idle: LogIdle) -> Idle
    ensures { result ≡ log_cause idle }
{
    match idle {
        LogIdle::BallotSpent => Idle::BallotSpent,
        LogIdle::Stale { promised } => Idle::Stale { promised },
        LogIdle::Behind { pos } => Idle::Behind { pos },
        LogIdle::Nothing => Idle::Nothing,
    }
}

/// What a turn of the log comes to.
pub fn answer_of(idle: Option<LogIdle>) -> Turn
    ensures { result ≡ log_answer idle }
{
    match idle {
        None => Turn::Did,
        Some(idle) => Turn::Idle(cause_of(idle)),
    }
}

/// What stands in the way of an offer besides the value itself.
pub fn offer_cause(wants: Offering) -> Option<Idle>
    ensures { result ≡ offer_cause wants }
{
    match wants {
        Offering::NotLeader => Some(Idle::NotLeader),
        Offering::NoPromises { have } => Some(Idle::NoPromises { have }),
        Offering::InFlight { pos } => Some(Idle::InFlight { pos }),
        Offering::LogFull => Some(Idle::LogFull),
        Offering::Taken => None,
        Offering::Free { .. } => None,
    }
}

/// Whether a leader may offer a value of its own, since none was reported.
pub fn needs_own(wants: Offering) -> bool
    ensures { result ≡ needs_own wants }
{
    matches!(wants, Offering::Free { .. })
}
