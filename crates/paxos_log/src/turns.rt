// What a row answers.
ghost use Rattle.std.specs.Prelude.{◌≡◌, [], ◌∷◌, Some, None, IfOk};

use aeg_base::{Memory, Pos, Seq, Value};
use log_model::{Fact, LogIdle, LogTurn, PaxMsg};
use std::alloc::Global;

/// Nothing happens, for this reason.
pub fn idle<V: Value>(alloc: Global, why: LogIdle) -> LogTurn<V>
    ensures { result ≡ record { facts = []; sends = []; learned = None; idle = Some why } }
{
    LogTurn {
        facts: Seq::new(alloc),
        sends: Seq::new(alloc),
        learned: None,
        idle: Some(why),
    }
}

/// These facts and messages, and the position that is learned.
pub fn turn<V: Value>(
    facts: Vec<Fact<V>>,
    sends: Vec<(u8, PaxMsg<V>)>,
    learned: Option<Pos>,
) -> LogTurn<V>
    ensures { result ≡ record { facts = facts.items; sends = sends.items; learned = learned; idle = None } }
{
    LogTurn {
        facts: Seq::of(facts),
        sends: Seq::of(sends),
        learned,
        idle: None,
    }
}

/// A list of one.
pub fn one<T: Drop>(alloc: Global, item: T) -> Result<Vec<T>, Memory>
    ensures { IfOk result (λ list. list.items ≡ item ∷ []) }
{
    let mut list = Vec::with_capacity(alloc, 1)?;
    list.push(item)?;
    Ok(list)
}
