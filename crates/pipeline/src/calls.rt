// The calls of requests that wait.
ghost use Rattle.std.specs.Prelude.{◌≡◌, ◌++◌, map, IfOk, OnOk};
ghost use Rattle.round_model.specs.Lists.{concat};
ghost use Rattle.pipeline.specs.States.{call_of, calling};

use crate::parked::Parked;
use aeg_base::{Bytes, CallNo, Memory, Seq, Tier};
use std::alloc::Global;
use std::collections::VecDeque;

/// The calls of these requests.
pub fn calls_of(alloc: Global, parked: &[Parked]) -> Result<Vec<(Tier, CallNo, Bytes)>, Memory>
    ensures calls { IfOk result (λ calls. calls.items ≡ map call_of parked.now) }
{
    let mut calls = Vec::with_capacity(alloc, parked.len())?;
    for waits in parked {
        calls.push(waits.call()?)?;
    }
    Ok(calls)
}

/// Adds the calls to a tier.
pub fn put_calls_to(
    tier: Tier,
    queue: &VecDeque<Seq<Parked>>,
    calls: &mut Vec<(Tier, CallNo, Bytes)>,
) -> Result<(), Memory>
    ensures added { OnOk result (calls.new.items ≡ calls.old.items ++ map call_of (calling tier (concat queue.now.items))) }
{
    for parked in queue {
        put_calls_among(tier, parked.items(), calls)?;
    }
    Ok(())
}

fn put_calls_among(
    tier: Tier,
    parked: &[Parked],
    calls: &mut Vec<(Tier, CallNo, Bytes)>,
) -> Result<(), Memory>
    ensures added { OnOk result (calls.new.items ≡ calls.old.items ++ map call_of (calling tier parked.now)) }
{
    for waits in parked {
        if waits.tier() == tier {
            calls.push(waits.call()?)?;
        }
    }
    Ok(())
}
