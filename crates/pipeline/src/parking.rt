// Requests are parked.
ghost use Rattle.std.specs.Prelude.{◌≡◌, ℕ, ◌<◌, ◌+◌, ◌++◌, ◌∷◌, [], map, length, IfOk, OnOk};
ghost use Rattle.aeg_base.specs.declared.names.Tier.{Tier as SomeTier};
ghost use Rattle.round_model.specs.Lists.{of_tier};
ghost use Rattle.pipeline.specs.States.{greatest};
ghost use Rattle.round_model.specs.Tables.{next_after, parks};
ghost use Rattle.pipeline.specs.Jobs.{want_of};

use crate::numbers::Numbers;
use crate::parked::Parked;
use aeg_base::{Memory, Seq};
use exec_model::Seg;
use std::alloc::Global;
use svc_api::Ending;

/// The requests whose segments called, in job order, with the numbers that their calls get.
pub fn park_all(
    alloc: Global,
    numbers: &mut Numbers,
    segs: &[Seg],
    ends: &[Ending],
) -> Result<Seq<Parked>, Memory>
    requires each { length ends.now ≡ length segs.now }
    requires few { (t : SomeTier) → of_tier numbers.old t + length segs.now < greatest }
    ensures parked { IfOk result (λ parked. parked ≡ parks numbers.old (map want_of segs.now) ends.now) }
    ensures numbers { OnOk result (numbers.new ≡ next_after numbers.old ends.now) }
{
    let mut parked = Seq::new(alloc);
    'segments: for i in 0..segs.len() {
        park_one(&mut parked, numbers, &segs[i], &ends[i])?;
    }
    Ok(parked)
}

fn park_one(
    parked: &mut Seq<Parked>,
    numbers: &mut Numbers,
    seg: &Seg,
    ending: &Ending,
) -> Result<(), Memory>
    requires few { (t : SomeTier) → of_tier numbers.old t < greatest }
    ensures parked { OnOk result (parked.new ≡ parked.old ++ parks numbers.old (want_of seg.now ∷ []) (ending.now ∷ [])) }
    ensures numbers { OnOk result (numbers.new ≡ next_after numbers.old (ending.now ∷ [])) }
{
    if let Ending::Call { tier, stage, body } = ending {
        let number = numbers.take(*tier);
        let waits = Parked::new(seg, *stage, *tier, number, body)?;
        parked.push(waits)?;
    }
    Ok(())
}
