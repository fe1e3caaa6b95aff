// The segments of a job.
ghost use Rattle.std.specs.Prelude.{◌≡◌, ◌++◌, None, map, IfOk, OnOk};
ghost use Rattle.round_model.specs.Tables.{Codes, as_seg, resumed, started};
ghost use Rattle.pipeline.specs.Jobs.{seg_by};
ghost use Rattle.pipeline.specs.Answers.{codes_of};

use crate::answers::Known;
use crate::parked::Parked;
use aeg_base::{Memory, ReqId, Seq};
use exec_model::Seg;
use log_values::Entry;
use resp_durable::Held;
use std::alloc::Global;

/// The segments that resume the requests, each with its answer where that counts, and then those of the fresh entries.
pub fn segments(
    alloc: Global,
    waiting: &[Parked],
    fresh: &[Entry],
    known: Known,
    held: &Held,
) -> Result<Seq<Seg>, Memory>
    ensures segments { IfOk result (λ segs. segs ≡ map (seg_by (codes_of known held.now)) (map resumed waiting.now ++ map started fresh.now)) }
{
    let mut segs = Seq::new(alloc);
    resume_all(&mut segs, waiting, known, held)?;
    start_all(&mut segs, fresh)?;
    Ok(segs)
}

fn resume_all(
    segs: &mut Seq<Seg>,
    waiting: &[Parked],
    known: Known,
    held: &Held,
) -> Result<(), Memory>
    ensures added { OnOk result (segs.new ≡ segs.old ++ map (seg_by (codes_of known held.now)) (map resumed waiting.now)) }
{
    for parked in waiting {
        let answer = known.code(held, parked.tier(), parked.number());
        let seg = parked.resume(answer)?;
        segs.push(seg)?;
    }
    Ok(())
}

fn start_all(segs: &mut Seq<Seg>, fresh: &[Entry]) -> Result<(), Memory>
    ensures added { (A : Codes) → OnOk result (segs.new ≡ segs.old ++ map (seg_by A) (map started fresh.now)) }
{
    for entry in fresh {
        let seg = start(entry)?;
        segs.push(seg)?;
    }
    Ok(())
}

fn start(entry: &Entry) -> Result<Seg, Memory>
    ensures started { IfOk result (λ seg. seg ≡ as_seg (started entry.now) None) }
{
    let body = entry.body.copy()?;
    Ok(Seg {
        who: ReqId {
            client: entry.client,
            seq: entry.seq,
        },
        body,
        stage: 0,
        answer: None,
    })
}
