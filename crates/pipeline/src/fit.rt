// Whether a Commit fits a job.
ghost use Rattle.std.specs.Prelude.{◌≡◌, IfOk};
ghost use Rattle.std.specs.List.{All};
ghost use Rattle.svc_api.specs.Requests.{IsRequest};
ghost use Rattle.round_model.specs.Lists.{is_some};
ghost use Rattle.pipeline.specs.Jobs.{IsAsked, all_go_on, goes_on, tells_well, told};

use aeg_base::Memory;
use exec_model::Seg;
use log_values::{Token, read_outcome};
use std::alloc::Global;
use svc_api::{Ending, Service};

/// Whether the token tells an outcome with one end for each segment, and each call among them has a stage at which its
/// request goes on.
pub fn fits<S: Service>(alloc: Global, svc: &S, segs: &[Seg], token: &Token) -> Result<bool, Memory>
    requires asked { All IsAsked segs.now }
    ensures fits { IfOk result (λ fits. fits ≡ tells_well (S.table svc.now) segs.now (told token.now)) }
{
    match read_outcome(alloc, token)? {
        Some(outcome) => all_go_on(svc, segs, outcome.ends.items()),
        None => Ok(false),
    }
}

fn all_go_on<S: Service>(svc: &S, segs: &[Seg], ends: &[Ending]) -> Result<bool, Memory>
    requires asked { All IsAsked segs.now }
    ensures go { IfOk result (λ go. go ≡ all_go_on (S.table svc.now) segs.now ends.now) }
{
    if ends.len() != segs.len() {
        return Ok(false);
    }
    'segments: for i in 0..segs.len() {
        if !goes_on(svc, &segs[i], &ends[i])? {
            return Ok(false);
        }
    }
    Ok(true)
}

fn goes_on<S: Service>(svc: &S, seg: &Seg, ending: &Ending) -> Result<bool, Memory>
    requires asked { IsRequest seg.now.who }
    ensures goes { IfOk result (λ goes. goes ≡ goes_on (S.table svc.now) seg.now ending.now) }
{
    match ending {
        Ending::Reply(_) => Ok(true),
        Ending::Call { stage, .. } => has_stage(svc, seg, *stage),
    }
}

fn has_stage<S: Service>(svc: &S, seg: &Seg, stage: u8) -> Result<bool, Memory>
    requires asked { IsRequest seg.now.who }
    ensures has { IfOk result (λ has. has ≡ is_some (S.table svc.now seg.now.who seg.now.body stage)) }
{
    let begun = svc.begin(seg.who, &seg.body, stage)?;
    Ok(begun.is_some())
}
