// One segment of a request, run whole over a draft.
ghost use Rattle.std.specs.Prelude.{◌≡◌, IfOk};
ghost use Rattle.svc_api.specs.Requests.{IsRequest};
ghost use Rattle.svc_api.specs.Plan.{store_after, ending_of};
ghost use Rattle.one_server.specs.Writes.{after, Runs};

use crate::draft::Draft;
use crate::write::Write;
use aeg_base::{Bytes, Cells, Memory, ReqId};
use std::alloc::Global;
use svc_api::{Ending, Program, Service, run_segment};

/// How a segment ended, and the writes that it made.
#[derive(Drop)]
pub struct Ran {
    pub ending: Ending,
    pub writes: Vec<Write>,
}

/// Runs a program from its answer over cells that stay as they are.
fn drafted<P: Program, C: Cells>(
    alloc: Global,
    mut prog: P,
    answer: Option<u64>,
    cells: &C,
) -> Result<Ran, Memory>
    ensures ending { IfOk result (λ ran. ran.ending ≡ ending_of (P.plan prog answer) (C.store cells.now)) }
    ensures store { IfOk result (λ ran. after (C.store cells.now) ran.writes.items ≡ store_after (P.plan prog answer) (C.store cells.now)) }
{
    let mut draft = Draft {
        base: cells,
        writes: Vec::new(alloc),
    };
    let ending = run_segment(&mut prog, answer, &mut draft)?;
    Ok(Ran {
        ending,
        writes: draft.writes,
    })
}

/// Runs a request's segment at a stage, with the answer of its call: none where the request has no such stage.
pub fn run_stage<S: Service, C: Cells>(
    alloc: Global,
    service: &S,
    who: ReqId,
    body: &Bytes,
    stage: u8,
    answer: Option<u64>,
    cells: &C,
) -> Result<Option<Ran>, Memory>
    requires { IsRequest who }
    ensures { IfOk result (Runs (S.table service.now who body.now stage) answer (C.store cells.now)) }
{
    match service.begin(who, body, stage)? {
        None => Ok(None),
        Some(prog) => Ok(Some(drafted(alloc, prog, answer, cells)?)),
    }
}
