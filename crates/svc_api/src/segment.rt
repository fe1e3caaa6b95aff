// One segment, action by action.
ghost use Rattle.std.specs.Prelude.{◌≡◌, IfOk, OnOk, OnErr};
ghost use Rattle.svc_api.specs.Plan.{store_after, ending_of, ComesBy};

use crate::{Action, Ending, Program};
use aeg_base::{Cells, Memory};

/// Runs a segment on the cells, from the answer of its call. After an error they hold the writes made so far.
pub fn run_segment<P: Program, C: Cells>(
    prog: &mut P,
    answer: Option<u64>,
    cells: &mut C,
) -> Result<Ending, Memory>
    ensures ending { IfOk result (λ ending. ending ≡ ending_of (P.plan prog.old answer) (C.store cells.old)) }
    ensures store { OnOk result (C.store cells.new ≡ store_after (P.plan prog.old answer) (C.store cells.old)) }
    ensures front { OnErr result (ComesBy (P.plan prog.old answer) (C.store cells.old) (C.store cells.new)) }
    ensures kept { C.start cells.new ≡ C.start cells.old }
{
    let mut last = answer;
    'actions: loop {
        match prog.next(last)? {
            Action::Get(key) => {
                last = Some(cells.get(key));
            }
            Action::Put(key, value) => {
                cells.put(key, value)?;
                last = None;
            }
            Action::Call(tier, body) => {
                let stage = prog.stage();
                return Ok(Ending::Call { tier, stage, body });
            }
            Action::Reply(text) => return Ok(Ending::Reply(text)),
        }
    }
}
