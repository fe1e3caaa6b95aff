// A service: programs for requests, and what their segments mean.
ghost use Rattle.std.specs.Prelude.{◌≡◌, ◌≤◌, ℕ, List, Option, Some, IfOk};
ghost use Rattle.aeg_base.specs.Store.{Store};
ghost use Rattle.aeg_base.specs.declared.names.ReqId.{ReqId};
ghost use Rattle.svc_api.specs.Requests.{IsRequest};
ghost use Rattle.svc_api.specs.Segment.{Segment, Beginning, Begins, Folds, IsProper, GoesOn};

use crate::Program;
use aeg_base::{Bytes, Memory, ReqId};

/// Programs for requests.
pub trait Service {
    type Prog: Program;

    /// How a request's segment at a stage begins: none where the text is no request or has no such stage.
    ghost beginning: { Self → ReqId → List ℕ → ℕ → Option Beginning };

    /// What that segment means over a whole store, with the answer of its call.
    ghost table: { Self → ReqId → List ℕ → ℕ → Option (Option ℕ → Store → Segment) };

    fn begin(&self, who: ReqId, body: &Bytes, stage: u8) -> Result<Option<Self::Prog>, Memory>
        requires { IsRequest who }
        ensures { IfOk result (Begins Self.Prog.plan Self.Prog.budget Self.Prog.locks (beginning self.now who body.now stage)) };

    /// The actions of a segment come to its row of the table.
    ghost folds: { (s : Self) (who : ReqId) (body : List ℕ) (stage : ℕ) → Folds (beginning s who body stage) (table s who body stage) };

    /// A segment is within the limits, and names keys of a store.
    ghost proper: { (s : Self) (who : ReqId) (body : List ℕ) (stage : ℕ) → IsRequest who → IsProper (beginning s who body stage) };

    /// A request whose segment calls has the stage that the call names.
    ghost again: { (s : Self) (who : ReqId) (body : List ℕ) (stage : ℕ) → GoesOn (table s who body stage) (table s who body) };
}
