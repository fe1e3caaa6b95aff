// What a run leaves.
use aeg_base::Seq;
use kv_store::UndoList;
use svc_api::Outcome;

/// What a run of a job made: its steps, the order of finishing, how many groups were run again, what it changed, and how
/// to undo it.
#[derive(Debug, Drop)]
pub struct Ran {
    pub steps: Seq<u8>,
    pub order: Seq<u8>,
    pub redo: u8,
    pub outcome: Outcome,
    pub undo: UndoList,
}

/// What a run made, while its puts are still a batch's.
#[derive(Debug, Drop)]
pub struct Done {
    pub steps: Seq<u8>,
    pub order: Seq<u8>,
    pub redo: u8,
    pub outcome: Outcome,
}
