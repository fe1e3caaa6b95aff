// What a round runs.
use aeg_base::{Bytes, ReqId, Round, Seq};

/// One segment of a job: a request at a stage, with the answer of its call where the stage is not the first.
#[derive(Debug, Drop)]
pub struct Seg {
    pub who: ReqId,
    pub body: Bytes,
    pub stage: u8,
    pub answer: Option<u8>,
}

/// What a round runs, in job order.
#[derive(Debug, Drop)]
pub struct Job {
    pub round: Round,
    pub segs: Seq<Seg>,
}
