// What a job leaves.
use crate::Ending;
use aeg_base::{Key, Seq};

/// What a job leaves: the keys whose values differ from those before it, sorted by class, then id, with their new
/// values (0 where the key went), and the ends of its segments in job order.
#[derive(Debug, Drop)]
pub struct Outcome {
    pub pairs: Seq<(Key, u64)>,
    pub ends: Seq<Ending>,
}
