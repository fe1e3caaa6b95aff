// Who decides.
use aeg_base::NodeId;
use std::alloc::Global;

/// A node of a tier of 2 * faults + 1, with what it takes its memory from.
#[derive(Clone, Copy)]
pub struct Member {
    pub alloc: Global,
    pub faults: u8,
    pub me: NodeId,
}
