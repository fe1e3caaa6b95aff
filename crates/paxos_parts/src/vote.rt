// What an acceptor accepted.
use aeg_base::{Ballot, Pos};

/// A value that was accepted at a position with a ballot.
#[derive(Debug, Drop)]
pub struct Vote<V> {
    pub at: Pos,
    pub ballot: Ballot,
    pub value: V,
}
