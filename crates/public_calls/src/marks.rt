// A small value for the logs of tests, and a ballot.
use aeg_base::{Ballot, Memory, Value};

/// A value that is accepted and learned.
#[derive(Clone, Copy, Debug, PartialEq)]
pub struct Mark(pub u8);

impl Value for Mark {
    fn copy(&self) -> Result<Self, Memory> {
        Ok(*self)
    }

    fn same(&self, other: &Self) -> bool {
        self.0 == other.0
    }
}

pub const FIRST: Ballot = Ballot {
    counter: 1,
    node: 0,
};

pub const VALUE: Mark = Mark(7);
