// Whether a node is there.

/// A node is up, down, or gone for good.
#[derive(Clone, Copy, Debug, PartialEq, Eq)]
pub enum Condition {
    Up,
    Down,
    Gone,
}
