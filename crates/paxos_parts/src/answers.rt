// What an acceptor answers.
use aeg_base::Ballot;

/// The answer to a Prepare: a promise, with what was accepted at its position, or the ballot that is promised.
#[derive(Debug, Drop)]
pub enum Prepared<V> {
    Promised(Option<(Ballot, V)>),
    Stale(Ballot),
}

/// The answer to an Accept: the value is accepted now, one was accepted with this ballot before, or a higher ballot is
/// promised.
#[derive(Clone, Copy, Debug, PartialEq, Eq)]
pub enum Acceptance {
    Accepted,
    Again,
    Stale(Ballot),
}
