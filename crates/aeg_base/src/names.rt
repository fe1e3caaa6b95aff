// Names of keys, tiers, nodes, requests and calls.
ghost use Rattle.std.specs.Prelude.{◌≡◌};
ghost use Rattle.aeg_base.specs.Ballots.{same_ballot, is_below, is_at_most};

/// The key of a number in a store: its class is below 8.
#[derive(Clone, Copy, Debug, PartialEq, Eq, PartialOrd, Ord, Hash)]
pub struct Key {
    pub class: u8,
    pub id: u32,
}

/// The booking service in the middle, and the two that it calls.
#[derive(Clone, Copy, Debug, PartialEq, Eq, PartialOrd, Ord, Hash)]
pub enum Tier {
    Mid,
    Inv,
    Pay,
}

/// A replica of a tier, by its index from 0.
#[derive(Clone, Copy, Debug, PartialEq, Eq, PartialOrd, Ord, Hash)]
pub struct NodeId {
    pub tier: Tier,
    pub index: u8,
}

/// Where a packet comes from or goes to: a node, or a client by its number from 1 to 16.
#[derive(Clone, Copy, Debug, PartialEq, Eq, PartialOrd, Ord, Hash)]
pub enum End {
    Node(NodeId),
    Client(u8),
}

/// A ballot of Paxos, owned by its node. Ordered by the counter, then the node; (0, 0) means none.
#[derive(Clone, Copy, Debug, PartialEq, Eq, PartialOrd, Ord, Hash)]
pub struct Ballot {
    pub counter: u32,
    pub node: u8,
}

impl Ballot {
    /// Whether it is lower than the other.
    pub fn is_below(self, other: Ballot) -> bool
        ensures { result ≡ is_below self other }
    {
        self.counter < other.counter || self.counter == other.counter && self.node < other.node
    }

    /// Whether it is at most the other.
    pub fn is_at_most(self, other: Ballot) -> bool
        ensures { result ≡ is_at_most self other }
    {
        !other.is_below(self)
    }

    /// Whether the two are one ballot.
    pub fn is_same(self, other: Ballot) -> bool
        ensures { result ≡ same_ballot self other }
    {
        self.counter == other.counter && self.node == other.node
    }
}

/// A request: its client, and its number among the client's, both from 1.
#[derive(Clone, Copy, Debug, PartialEq, Eq, PartialOrd, Ord, Hash)]
pub struct ReqId {
    pub client: u8,
    pub seq: u32,
}

/// A position of a log, from 0.
pub type Pos = u16;

/// A round of the middle tier, from 0.
pub type Round = u16;

/// The number of a nested call of a tier, from 1.
pub type CallNo = u32;
