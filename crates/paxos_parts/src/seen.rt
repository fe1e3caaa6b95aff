// What each node of a tier has accepted at the open position, as far as one node has heard.
ghost use Rattle.std.specs.Prelude.{◌≡◌, ℕ, ◌<◌, ◌≤◌, List, Option, Some, None, length, replicate, slice_set};
ghost use Rattle.log_model.specs.Log.{seen_at, count_below, is_ballot};

use aeg_base::Ballot;
use std::marker::Model;

/// The highest ballot heard of each node of a tier of at most five.
#[derive(Drop)]
pub struct Seen {
    ballots: [Option<Ballot>; 5],
    nodes: u8,
}

impl Model for Seen {
    ghost use Rattle.std.specs.Prelude.{◌≡◌, ◌≤◌, List, Option, length, take};
    ghost use Rattle.aeg_base.specs.declared.names.Ballot.{Ballot};

    ghost Value = { List (Option Ballot) };

    ghost view = { λ s. take s.nodes s.ballots };

    ghost invariant = { λ s. (s.nodes ≤ 5) × (length s.ballots ≡ 5) };
}

impl Seen {
    /// Nothing heard of so many nodes.
    pub fn new(nodes: u8) -> Self
        requires { nodes ≤ 5 }
        ensures { result ≡ replicate nodes None }
    {
        Seen {
            ballots: [None; 5],
            nodes,
        }
    }

    /// With the ballot of a node.
    pub fn with(&self, node: u8, ballot: Ballot) -> Self
        requires { node < length self.now }
        ensures { result ≡ slice_set self.now node (Some ballot) }
    {
        let mut ballots = self.ballots;
        ballots[node as usize] = Some(ballot);
        Seen {
            ballots,
            nodes: self.nodes,
        }
    }

    pub fn at(&self, node: u8) -> Option<Ballot>
        requires { node < length self.now }
        ensures { result ≡ seen_at self.now node }
    {
        self.ballots[node as usize]
    }

    /// How many have this ballot.
    pub fn count(&self, ballot: Ballot) -> u8
        ensures { result ≡ count_below (length self.now) (λ node. is_ballot ballot (seen_at self.now node)) }
    {
        let mut count = 0;
        for node in 0..self.nodes {
            if let Some(seen) = self.ballots[node as usize] {
                if seen.is_same(ballot) {
                    count += 1;
                }
            }
        }
        count
    }
}
