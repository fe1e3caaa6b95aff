// Which nodes of a tier are in a set.
ghost use Rattle.std.specs.Prelude.{◌≡◌, ℕ, ◌<◌, ◌≤◌, List, Bool, true, false, length, replicate, slice_set};
ghost use Rattle.log_model.specs.Log.{has, count_below};

use std::marker::Model;

/// A set of the nodes of a tier of at most five, as a flag for each.
#[derive(Drop)]
pub struct Members {
    flags: [bool; 5],
    nodes: u8,
}

impl Model for Members {
    ghost use Rattle.std.specs.Prelude.{◌≡◌, ◌≤◌, List, Bool, length, take};

    ghost Value = { List Bool };

    ghost view = { λ m. take m.nodes m.flags };

    ghost invariant = { λ m. (m.nodes ≤ 5) × (length m.flags ≡ 5) };
}

impl Members {
    /// Nobody of so many nodes.
    pub fn new(nodes: u8) -> Self
        requires { nodes ≤ 5 }
        ensures { result ≡ replicate nodes false }
    {
        Members {
            flags: [false; 5],
            nodes,
        }
    }

    /// One more.
    pub fn add(&mut self, node: u8)
        requires { node < length self.old }
        ensures { self.new ≡ slice_set self.old node true }
    {
        self.flags[node as usize] = true;
    }

    pub fn has(&self, node: u8) -> bool
        requires { node < length self.now }
        ensures { result ≡ has self.now node }
    {
        self.flags[node as usize]
    }

    /// How many there are.
    pub fn count(&self) -> u8
        ensures { result ≡ count_below (length self.now) (has self.now) }
    {
        let mut count = 0;
        for node in 0..self.nodes {
            if self.flags[node as usize] {
                count += 1;
            }
        }
        count
    }
}
