// The packets that a turn sends.
ghost use Rattle.std.specs.Prelude.{◌≡◌, ◌++◌, ◌∷◌, [], take, OnOk, OnErr};

use aeg_base::{Bytes, End, Memory, Seq};
use std::alloc::Global;
use std::marker::Model;
use std::mem;

/// The packets that a turn sends, in order, each with whom it goes to.
#[derive(Debug, Drop)]
pub struct Outbox {
    packets: Seq<(End, Bytes)>,
}

impl Model for Outbox {
    ghost use Rattle.std.specs.Prelude.{List, ℕ};
    ghost use Rattle.aeg_base.specs.declared.names.End.{End};

    ghost Value = { List (End × List ℕ) };

    ghost view = { λ o. o.packets };
}

impl Outbox {
    /// No packets.
    pub fn new(alloc: Global) -> Self
        ensures { result ≡ [] }
    {
        Outbox {
            packets: Seq::new(alloc),
        }
    }

    /// Adds a packet at the end.
    pub fn push(&mut self, to: End, bytes: Bytes) -> Result<(), Memory>
        ensures ok { OnOk result (self.new ≡ self.old ++ (to, bytes) ∷ []) }
        ensures err { OnErr result (self.new ≡ self.old) }
    {
        self.packets.push((to, bytes))
    }

    /// Drops all but the first so many packets.
    pub fn truncate(&mut self, count: usize)
        ensures { self.new ≡ take count self.old }
    {
        let empty = Seq::new(self.packets.allocator());
        let mut packets = mem::replace(&mut self.packets, empty).into_vec();
        packets.truncate(count);
        self.packets = Seq::of(packets);
    }

    pub fn items(&self) -> &[(End, Bytes)]
        ensures { result.now ≡ self.now }
    {
        self.packets.items()
    }

    /// Gives the packets out.
    pub fn into_vec(self) -> Vec<(End, Bytes)>
        ensures { result.items ≡ self }
    {
        self.packets.into_vec()
    }
}
