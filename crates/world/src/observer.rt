// What is seen of a tier: how far its log is chosen.
ghost use Rattle.std.specs.Prelude.{◌≡◌, ◌∷◌, [], ◌≤◌, ◌==◌, ◌&&◌, nat_lt, nat_le, OnOk, IfOk, length};
ghost use Rattle.std.specs.Bool.{OnTrue};
ghost use Rattle.svc_api.specs.Orders.{mem};
ghost use Rattle.world.specs.Tallies.{is_of, adds, counted, tallies_from, is_chosen, new_seen, hears, grown};

use aeg_base::{Ballot, Memory, Pos};
use log_model::PaxMsg;
use std::alloc::Global;
use std::marker::Model;

/// The nodes that have sent Accepted with a ballot at a position.
#[derive(Drop)]
pub struct VoteTally {
    pos: Pos,
    ballot: Ballot,
    senders: Vec<u8>,
}

impl Model for VoteTally {
    ghost use Rattle.world.specs.Tallies.{Tally};

    ghost Value = { Tally };

    ghost view = { λ t. record { pos = t.pos; ballot = t.ballot; senders = t.senders.items } };
}

impl VoteTally {
    /// The first of them.
    fn begun(alloc: Global, pos: Pos, ballot: Ballot, from: u8) -> Result<Self, Memory>
        ensures { IfOk result (λ tally. tally ≡ record { pos = pos; ballot = ballot; senders = from ∷ [] }) }
    {
        let mut senders = Vec::new(alloc);
        senders.push(from)?;
        Ok(VoteTally {
            pos,
            ballot,
            senders,
        })
    }

    fn is_of(&self, pos: Pos, ballot: Ballot) -> bool
        ensures { result ≡ is_of self.now pos ballot }
    {
        self.pos == pos && self.ballot.counter == ballot.counter && self.ballot.node == ballot.node
    }

    /// Whether more than so many nodes have sent it at the position.
    fn is_reached(&self, faults: u8, pos: u32) -> bool
        ensures is { result ≡ ((self.now.pos == pos) && nat_lt faults (length self.now.senders)) }
        ensures within { OnTrue result (pos ≤ 65535) }
    {
        u32::from(self.pos) == pos && self.senders.len() > usize::from(faults)
    }

    fn is_from(&self, pos: u32) -> bool
        ensures { result ≡ nat_le pos self.now.pos }
    {
        pos <= u32::from(self.pos)
    }

    /// Counts the sender, once.
    fn add(&mut self, from: u8) -> Result<(), Memory>
        ensures { OnOk result (self.new ≡ adds self.old from) }
    {
        if !has(&self.senders, from) {
            self.senders.push(from)?;
        }
        Ok(())
    }
}

fn has(senders: &[u8], from: u8) -> bool
    ensures { result ≡ mem from senders.now }
{
    for sender in senders {
        if *sender == from {
            return true;
        }
    }
    false
}

/// Counts the sender at the tally of the ballot and the position.
fn count(
    alloc: Global,
    tallies: &mut Vec<VoteTally>,
    pos: Pos,
    ballot: Ballot,
    from: u8,
) -> Result<(), Memory>
    ensures { OnOk result (tallies.new.items ≡ counted tallies.old.items pos ballot from) }
{
    for i in 0..tallies.len() {
        if tallies[i].is_of(pos, ballot) {
            return tallies[i].add(from);
        }
    }
    let tally = VoteTally::begun(alloc, pos, ballot, from)?;
    tallies.push(tally)?;
    Ok(())
}

/// Whether the position is chosen by one of these.
fn is_reached_in(tallies: &[VoteTally], faults: u8, pos: u32) -> bool
    ensures is { result ≡ is_chosen faults tallies.now pos }
    ensures within { OnTrue result (pos ≤ 65535) }
{
    for tally in tallies {
        if tally.is_reached(faults, pos) {
            return true;
        }
    }
    false
}

/// Keeps those at the position and behind it.
fn keep_from(tallies: &mut Vec<VoteTally>, pos: u32)
    ensures { tallies.new.items ≡ tallies_from pos tallies.old.items }
{
    tallies.retain(|tally| tally.is_from(pos));
}

/// How many positions of a tier's log are chosen, and who has accepted what at those that aren't.
#[derive(Drop)]
pub struct Observer {
    alloc: Global,
    faults: u8,
    chosen: u32,
    tallies: Vec<VoteTally>,
}

impl Model for Observer {
    ghost use Rattle.world.specs.Tallies.{Seen};

    ghost Value = { Seen };

    ghost view = { λ o. record { faults = o.faults; chosen = o.chosen; tallies = o.tallies.items } };
}

impl Observer {
    /// Nothing was sent in a tier of 2u+1.
    pub fn new(alloc: Global, u: u8) -> Self
        ensures { result ≡ new_seen u }
    {
        Observer {
            alloc,
            faults: u,
            chosen: 0,
            tallies: Vec::new(alloc),
        }
    }

    /// How many positions are chosen.
    pub fn chosen(&self) -> u32
        ensures { result ≡ self.now.chosen }
    {
        self.chosen
    }

    /// Takes note of one packet more.
    pub fn hear<V>(&mut self, from: u8, msg: &PaxMsg<V>) -> Result<(), Memory>
        ensures { OnOk result (self.new ≡ hears self.old from msg.now) }
    {
        if let PaxMsg::Accepted(ballot, pos, _) = msg {
            if u32::from(*pos) >= self.chosen {
                return count(self.alloc, &mut self.tallies, *pos, *ballot, from);
            }
        }
        Ok(())
    }

    /// Goes on by the first open position, where it is chosen, and answers whether it is.
    pub fn grow(&mut self) -> bool
        ensures answer { result ≡ is_chosen self.old.faults self.old.tallies self.old.chosen }
        ensures after { self.new ≡ grown self.old }
    {
        if !is_reached_in(&self.tallies, self.faults, self.chosen) {
            return false;
        }
        self.chosen += 1;
        keep_from(&mut self.tallies, self.chosen);
        true
    }
}
