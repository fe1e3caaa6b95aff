// What is seen of the three tiers.
ghost use Rattle.std.specs.Prelude.{◌≡◌, OnOk};
ghost use Rattle.round_model.specs.Lists.{of_tier, with_tier};
ghost use Rattle.world.specs.Tallies.{hears};
ghost use Rattle.world.specs.Watching.{new_watch, hears_log, hears_message, hears_frame, is_of_vote, all_grown};

use crate::observer::Observer;
use aeg_base::{End, Memory, NodeId, Tier};
use frames::{FrameErr, Msg, decode};
use log_model::PaxMsg;
use log_values::AnyValue;
use log_values::format::ACCEPTED_KIND;
use std::alloc::Global;
use std::marker::Model;

/// An observer for each tier.
#[derive(Drop)]
pub struct Watch {
    alloc: Global,
    mid: Observer,
    inv: Observer,
    pay: Observer,
}

impl Model for Watch {
    ghost use Rattle.round_model.specs.Lists.{OfTiers};
    ghost use Rattle.world.specs.Tallies.{Seen};

    ghost Value = { OfTiers Seen };

    ghost view = { λ w. record { mid = w.mid; inv = w.inv; pay = w.pay } };
}

/// Whether the bytes have the kind of an Accepted, the one message that is counted.
fn is_of_vote(bytes: &[u8]) -> bool
    ensures { result ≡ is_of_vote bytes.now }
{
    bytes.len() > 1 && bytes[1] == ACCEPTED_KIND
}

impl Watch {
    /// Nothing was sent in tiers of 2u+1.
    pub fn new(alloc: Global, u: u8) -> Self
        ensures { result ≡ new_watch u }
    {
        Watch {
            alloc,
            mid: Observer::new(alloc, u),
            inv: Observer::new(alloc, u),
            pay: Observer::new(alloc, u),
        }
    }

    /// How many positions of the tier are chosen.
    pub fn chosen(&self, tier: Tier) -> u32
        ensures { result ≡ (of_tier self.now tier).chosen }
    {
        match tier {
            Tier::Mid => self.mid.chosen(),
            Tier::Inv => self.inv.chosen(),
            Tier::Pay => self.pay.chosen(),
        }
    }

    fn hear_node(&mut self, node: NodeId, msg: &PaxMsg<AnyValue>) -> Result<(), Memory>
        ensures { OnOk result (self.new ≡ with_tier self.old node.tier (hears (of_tier self.old node.tier) node.index msg.now)) }
    {
        match node.tier {
            Tier::Mid => self.mid.hear(node.index, msg),
            Tier::Inv => self.inv.hear(node.index, msg),
            Tier::Pay => self.pay.hear(node.index, msg),
        }
    }

    fn hear_log(&mut self, from: End, msg: &PaxMsg<AnyValue>) -> Result<(), Memory>
        ensures { OnOk result (self.new ≡ hears_log self.old from msg.now) }
    {
        match from {
            End::Node(node) => self.hear_node(node, msg),
            End::Client(_) => Ok(()),
        }
    }

    fn hear_message(&mut self, from: End, msg: &Msg) -> Result<(), Memory>
        ensures { OnOk result (self.new ≡ hears_message self.old from msg.now) }
    {
        match msg {
            Msg::Log(log) => self.hear_log(from, log),
            Msg::Request { .. }
            | Msg::Reply { .. }
            | Msg::Token { .. }
            | Msg::Call { .. }
            | Msg::Answer { .. }
            | Msg::Have { .. }
            | Msg::Settle { .. } => Ok(()),
        }
    }

    /// Takes note of one frame more. Only a frame that is counted is read.
    pub fn hear(&mut self, bytes: &[u8]) -> Result<(), Memory>
        ensures { OnOk result (self.new ≡ hears_frame self.old bytes.now) }
    {
        if !is_of_vote(bytes) {
            return Ok(());
        }
        match decode(self.alloc, bytes) {
            Ok((header, msg)) => self.hear_message(header.from, &msg),
            Err(FrameErr::Refused(_)) => Ok(()),
            Err(FrameErr::Memory) => Err(Memory),
        }
    }

    /// Each tier goes on by its first open position, where it is chosen.
    pub fn grow(&mut self)
        ensures { self.new ≡ all_grown self.old }
    {
        self.mid.grow();
        self.inv.grow();
        self.pay.grow();
    }
}
