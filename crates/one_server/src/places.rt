// The places of items by tier and number.
ghost use Rattle.std.specs.Prelude.{◌≡◌, ◌==◌, ℕ, None, Some, OnOk, OnErr, if◌then◌else◌};
ghost use Rattle.aeg_base.specs.declared.names.Tier.{Tier};
ghost use Rattle.one_server.specs.Places.{place_in, Sets, Loses, IsSame};

use crate::numbering::Numbering;
use aeg_base::{CallNo, Memory, Tier};
use std::alloc::Global;

/// A place for each number of a tier that has one.
#[derive(Drop)]
pub struct Places {
    pub middle: Numbering,
    pub inventory: Numbering,
    pub payment: Numbering,
}

impl Places {
    pub fn new(alloc: Global) -> Self
        ensures { (tier : Tier) (number : ℕ) → place_in result tier number ≡ None }
    {
        Places {
            middle: Numbering::new(alloc),
            inventory: Numbering::new(alloc),
            payment: Numbering::new(alloc),
        }
    }

    pub fn get(&self, tier: Tier, number: CallNo) -> Option<usize>
        ensures { result ≡ place_in self.now tier number }
    {
        match tier {
            Tier::Mid => self.middle.get(number),
            Tier::Inv => self.inventory.get(number),
            Tier::Pay => self.payment.get(number),
        }
    }

    pub fn set(&mut self, tier: Tier, number: CallNo, place: usize) -> Result<(), Memory>
        ensures ok { OnOk result (Sets self.old self.new tier number place) }
        ensures err { OnErr result (IsSame self.old self.new) }
    {
        match tier {
            Tier::Mid => self.middle.set(number, place),
            Tier::Inv => self.inventory.set(number, place),
            Tier::Pay => self.payment.set(number, place),
        }
    }

    pub fn take_out(&mut self, tier: Tier, number: CallNo)
        ensures { Loses self.old self.new tier number }
    {
        match tier {
            Tier::Mid => self.middle.take_out(number),
            Tier::Inv => self.inventory.take_out(number),
            Tier::Pay => self.payment.take_out(number),
        }
    }
}
