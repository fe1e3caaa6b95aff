// The seats of trips.
ghost use Rattle.std.specs.Prelude.{◌≡◌, IfOk, OnOk, OnErr};
ghost use Rattle.server_model.specs.Backends.{no_amounts, amount_at};

use crate::ledger::Ledger;
use aeg_base::{Bytes, Memory};
use server_model::{first_part, next_part, number};
use std::alloc::Global;
use std::marker::Model;
use svc_api::Backend;

/// The seats of a trip that can be taken.
const SEATS: u16 = 100;

/// The taken seats of each trip, of which there are 100.
#[derive(Drop)]
pub struct Inventory {
    taken: Ledger,
    alloc: Global,
}

impl Model for Inventory {
    ghost use Rattle.aeg_base.specs.Numbers.{numbers_code};
    ghost use Rattle.std.specs.Coded.{coded_ℕ};
    ghost use Rattle.server_model.specs.Backends.{Amounts};

    ghost Value = { Amounts };

    ghost coded = { numbers_code coded_ℕ };

    ghost view = { λ i. i.taken };
}

impl Inventory {
    pub fn new(alloc: Global) -> Self
        ensures { result ≡ no_amounts }
    {
        Inventory {
            taken: Ledger::new(alloc),
            alloc,
        }
    }

    /// The taken seats of a trip.
    pub fn taken(&self, trip: u32) -> u64
        ensures { result ≡ amount_at self.now trip }
    {
        self.taken.amount(trip)
    }
}

impl Backend for Inventory {
    ghost use Rattle.server_model.specs.Backends.{inventory_serve};
    ghost use Rattle.server_model.specs.CodeBytes.{inventory_byte};

    ghost opening = { no_amounts };

    ghost state_after = { λ seats call. (inventory_serve seats call).state };

    ghost code_of = { λ seats call. (inventory_serve seats call).code };

    fn apply(&mut self, call: &Bytes) -> Result<u8, Memory> {
        let (word, rest) = first_part(call.items(), b' ');
        let Some((trip, rest)) = next_part(rest, b' ') else {
            return Ok(1);
        };
        let Some((qty, rest)) = next_part(rest, b' ') else {
            return Ok(1);
        };
        if let Some(_) = next_part(rest, b' ') {
            return Ok(1);
        }
        let trip = number(trip, 1, 9_999);
        let qty = number(qty, 1, 100);
        if word == b"reserve".as_slice() {
            return self.taken.add(SEATS, trip, qty);
        }
        if word == b"release".as_slice() {
            return self.taken.take(trip, qty);
        }
        Ok(1)
    }

    ghost bytes = { λ seats call. inventory_byte seats call };

    fn blank(&self) -> Result<Self, Memory> {
        Ok(Inventory::new(self.alloc))
    }
}
