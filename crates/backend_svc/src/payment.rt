// The money of clients.
ghost use Rattle.std.specs.Prelude.{◌≡◌, IfOk, OnOk, OnErr};
ghost use Rattle.server_model.specs.Backends.{no_amounts, amount_at};

use crate::ledger::Ledger;
use aeg_base::{Bytes, Memory};
use server_model::{first_part, next_part, number};
use std::alloc::Global;
use std::marker::Model;
use svc_api::Backend;

/// What a client can spend.
const LIMIT: u16 = 10_000;

/// What each client has spent, up to 10,000.
#[derive(Drop)]
pub struct Payment {
    spent: Ledger,
    alloc: Global,
}

impl Model for Payment {
    ghost use Rattle.aeg_base.specs.Numbers.{numbers_code};
    ghost use Rattle.std.specs.Coded.{coded_ℕ};
    ghost use Rattle.server_model.specs.Backends.{Amounts};

    ghost Value = { Amounts };

    ghost coded = { numbers_code coded_ℕ };

    ghost view = { λ i. i.spent };
}

impl Payment {
    pub fn new(alloc: Global) -> Self
        ensures { result ≡ no_amounts }
    {
        Payment {
            spent: Ledger::new(alloc),
            alloc,
        }
    }

    /// What a client has spent.
    pub fn spent(&self, client: u8) -> u64
        ensures { result ≡ amount_at self.now client }
    {
        self.spent.amount(u32::from(client))
    }
}

impl Backend for Payment {
    ghost use Rattle.server_model.specs.Backends.{payment_serve};
    ghost use Rattle.server_model.specs.CodeBytes.{payment_byte};

    ghost opening = { no_amounts };

    ghost state_after = { λ spent call. (payment_serve spent call).state };

    ghost code_of = { λ spent call. (payment_serve spent call).code };

    fn apply(&mut self, call: &Bytes) -> Result<u8, Memory> {
        let (word, rest) = first_part(call.items(), b' ');
        let Some((client, rest)) = next_part(rest, b' ') else {
            return Ok(1);
        };
        let Some((amount, rest)) = next_part(rest, b' ') else {
            return Ok(1);
        };
        if let Some(_) = next_part(rest, b' ') {
            return Ok(1);
        }
        let client = number(client, 1, 16);
        let amount = number(amount, 1, 100_000_000);
        if word == b"charge".as_slice() {
            return self.spent.add(LIMIT, client, amount);
        }
        if word == b"refund".as_slice() {
            return self.spent.take(client, amount);
        }
        Ok(1)
    }

    ghost bytes = { λ spent call. payment_byte spent call };

    fn blank(&self) -> Result<Self, Memory> {
        Ok(Payment::new(self.alloc))
    }
}
