// Amounts by trip or by client.
ghost use Rattle.std.specs.Prelude.{◌≡◌, ℕ, OnErr, OnOk, IfOk, Option};
ghost use Rattle.server_model.specs.Backends.{amount_at, no_amounts, granted, adds, takes};

use aeg_base::Memory;
use std::alloc::Global;
use std::collections::BTreeMap;
use std::marker::Model;

/// Amounts, each at most the limit up to which it was added, and 0 where none was.
#[derive(Drop)]
pub struct Ledger {
    amounts: BTreeMap<u32, u16>,
}

impl Model for Ledger {
    ghost use Rattle.aeg_base.specs.Numbers.{numbers_code};
    ghost use Rattle.std.specs.Coded.{coded_ℕ};
    ghost use Rattle.server_model.specs.Backends.{Amounts};

    ghost Value = { Amounts };

    ghost coded = { numbers_code coded_ℕ };

    ghost use Rattle.backend_svc.specs.Ledger.{amounts_of};

    ghost view = { λ l. amounts_of l.amounts.entries };
}

impl Ledger {
    pub fn new(alloc: Global) -> Self
        ensures { result ≡ no_amounts }
    {
        Ledger {
            amounts: BTreeMap::new(alloc),
        }
    }

    pub fn amount(&self, at: u32) -> u64
        ensures { result ≡ amount_at self.now at }
    {
        u64::from(self.held(at))
    }

    fn held(&self, at: u32) -> u16
        ensures { result ≡ amount_at self.now at }
    {
        match self.amounts.get(&at) {
            Some(amount) => *amount,
            None => 0,
        }
    }

    fn put(&mut self, at: u32, amount: u16) -> Result<(), Memory>
        ensures ok { OnOk result (self.new ≡ (granted self.old at amount).state) }
        ensures err { OnErr result (self.new ≡ self.old) }
    {
        self.amounts.insert(at, amount)?;
        Ok(())
    }

    /// Adds an amount, up to the limit. Where one of the two isn't given it is denied.
    pub fn add(&mut self, limit: u16, at: Option<u32>, amount: Option<u32>) -> Result<u8, Memory>
        ensures code { IfOk result (λ code. code ≡ (adds self.old limit at amount).code) }
        ensures state { OnOk result (self.new ≡ (adds self.old limit at amount).state) }
        ensures unchanged { OnErr result (self.new ≡ self.old) }
    {
        let (Some(at), Some(amount)) = (at, amount) else {
            return Ok(1);
        };
        let sum = u64::from(self.held(at)) + u64::from(amount);
        if sum > u64::from(limit) {
            return Ok(2);
        }
        self.put(at, sum as u16)?;
        Ok(0)
    }

    /// Takes an amount away, as far as there is any. Where one of the two isn't given it is denied.
    pub fn take(&mut self, at: Option<u32>, amount: Option<u32>) -> Result<u8, Memory>
        ensures code { IfOk result (λ code. code ≡ (takes self.old at amount).code) }
        ensures state { OnOk result (self.new ≡ (takes self.old at amount).state) }
        ensures unchanged { OnErr result (self.new ≡ self.old) }
    {
        let (Some(at), Some(amount)) = (at, amount) else {
            return Ok(1);
        };
        let held = self.held(at);
        if amount > u32::from(held) {
            return Ok(3);
        }
        self.put(at, held - amount as u16)?;
        Ok(0)
    }
}
