// The pending entries of a middle node.
ghost use Rattle.std.specs.Prelude.{◌≡◌, ℕ, ◌≤◌, ◌<◌, ◌++◌, length, take, replicate, None, Some, OnOk, IfOk};
ghost use Rattle.log_values.specs.declared.mid_value.MidValue.TheVariants.{Batch};
ghost use Rattle.log_values.specs.Values.{FitsMid};
ghost use Rattle.round_model.specs.Lists.{put_at};
ghost use Rattle.round_model.specs.Tables.{tables0, pending_of, batch_of};
ghost use Rattle.tier_model.specs.MidRows.{has_seq};
ghost use Rattle.run_model.specs.BookingRuns.{booking_service};
ghost use Rattle.world.specs.PendingEntries.{IsFirst, listed};

use aeg_base::Memory;
use aeg_base::limits::{BATCH_ENTRIES, CLIENTS};
use log_values::Entry;
use std::alloc::Global;
use std::marker::Model;

/// The entry of each client that waits for its round, by the clients' numbers.
#[derive(Drop)]
pub struct Pending {
    entries: [Option<Entry>; 17],
}

impl Model for Pending {
    ghost use Rattle.std.specs.Prelude.{List, Option};
    ghost use Rattle.log_values.specs.declared.entry.Entry.{Entry};
    ghost use Rattle.world.specs.PendingEntries.{ArePending};

    ghost Value = { List (Option Entry) };

    ghost view = { λ p. p.entries };

    ghost invariant = { λ p. ArePending p.entries };
}

impl Pending {
    pub fn new() -> Self
        ensures { result ≡ replicate 17 None }
    {
        Pending {
            entries: [
                None, None, None, None, None, None, None, None, None, None, None, None, None, None,
                None, None, None,
            ],
        }
    }

    /// Whether the client's entry has this number.
    pub fn has(&self, client: u8, seq: u32) -> bool
        requires { client ≤ CLIENTS }
        ensures { result ≡ has_seq (pending_of self.now client) seq }
    {
        match &self.entries[usize::from(client)] {
            None => false,
            Some(entry) => entry.seq == seq,
        }
    }

    /// The entry is its client's from now on.
    pub fn set(&mut self, entry: Entry)
        requires { IsFirst entry }
        ensures { self.new ≡ put_at None self.old entry.client (Some entry) }
    {
        let place = usize::from(entry.client);
        self.entries[place] = Some(entry);
    }

    /// The entries of the lowest eight clients that have one. While nothing is run each of them is fresh.
    pub fn batch(&self, alloc: Global) -> Result<Vec<Entry>, Memory>
        ensures batch { (depth : ℕ) → IfOk result (λ batch. batch.items ≡ batch_of booking_service.programs (tables0 depth) self.now) }
        ensures fit { IfOk result (λ batch. FitsMid (Batch batch.items)) }
        ensures fits { (depth : ℕ) → FitsMid (Batch (batch_of booking_service.programs (tables0 depth) self.now)) }
    {
        let mut batch = Vec::new(alloc);
        for client in 0..CLIENTS {
            join(&mut batch, &self.entries[usize::from(client) + 1])?;
        }
        Ok(batch)
    }
}

/// The entry, where there is one, joins the batch, if there is room.
fn join(batch: &mut Vec<Entry>, entry: &Option<Entry>) -> Result<(), Memory>
    requires { length batch.old.items ≤ BATCH_ENTRIES }
    ensures { OnOk result (batch.new.items ≡ take BATCH_ENTRIES (batch.old.items ++ listed entry.now)) }
{
    if batch.len() == BATCH_ENTRIES {
        return Ok(());
    }
    if let Some(entry) = entry {
        let copy = entry.copy()?;
        batch.push(copy)?;
    }
    Ok(())
}
