// The fresh entries of a batch, and a batch of fresh entries.
ghost use Rattle.std.specs.Prelude.{◌≡◌, ◌≤◌, ◌<◌, ◌∷◌, ◌++◌, List, length, take, replicate, false, IfSome, OnOk, IfOk};
ghost use Rattle.std.specs.List.{All};
ghost use Rattle.aeg_base.specs.declared.limits.TheConstants.{BATCH_ENTRIES};
ghost use Rattle.log_values.specs.declared.entry.Entry.{Entry};
ghost use Rattle.log_values.specs.Fields.{IsClient};
ghost use Rattle.server_model.specs.Booking.{booking_table};
ghost use Rattle.round_model.specs.Service.{Programs};
ghost use Rattle.round_model.specs.Tables.{Tables, fresh_entries as fresh_ones, batch_of};
ghost use Rattle.batcher.specs.Clients.{Agrees};
ghost use Rattle.batcher.specs.Tabled.{is_fresh_by, if_passes, passing, picked};
ghost use Rattle.batcher.specs.Waiting.{ArePending};

use crate::freshness::is_request_of;
use crate::{Clients, Pending};
use aeg_base::Memory;
use aeg_base::limits::{BATCH_ENTRIES, CLIENTS};
use booking::Booking;
use log_values::Entry;
use std::alloc::Global;
use svc_api::Service;

/// The fresh entries of a batch, in batch order. Of each client the first entry alone is looked at.
pub fn fresh_entries(
    alloc: Global,
    clients: &Clients,
    batch: &[Entry],
) -> Result<Vec<Entry>, Memory>
    requires { All (λ e. IsClient e.client) batch.now }
    ensures { (m : Programs) (T : Tables) → m.table ≡ booking_table → Agrees clients.now T → IfOk result (λ fresh. fresh.items ≡ fresh_ones m T batch.now) }
{
    fresh_entries_in(alloc, &Booking::new(alloc), clients, batch)
}

/// The same for any service.
pub fn fresh_entries_in<S: Service>(
    alloc: Global,
    svc: &S,
    clients: &Clients,
    batch: &[Entry],
) -> Result<Vec<Entry>, Memory>
    requires { All (λ e. IsClient e.client) batch.now }
    ensures { (m : Programs) (T : Tables) → m.table ≡ S.table svc.now → Agrees clients.now T → IfOk result (λ fresh. fresh.items ≡ fresh_ones m T batch.now) }
{
    pick(alloc, svc, clients, batch)
}

/// The same, by the client table alone.
fn pick<S: Service>(
    alloc: Global,
    svc: &S,
    clients: &Clients,
    batch: &[Entry],
) -> Result<Vec<Entry>, Memory>
    requires { All (λ e. IsClient e.client) batch.now }
    ensures { IfOk result (λ fresh. fresh.items ≡ picked (is_fresh_by (S.table svc.now) clients.now) (replicate 17 false) batch.now) }
{
    let mut fresh = Vec::new(alloc);
    let mut seen = [false; 17];
    for e in batch {
        look_at(svc, clients, e, &mut seen, &mut fresh)?;
    }
    Ok(fresh)
}

/// The entry joins the fresh ones, where it is the first of its client and fresh.
fn look_at<S: Service>(
    svc: &S,
    clients: &Clients,
    e: &Entry,
    seen: &mut [bool; 17],
    fresh: &mut Vec<Entry>,
) -> Result<(), Memory>
    requires { IsClient e.now.client }
    ensures { (rest : List Entry) → OnOk result (fresh.new.items ++ picked (is_fresh_by (S.table svc.now) clients.now) seen.new rest ≡ fresh.old.items ++ picked (is_fresh_by (S.table svc.now) clients.now) seen.old (e.now ∷ rest)) }
{
    let place = usize::from(e.client);
    if seen[place] {
        return Ok(());
    }
    seen[place] = true;
    if !is_request_of(svc, clients, e)? {
        return Ok(());
    }
    let copy = e.copy()?;
    fresh.push(copy)?;
    Ok(())
}

/// The fresh ones among the requests that wait, of the lowest eight clients that have one.
pub fn make_batch(alloc: Global, clients: &Clients, pending: &Pending) -> Result<Vec<Entry>, Memory>
    ensures { (m : Programs) (T : Tables) → m.table ≡ booking_table → Agrees clients.now T → IfOk result (λ batch. batch.items ≡ batch_of m T pending.now) }
{
    make_batch_in(alloc, &Booking::new(alloc), clients, pending)
}

/// The same for any service.
pub fn make_batch_in<S: Service>(
    alloc: Global,
    svc: &S,
    clients: &Clients,
    pending: &Pending,
) -> Result<Vec<Entry>, Memory>
    ensures { (m : Programs) (T : Tables) → m.table ≡ S.table svc.now → Agrees clients.now T → IfOk result (λ batch. batch.items ≡ batch_of m T pending.now) }
{
    gather(alloc, svc, clients, pending.entries())
}

/// The same, by the client table alone.
fn gather<S: Service>(
    alloc: Global,
    svc: &S,
    clients: &Clients,
    entries: &[Option<Entry>],
) -> Result<Vec<Entry>, Memory>
    requires { ArePending entries.now }
    ensures { IfOk result (λ batch. batch.items ≡ take BATCH_ENTRIES (passing (is_fresh_by (S.table svc.now) clients.now) entries.now 16)) }
{
    let mut batch = Vec::new(alloc);
    for client in 0..CLIENTS {
        let place = usize::from(client) + 1;
        join(svc, clients, &entries[place], &mut batch)?;
    }
    Ok(batch)
}

/// The entry joins the batch, where it is fresh and there is room.
fn join<S: Service>(
    svc: &S,
    clients: &Clients,
    entry: &Option<Entry>,
    batch: &mut Vec<Entry>,
) -> Result<(), Memory>
    requires client { IfSome entry.now (λ e. IsClient e.client) }
    requires room { length batch.old.items ≤ BATCH_ENTRIES }
    ensures { OnOk result (batch.new.items ≡ take BATCH_ENTRIES (batch.old.items ++ if_passes (is_fresh_by (S.table svc.now) clients.now) entry.now)) }
{
    if batch.len() == BATCH_ENTRIES {
        return Ok(());
    }
    let Some(e) = entry else {
        return Ok(());
    };
    let is_fresh = is_request_of(svc, clients, e)?;
    if !is_fresh {
        return Ok(());
    }
    let copy = e.copy()?;
    batch.push(copy)?;
    Ok(())
}
