// Clients, the requests that wait, fresh entries and batches.
ghost use Rattle.std.specs.Prelude.{◌≡◌, OnOk, IfOk};
ghost use Rattle.std.specs.List.{All};
ghost use Rattle.log_values.specs.Fields.{IsClient};

use aeg_base::limits::CLIENTS;
use aeg_base::{Bytes, Memory, ReqId};
use batcher::{
    Clients, Pending, fresh, fresh_entries, fresh_entries_in, fresh_in, make_batch, make_batch_in,
};
use booking::Booking;
use log_values::Entry;
use std::alloc::Global;
use std::test::*;

const LOOK: &[u8] = b"look 1";

const OTHER: &[u8] = b"looks 1";

fn text(alloc: Global, bytes: &[u8]) -> Result<Bytes, Memory> {
    Ok(Bytes::of(Vec::from_slice(alloc, bytes)?))
}

fn entry(alloc: Global, client: u8, seq: u32, bytes: &[u8]) -> Result<Entry, Memory>
    ensures { IfOk result (λ e. e.client ≡ client) }
{
    let body = text(alloc, bytes)?;
    Ok(Entry { client, seq, body })
}

/// The client's last number, whether its request is in progress, and whether a reply is kept.
fn told(clients: &Clients, client: u8) -> (u32, bool, bool)
    requires { IsClient client }
{
    (
        clients.last(client),
        clients.busy(client),
        clients.kept(client).is_some(),
    )
}

/// A client's request begins: what is told of the client then.
fn starts(clients: &mut Clients, client: u8, seq: u32) -> (u32, bool, bool)
    requires { IsClient client }
{
    clients.started(ReqId { client, seq });
    told(clients, client)
}

/// A client's request ends: what is told of the client then.
fn ends(
    alloc: Global,
    clients: &mut Clients,
    client: u8,
    seq: u32,
) -> Result<(u32, bool, bool), Memory>
    requires { IsClient client }
{
    clients.replied(ReqId { client, seq }, text(alloc, b"done")?);
    Ok(told(clients, client))
}

fn follows(alloc: Global, clients: &mut Clients) -> Result<bool, Memory> {
    Ok(
        told(clients, 1) == (0, false, false)
            && starts(clients, 1, 1) == (1, true, false)
            && ends(alloc, clients, 1, 1)? == (1, false, true)
            && starts(clients, 1, 2) == (2, true, false)
            && told(clients, 2) == (0, false, false),
    )
}

#[test]
fn a_client_table_follows_its_requests(rt: HostRuntime) -> Result<(), Fail> {
    assert!(rt; follows(rt.alloc(), &mut Clients::new())?);
    Ok(())
}

/// Whether a client's entry is fresh, by either call.
fn are_fresh(
    alloc: Global,
    clients: &Clients,
    client: u8,
    seq: u32,
    bytes: &[u8],
) -> Result<(bool, bool), Memory>
    requires { IsClient client }
{
    let e = entry(alloc, client, seq, bytes)?;
    Ok((
        fresh(clients, &e),
        fresh_in(&Booking::new(alloc), clients, &e)?,
    ))
}

/// Whether of these requests only the next one of client 1 is fresh, while client 2 is busy.
fn only_the_next_is_fresh(alloc: Global, clients: &Clients) -> Result<bool, Memory> {
    Ok(
        are_fresh(alloc, clients, 1, 1, LOOK)? == (true, true)
            && are_fresh(alloc, clients, 1, 0, LOOK)? == (false, false)
            && are_fresh(alloc, clients, 1, 2, LOOK)? == (false, false)
            && are_fresh(alloc, clients, 1, 1, OTHER)? == (false, false)
            && are_fresh(alloc, clients, 2, 2, LOOK)? == (false, false),
    )
}

/// Whether the next one of client 2 is fresh once its first has ended.
fn is_fresh_later(alloc: Global, clients: &mut Clients) -> Result<bool, Memory> {
    ends(alloc, clients, 2, 1)?;
    Ok(are_fresh(alloc, clients, 2, 2, LOOK)? == (true, true))
}

#[test]
fn the_next_request_of_a_client_is_fresh(rt: HostRuntime) -> Result<(), Fail> {
    let mut clients = Clients::new();
    starts(&mut clients, 2, 1);
    assert!(rt; only_the_next_is_fresh(rt.alloc(), &clients)?);
    assert!(rt; is_fresh_later(rt.alloc(), &mut clients)?);
    Ok(())
}

/// Whether the entries are of these clients, in their order.
fn are_of(entries: &[Entry], clients: &[u8]) -> bool {
    if entries.len() != clients.len() {
        return false;
    }
    for (k, e) in entries.iter().enumerate() {
        if clients.get(k) != Some(&e.client) {
            return false;
        }
    }
    true
}

/// Whether the fresh entries of the batch are of these clients.
fn picks(alloc: Global, batch: &[Entry], clients: &[u8]) -> Result<bool, Memory>
    requires { All (λ e. IsClient e.client) batch.now }
{
    let ones = fresh_entries(alloc, &Clients::new(), batch)?;
    Ok(are_of(&ones, clients))
}

/// The same by the call with a service.
fn picks_in(alloc: Global, batch: &[Entry], clients: &[u8]) -> Result<bool, Memory>
    requires { All (λ e. IsClient e.client) batch.now }
{
    let ones = fresh_entries_in(alloc, &Booking::new(alloc), &Clients::new(), batch)?;
    Ok(are_of(&ones, clients))
}

/// A batch, each entry by its client, its number and its text. The second entry of clients 1 and 2 isn't looked at, nor is
/// that of client 3.
const BATCH: [(u8, u32, &[u8]); 7] = [
    (1, 1, LOOK),
    (1, 1, LOOK),
    (2, 2, LOOK),
    (2, 1, LOOK),
    (3, 1, OTHER),
    (3, 1, LOOK),
    (4, 1, LOOK),
];

/// Adds an entry of a client, whose number is from 1 to 16.
fn add(
    alloc: Global,
    entries: &mut Vec<Entry>,
    client: u8,
    seq: u32,
    bytes: &[u8],
) -> Result<(), Fail>
    requires { All (λ e. IsClient e.client) entries.old.items }
    ensures { OnOk result (All (λ e. IsClient e.client) entries.new.items) }
{
    if client == 0 || client > CLIENTS {
        return Err("no such client".into());
    }
    entries.push(entry(alloc, client, seq, bytes)?)?;
    Ok(())
}

fn entries_of(alloc: Global, rows: &[(u8, u32, &[u8])]) -> Result<Vec<Entry>, Fail>
    ensures { IfOk result (λ entries. All (λ e. IsClient e.client) entries.items) }
{
    let mut entries = Vec::new(alloc);
    for row in rows {
        let (client, seq, bytes) = *row;
        add(alloc, &mut entries, client, seq, bytes)?;
    }
    Ok(entries)
}

#[test]
fn the_first_entry_of_each_client_counts(rt: HostRuntime) -> Result<(), Fail> {
    let batch = entries_of(rt.alloc(), &BATCH)?;
    assert!(rt; picks(rt.alloc(), &batch, &[1, 4])? && picks_in(rt.alloc(), &batch, &[1, 4])?);
    Ok(())
}

fn waits(alloc: Global, pending: &mut Pending, client: u8, seq: u32) -> Result<(), Memory>
    requires { IsClient client }
{
    pending.put(ReqId { client, seq }, text(alloc, LOOK)?);
    Ok(())
}

/// Clients 1 to 12 wait; the request of client 2 isn't its next, and client 3 is to be busy.
fn twelve_wait(alloc: Global, pending: &mut Pending) -> Result<(), Memory> {
    for client in 1..13 {
        waits(alloc, pending, client, 1)?;
    }
    waits(alloc, pending, 2, 2)?;
    waits(alloc, pending, 3, 2)
}

/// The clients of the batch that is made then.
const LOWEST: [u8; 8] = [1, 4, 5, 6, 7, 8, 9, 10];

/// Whether the batch is of the lowest clients.
fn is_of_lowest(alloc: Global, clients: &Clients, pending: &Pending) -> Result<bool, Memory> {
    let ones = make_batch(alloc, clients, pending)?;
    Ok(are_of(&ones, &LOWEST))
}

/// The same by the call with a service.
fn is_of_lowest_in(alloc: Global, clients: &Clients, pending: &Pending) -> Result<bool, Memory> {
    let ones = make_batch_in(alloc, &Booking::new(alloc), clients, pending)?;
    Ok(are_of(&ones, &LOWEST))
}

#[test]
fn a_batch_is_of_the_lowest_clients_with_a_fresh_entry(rt: HostRuntime) -> Result<(), Fail> {
    let alloc = rt.alloc();
    let mut pending = Pending::new();
    twelve_wait(alloc, &mut pending)?;
    let mut clients = Clients::new();
    starts(&mut clients, 3, 1);
    assert!(rt;
        is_of_lowest(alloc, &clients, &pending)? && is_of_lowest_in(alloc, &clients, &pending)?
    );
    Ok(())
}

/// The number and the length of the client's request that waits.
fn waiting(pending: &Pending, client: u8) -> Option<(u32, usize)>
    requires { IsClient client }
{
    let (seq, body) = pending.get(client)?;
    Some((seq, body.items().len()))
}

/// What waits of clients 1 and 16, once both have begun their first requests.
fn left(pending: &mut Pending) -> (Option<(u32, usize)>, Option<(u32, usize)>) {
    let mut clients = Clients::new();
    starts(&mut clients, 1, 1);
    starts(&mut clients, 16, 1);
    pending.drop_done(&clients);
    (waiting(pending, 1), waiting(pending, 16))
}

#[test]
fn what_is_done_waits_no_longer(rt: HostRuntime) -> Result<(), Fail> {
    let mut pending = Pending::new();
    waits(rt.alloc(), &mut pending, 1, 1)?;
    waits(rt.alloc(), &mut pending, 16, 2)?;
    assert!(rt; left(&mut pending) == (None, Some((2, 6))));
    Ok(())
}
