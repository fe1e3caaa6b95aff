// Calls one after another, with their codes and what they leave.
use crate::texts::bytes_of;
use backend_svc::{Inventory, Payment};
use std::alloc::Global;
use std::process::Abort;
use std::test::Fail;
use svc_api::Backend;

fn apply<B: Backend>(alloc: Global, backend: &mut B, call: &str) -> Result<u8, Fail> {
    let call = bytes_of(alloc, call)?;
    Ok(backend.apply(&call)?)
}

/// A call, its code, and the amount that is kept then.
type Row = (&'static str, u8, u64);

const SEATS: [Row; 9] = [
    ("reserve 1 100", 0, 100),
    ("reserve 1 1", 2, 100),
    ("release 1 40", 0, 60),
    ("release 1 61", 3, 60),
    ("release 1 60", 0, 0),
    ("release 1 1", 3, 0),
    ("reserve 10000 1", 1, 0),
    ("reserve 1  1", 1, 0),
    ("charge 1 1", 1, 0),
];

const MONEY: [Row; 7] = [
    ("charge 1 10000", 0, 10_000),
    ("charge 1 1", 2, 10_000),
    ("refund 1 9999", 0, 1),
    ("refund 1 2", 3, 1),
    ("charge 1 010", 1, 1),
    ("charge 17 1", 1, 1),
    ("reserve 1 1", 1, 1),
];

/// A call of the inventory, with its code and the seats of trip 1 that are taken then.
fn takes_seats(
    rt: &impl Abort,
    alloc: Global,
    inventory: &mut Inventory,
    row: &Row,
) -> Result<(), Fail> {
    let (call, code, taken) = *row;
    let told = (apply(alloc, inventory, call)?, inventory.taken(1));
    assert!(rt; told == (code, taken), "{call}");
    Ok(())
}

/// A call of the payment, with its code and what client 1 has spent then.
fn spends(rt: &impl Abort, alloc: Global, payment: &mut Payment, row: &Row) -> Result<(), Fail> {
    let (call, code, spent) = *row;
    let told = (apply(alloc, payment, call)?, payment.spent(1));
    assert!(rt; told == (code, spent), "{call}");
    Ok(())
}

/// An inventory that has served the calls above.
fn after_seats(rt: &impl Abort, alloc: Global) -> Result<Inventory, Fail> {
    let mut inventory = Inventory::new(alloc);
    for row in &SEATS {
        takes_seats(rt, alloc, &mut inventory, row)?;
    }
    Ok(inventory)
}

/// A payment that has served the calls above.
fn after_money(rt: &impl Abort, alloc: Global) -> Result<Payment, Fail> {
    let mut payment = Payment::new(alloc);
    for row in &MONEY {
        spends(rt, alloc, &mut payment, row)?;
    }
    Ok(payment)
}

#[test]
fn seats_of_a_trip(rt: HostRuntime) -> Result<(), Fail> {
    let fresh = after_seats(&rt, rt.alloc())?.blank()?;
    assert!(rt; fresh.taken(1) == 0);
    Ok(())
}

#[test]
fn money_of_a_client(rt: HostRuntime) -> Result<(), Fail> {
    let fresh = after_money(&rt, rt.alloc())?.blank()?;
    assert!(rt; fresh.spent(1) == 0);
    Ok(())
}
