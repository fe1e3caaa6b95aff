// Texts of replies and calls.
ghost use Rattle.std.specs.Prelude.{◌≡◌, ◌++◌, codes, IfOk, OnOk, string_bytes};
ghost use Rattle.server_model.specs.Booking as table;

use crate::keys::narrow;
use aeg_base::limits::TEXT_BYTES;
use aeg_base::{Bytes, Memory};
use itoa::Buffer;
use std::alloc::Global;

fn bytes_of(text: String) -> Bytes
    ensures { result ≡ string_bytes text }
{
    Bytes::of(text.into_bytes())
}

/// A fixed text.
pub fn fixed(alloc: Global, text: &str) -> Result<Bytes, Memory>
    ensures { IfOk result (λ bytes. bytes ≡ text.now) }
{
    Ok(bytes_of(String::from_str(alloc, text)?))
}

/// The first word of a text. There is room for a whole text.
fn begun(alloc: Global, word: &[u8]) -> Result<Vec<u8>, Memory>
    ensures { IfOk result (λ text. text.items ≡ word.now) }
{
    let mut text = Vec::with_capacity(alloc, TEXT_BYTES)?;
    text.extend_from_slice(word)?;
    Ok(text)
}

/// Adds a number behind a space.
fn add(text: &mut Vec<u8>, number: u64) -> Result<(), Memory>
    ensures { OnOk result (text.new.items ≡ text.old.items ++ table.shown number) }
{
    let mut digits = Buffer::new();
    text.push(b' ')?;
    text.extend_from_slice(digits.format(number).as_bytes())?;
    Ok(())
}

fn with_one(alloc: Global, word: &[u8], number: u64) -> Result<Bytes, Memory>
    ensures { IfOk result (λ text. text ≡ word.now ++ table.shown number) }
{
    let mut text = begun(alloc, word)?;
    add(&mut text, number)?;
    Ok(Bytes::of(text))
}

fn with_two(alloc: Global, word: &[u8], first: u64, second: u64) -> Result<Bytes, Memory>
    ensures { IfOk result (λ text. text ≡ word.now ++ (table.shown first ++ table.shown second)) }
{
    let mut text = begun(alloc, word)?;
    add(&mut text, first)?;
    add(&mut text, second)?;
    Ok(Bytes::of(text))
}

pub fn opened(alloc: Global, trip: u32) -> Result<Bytes, Memory>
    ensures { IfOk result (λ text. text ≡ codes "opened" ++ table.shown trip) }
{
    with_one(alloc, b"opened", u64::from(trip))
}

pub fn booked(alloc: Global, booking: u32) -> Result<Bytes, Memory>
    ensures { IfOk result (λ text. text ≡ codes "booked" ++ table.shown booking) }
{
    with_one(alloc, b"booked", u64::from(booking))
}

pub fn cancelled(alloc: Global, booking: u32) -> Result<Bytes, Memory>
    ensures { IfOk result (λ text. text ≡ codes "cancelled" ++ table.shown booking) }
{
    with_one(alloc, b"cancelled", u64::from(booking))
}

/// The status, trip and quantity of a booking, each with its remainder by 2^32.
pub fn status(
    alloc: Global,
    booking: u32,
    status: u64,
    trip: u64,
    qty: u64,
) -> Result<Bytes, Memory>
    ensures { IfOk result (λ text. text ≡ table.status_text booking status trip qty) }
{
    let mut text = begun(alloc, b"status")?;
    add(&mut text, u64::from(booking))?;
    add(&mut text, u64::from(narrow(status)))?;
    add(&mut text, u64::from(narrow(trip)))?;
    add(&mut text, u64::from(narrow(qty)))?;
    Ok(Bytes::of(text))
}

pub fn reserve(alloc: Global, trip: u32, qty: u32) -> Result<Bytes, Memory>
    ensures { IfOk result (λ text. text ≡ table.reserve_text trip qty) }
{
    with_two(alloc, b"reserve", u64::from(trip), u64::from(qty))
}

pub fn release(alloc: Global, trip: u32, qty: u64) -> Result<Bytes, Memory>
    ensures { IfOk result (λ text. text ≡ table.release_text trip qty) }
{
    with_two(alloc, b"release", u64::from(trip), qty)
}

pub fn charge(alloc: Global, client: u8, amount: u64) -> Result<Bytes, Memory>
    ensures { IfOk result (λ text. text ≡ table.charge_text client amount) }
{
    with_two(alloc, b"charge", u64::from(client), amount)
}

pub fn refund(alloc: Global, client: u8, amount: u64) -> Result<Bytes, Memory>
    ensures { IfOk result (λ text. text ≡ table.refund_text client amount) }
{
    with_two(alloc, b"refund", u64::from(client), amount)
}
