// Requests from their texts.
ghost use Rattle.std.specs.Prelude.{◌≡◌};
ghost use Rattle.server_model.specs.Further.{further_parts};
ghost use Rattle.server_model.specs.Requests.{request_of, open_of, book_of, cancel_of, look_of, booking_in, in_range};
ghost use Rattle.booking.specs.Reading.{answered};

use server_model::{Request, first_part, next_part, number};
use thiserror::Error;

/// A text that is no request, with the rule that it breaks first: 1, its first word is no request's; 2, the number of
/// further words; 3, a further word is no number in its range.
#[derive(Clone, Copy, Debug, PartialEq, Eq, Error)]
#[error("no request by rule {row}")]
pub struct BadRequest {
    pub row: u8,
}

const FIRST_WORD: BadRequest = BadRequest { row: 1 };

const WORDS: BadRequest = BadRequest { row: 2 };

const RANGE: BadRequest = BadRequest { row: 3 };

const LAST_TRIP: u32 = 9_999;

const LAST_BOOKING: u32 = 1_048_576;

/// The request that the text is.
pub fn read_request(body: &[u8]) -> Result<Request, BadRequest>
    ensures { result ≡ answered (request_of body.now) }
{
    let (first, further) = first_part(body, b' ');
    if first == b"open".as_slice() {
        return read_open(further);
    }
    if first == b"book".as_slice() {
        return read_book(further);
    }
    if first == b"cancel".as_slice() {
        return read_cancel(further);
    }
    if first == b"look".as_slice() {
        return read_look(further);
    }
    Err(FIRST_WORD)
}

fn read_open(further: Option<&[u8]>) -> Result<Request, BadRequest>
    ensures { result ≡ answered (open_of (further_parts 32 further.entry)) }
{
    let Some((trip, rest)) = next_part(further, b' ') else {
        return Err(WORDS);
    };
    let Some((cap, rest)) = next_part(rest, b' ') else {
        return Err(WORDS);
    };
    let Some((price, rest)) = next_part(rest, b' ') else {
        return Err(WORDS);
    };
    let Some((link, rest)) = next_part(rest, b' ') else {
        return Err(WORDS);
    };
    if let Some(_) = next_part(rest, b' ') {
        return Err(WORDS);
    }
    let Some(trip) = number(trip, 1, LAST_TRIP) else {
        return Err(RANGE);
    };
    let Some(cap) = number(cap, 1, 1_000) else {
        return Err(RANGE);
    };
    let Some(price) = number(price, 1, 1_000_000) else {
        return Err(RANGE);
    };
    let Some(link) = number(link, 0, LAST_TRIP) else {
        return Err(RANGE);
    };
    Ok(Request::Open {
        trip,
        cap,
        price,
        link,
    })
}

fn read_book(further: Option<&[u8]>) -> Result<Request, BadRequest>
    ensures { result ≡ answered (book_of (further_parts 32 further.entry)) }
{
    let Some((trip, rest)) = next_part(further, b' ') else {
        return Err(WORDS);
    };
    let Some((qty, rest)) = next_part(rest, b' ') else {
        return Err(WORDS);
    };
    if let Some(_) = next_part(rest, b' ') {
        return Err(WORDS);
    }
    let Some(trip) = number(trip, 1, LAST_TRIP) else {
        return Err(RANGE);
    };
    let Some(qty) = number(qty, 1, 100) else {
        return Err(RANGE);
    };
    Ok(Request::Book { trip, qty })
}

fn read_cancel(further: Option<&[u8]>) -> Result<Request, BadRequest>
    ensures { result ≡ answered (cancel_of (further_parts 32 further.entry)) }
{
    let Some((booking, rest)) = next_part(further, b' ') else {
        return Err(WORDS);
    };
    if let Some(_) = next_part(rest, b' ') {
        return Err(WORDS);
    }
    let Some(booking) = number(booking, 1, LAST_BOOKING) else {
        return Err(RANGE);
    };
    Ok(Request::Cancel { booking })
}

fn read_look(further: Option<&[u8]>) -> Result<Request, BadRequest>
    ensures { result ≡ answered (look_of (further_parts 32 further.entry)) }
{
    let Some((booking, rest)) = next_part(further, b' ') else {
        return Err(WORDS);
    };
    if let Some(_) = next_part(rest, b' ') {
        return Err(WORDS);
    }
    let Some(booking) = number(booking, 1, LAST_BOOKING) else {
        return Err(RANGE);
    };
    Ok(Request::Look { booking })
}
