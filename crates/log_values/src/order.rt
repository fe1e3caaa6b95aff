// Orders of a job's segments.
ghost use Rattle.std.specs.Prelude.{◌≡◌, ◌++◌, OnOk, OnErr, ◌≤◌, length};
ghost use Rattle.aeg_wire.specs.Fields.{IsBegun};
ghost use Rattle.log_values.specs.Outcomes.{is_in, order_at, order_text, commit, commit_at};
ghost use Rattle.log_values.specs.Reading.{Found, Gives};
ghost use Rattle.svc_api.specs.Orders.{is_order};

use crate::token::pass_token;
use crate::{Misread, Token};
use aeg_base::{Bytes, Memory, Seq};
use aeg_wire::{Cursor, put_bytes, put_u8};
use std::alloc::Global;

fn has(numbers: &[u8], number: u8) -> bool
    ensures { result ≡ is_in number numbers.now }
{
    numbers.iter().any(|m| *m == number)
}

/// Whether each number is below the count, and comes once.
pub fn is_permutation(order: &[u8]) -> bool
    ensures { result ≡ is_order (length order.now) order.now }
{
    let count = order.len();
    for i in 0..count {
        let number = order[i];
        if number as usize >= count {
            return false;
        }
        if has(&order[..i], number) {
            return false;
        }
    }
    true
}

/// An order of so many segments, where it lies.
#[tactic(auto, unfolding(crate::specs::Outcomes::order_at))]
fn pass_order<'a>(count: u8, from: &mut Cursor<'a>) -> Option<&'a [u8]>
    ensures { Found (λ s. s.now) result from.new (order_at count from.old) }
{
    let length = from.take_u8()?;
    let order = from.take_bytes(length as usize)?;
    if order.len() != count as usize {
        return None;
    }
    if !is_permutation(order) {
        return None;
    }
    Some(order)
}

/// A token with an order of its segments, both copied from the bytes.
#[tactic(auto, unfolding(crate::specs::Outcomes::commit_at))]
pub fn take_commit(alloc: Global, from: &mut Cursor<'_>) -> Result<(Token, Seq<u8>), Misread>
    ensures { Gives (λ c. (c.0, c.1)) result from.new (commit_at from.old) }
{
    let (token, count) = pass_token(from).ok_or(Misread::Outside)?;
    let order = pass_order(count, from).ok_or(Misread::Outside)?;
    let token = Token::of(Bytes::of(Vec::from_slice(alloc, token)?));
    let order = Seq::of(Vec::from_slice(alloc, order)?);
    Ok((token, order))
}

/// A token with an order of its segments.
pub fn put_commit(out: &mut Bytes, token: &Token, order: &[u8]) -> Result<(), Memory>
    requires { length order.now ≤ 255 }
    ensures ok { OnOk result (out.new ≡ out.old ++ commit (token.now, order.now)) }
    ensures err { OnErr result (IsBegun out.old out.new (commit (token.now, order.now))) }
{
    put_bytes(out, token.bytes())?;
    put_u8(out, order.len() as u8)?;
    put_bytes(out, order)?;
    Ok(())
}
