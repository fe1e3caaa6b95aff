// Keys with their values as text.
ghost use Rattle.std.specs.Prelude.{◌≡◌, ◌++◌, OnOk};
ghost use Rattle.std.specs.List.{flat_map};
ghost use Rattle.log_values.specs.Outcomes.{pair, pair_at, pairs_at, is_key_below, is_after};
ghost use Rattle.log_values.specs.Reading.{Found, Gives, Passes};

use crate::Misread;
use aeg_base::limits::KEY_CLASSES;
use aeg_base::{Bytes, Key, Memory};
use aeg_wire::{Cursor, put_u8, put_u32, put_u64};
use std::alloc::Global;

fn is_below(a: Key, b: Key) -> bool
    ensures { result ≡ is_key_below a b }
{
    if a.class < b.class {
        return true;
    }
    a.class == b.class && a.id < b.id
}

fn is_next(last: Option<Key>, key: Key) -> bool
    ensures { result ≡ is_after last key }
{
    match last {
        None => true,
        Some(last) => is_below(last, key),
    }
}

/// A key and its value, where the key comes after the last one.
#[tactic(auto, unfolding(crate::specs::Outcomes::pair_at))]
fn take_pair(last: Option<Key>, from: &mut Cursor<'_>) -> Option<(Key, u64)>
    ensures { Found (λ p. p) result from.new (pair_at last from.old) }
{
    let class = from.take_u8()?;
    if class >= KEY_CLASSES {
        return None;
    }
    let id = from.take_u32()?;
    let value = from.take_u64()?;
    let key = Key { class, id };
    if is_next(last, key) {
        return Some((key, value));
    }
    None
}

/// So many keys with their values, in rising order.
pub fn take_pairs(
    alloc: Global,
    count: u16,
    from: &mut Cursor<'_>,
) -> Result<Vec<(Key, u64)>, Misread>
    ensures { Gives (λ v. v.items) result from.new (pairs_at None count from.old) }
{
    let mut pairs = Vec::new(alloc);
    let mut last = None;
    for _ in 0..count {
        let Some(pair) = take_pair(last, from) else {
            return Err(Misread::Outside);
        };
        last = Some(pair.0);
        pairs.push(pair)?;
    }
    Ok(pairs)
}

/// Passes over so many keys with their values, in rising order.
pub fn pass_pairs(count: u16, from: &mut Cursor<'_>) -> Option<()>
    ensures { Passes result from.new (pairs_at None count from.old) }
{
    let mut last = None;
    for _ in 0..count {
        let Some(pair) = take_pair(last, from) else {
            return None;
        };
        last = Some(pair.0);
    }
    Some(())
}

fn put_pair(out: &mut Bytes, p: &(Key, u64)) -> Result<(), Memory>
    ensures { OnOk result (out.new ≡ out.old ++ pair p.now) }
{
    put_u8(out, p.0.class)?;
    put_u32(out, p.0.id)?;
    put_u64(out, p.1)?;
    Ok(())
}

pub fn put_pairs(out: &mut Bytes, pairs: &[(Key, u64)]) -> Result<(), Memory>
    ensures { OnOk result (out.new ≡ out.old ++ flat_map pair pairs.now) }
{
    for p in pairs {
        put_pair(out, p)?;
    }
    Ok(())
}
