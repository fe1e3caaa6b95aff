// Answers that a replica holds, and from when on they are usable.
ghost use Rattle.std.specs.Prelude.{◌≡◌};

use aeg_base::{Memory, Tier};
use resp_durable::Held;
use std::process::Abort;
use std::test::*;

/// The replica that tells it, or none where the answer itself comes, the number, and the code; then whether it became
/// held, the code that is usable, and the floor.
type Came = (Option<u8>, u32, u8, bool, Option<u8>, u32);

/// What comes to replica 0 of three.
const CAME: [Came; 8] = [
    (None, 1, 7, true, None, 1),
    (None, 1, 5, false, None, 1),
    (Some(0), 1, 7, false, None, 1),
    (Some(2), 2, 4, true, Some(4), 1),
    (Some(1), 1, 5, false, Some(7), 3),
    (Some(1), 1, 7, false, Some(7), 3),
    (None, 4, 6, true, None, 3),
    (Some(2), 3, 0, true, Some(0), 4),
];

/// An answer comes, or a replica tells it: whether it became held.
fn take(held: &mut Held, from: Option<u8>, no: u32, code: u8) -> Result<bool, Fail>
    requires { held.old.faults ≡ 1 }
    ensures { held.new.faults ≡ 1 }
{
    match from {
        None => Ok(held.on_answer(Tier::Inv, no, code)?),
        Some(from) if from < 3 => Ok(held.on_have(from, Tier::Inv, no, code)?),
        Some(_) => Err("no such replica".into()),
    }
}

/// The code of the call that is usable, and the floor.
fn told(held: &Held, no: u32) -> (Option<u8>, u32) {
    (held.usable(Tier::Inv, no), held.floor(Tier::Inv))
}

/// What a row says is so.
fn comes(rt: &impl Abort, held: &mut Held, row: &Came) -> Result<(), Fail>
    requires { held.old.faults ≡ 1 }
    ensures { held.new.faults ≡ 1 }
{
    let (from, no, code, is_new, usable, floor) = *row;
    assert!(rt; take(held, from, no, code)? == is_new && told(held, no) == (usable, floor));
    Ok(())
}

fn come(rt: &impl Abort, held: &mut Held) -> Result<(), Fail>
    requires { held.old.faults ≡ 1 }
    ensures { held.new.faults ≡ 1 }
{
    for row in &CAME {
        comes(rt, held, row)?;
    }
    Ok(())
}

/// Whether the other replicas are known to hold the answer of call 1.
fn noted(held: &Held) -> (bool, bool)
    requires { held.now.faults ≡ 1 }
{
    (held.noted(1, Tier::Inv, 1), held.noted(2, Tier::Inv, 1))
}

/// The code that is held of call 4, in either tier.
fn fourth(held: &Held) -> (Option<u8>, Option<u8>) {
    (held.held(Tier::Inv, 4), held.held(Tier::Pay, 4))
}

/// Whether the highest numbers that are held are those of calls 1 to 4.
fn has_highest(held: &Held) -> Result<bool, Memory> {
    let highest = held.highest(Tier::Inv)?;
    Ok(highest.as_slice() == [(1, 7), (2, 4), (3, 0), (4, 6)].as_slice())
}

fn come_and_stand(rt: &impl Abort, held: &mut Held) -> Result<(), Fail>
    requires { held.old.faults ≡ 1 }
{
    come(rt, held)?;
    assert!(rt; noted(held) == (true, false) && fourth(held) == (Some(6), None));
    assert!(rt; has_highest(held)?);
    Ok(())
}

#[test]
fn answers_are_usable_once_two_of_three_hold_them(rt: HostRuntime) -> Result<(), Fail> {
    come_and_stand(&rt, &mut Held::new(rt.alloc(), 1, 0))
}
