// Copies of calls at a backend, the answers that it keeps, and the floors that it is told.
ghost use Rattle.std.specs.Prelude.{◌≡◌};

use aeg_base::{Bytes, Memory};
use server_shim::{Kept, Shim};
use std::alloc::Global;
use std::process::Abort;
use std::test::*;

const RESERVE: &[u8] = b"reserve 1 2";

const RELEASE: &[u8] = b"release 1 2";

/// A copy: its sender, the call's number and its text; then whether it counts, and which call is ready, with its text.
type Copied = (u8, u32, &'static [u8], bool, Option<(u32, &'static [u8])>);

/// The copies that three middle nodes give.
const COPIES: [Copied; 6] = [
    (0, 2, RESERVE, true, None),
    (0, 2, RELEASE, false, None),
    (1, 2, RELEASE, true, None),
    (2, 2, RESERVE, true, Some((2, RESERVE))),
    (1, 1, RELEASE, true, Some((2, RESERVE))),
    (2, 1, RELEASE, true, Some((1, RELEASE))),
];

/// The copies once call 1 is served and call 2 is below the floor.
const LATE: [Copied; 3] = [
    (0, 1, RELEASE, false, None),
    (1, 2, RESERVE, false, None),
    (0, 3, RELEASE, true, None),
];

/// A node's floor, whether it rises, and the floor that is due.
type Told = (u8, u32, bool, Option<u32>);

const FLOORS: [Told; 5] = [
    (0, 4, true, None),
    (1, 2, true, Some(2)),
    (2, 3, true, Some(3)),
    (2, 3, false, Some(3)),
    (1, 1, false, Some(3)),
];

fn gives(alloc: Global, shim: &mut Shim, from: u8, no: u32, text: &[u8]) -> Result<bool, Fail>
    requires { shim.old.faults ≡ 1 }
    ensures { shim.new.faults ≡ 1 }
{
    if from > 2 {
        return Err("no such node".into());
    }
    let copy = Bytes::of(Vec::from_slice(alloc, text)?);
    Ok(shim.on_call(from, no, &copy)?)
}

/// Whether this call is ready.
fn is_ready(shim: &Shim, call: Option<(u32, &[u8])>) -> Result<bool, Memory> {
    let ready = shim.ready()?;
    Ok(match (&ready, call) {
        (Some((found, copy)), Some((no, text))) => *found == no && copy.items() == text,
        (None, None) => true,
        _ => false,
    })
}

fn copies(rt: &impl Abort, alloc: Global, shim: &mut Shim, rows: &[Copied]) -> Result<(), Fail>
    requires { shim.old.faults ≡ 1 }
    ensures { shim.new.faults ≡ 1 }
{
    for row in rows {
        let (from, no, text, counts, ready) = *row;
        assert!(rt; gives(alloc, shim, from, no, text)? == counts && is_ready(shim, ready)?);
    }
    Ok(())
}

/// A node tells its floor: whether it rises, and the floor that is due then.
fn tells(shim: &mut Shim, from: u8, floor: u32) -> Result<(bool, Option<u32>), Fail>
    requires { shim.old.faults ≡ 1 }
    ensures { shim.new.faults ≡ 1 }
{
    if from > 2 {
        return Err("no such node".into());
    }
    let rises = shim.on_settle(from, floor);
    Ok((rises, shim.due()))
}

fn floors(rt: &impl Abort, shim: &mut Shim) -> Result<(), Fail>
    requires { shim.old.faults ≡ 1 }
    ensures { shim.new.faults ≡ 1 }
{
    for row in &FLOORS {
        let (from, floor, rises, due) = *row;
        assert!(rt; tells(shim, from, floor)? == (rises, due));
    }
    Ok(())
}

/// What is kept of calls 1 and 4.
fn kept(shim: &Shim) -> (Kept, Kept) {
    (shim.kept(1), shim.kept(4))
}

/// Whether the highest numbers that were served are those of calls 1 and 4.
fn has_highest(shim: &Shim) -> Result<bool, Memory> {
    let highest = shim.highest()?;
    Ok(highest.as_slice() == [(1, 9), (4, 0)].as_slice())
}

/// Calls 4 and 1 are served: whether both answers are kept, and call 2 is ready.
fn serves(shim: &mut Shim) -> Result<bool, Memory>
    requires { shim.old.faults ≡ 1 }
    ensures { shim.new.faults ≡ 1 }
{
    shim.served(4, 0)?;
    shim.served(1, 9)?;
    Ok(
        kept(shim) == (Kept::Answer(9), Kept::Answer(0))
            && has_highest(shim)?
            && is_ready(shim, Some((2, RESERVE)))?,
    )
}

/// Floor 3 is settled: whether the answer of call 1 is kept no longer, and no floor is due.
fn settles(shim: &mut Shim) -> bool
    requires { shim.old.faults ≡ 1 }
    ensures { shim.new.faults ≡ 1 }
{
    shim.settle(3);
    kept(shim) == (Kept::Below, Kept::Answer(0)) && shim.due().is_none()
}

/// The copies, what is served, the floors, and the copies that come late.
fn serve_copies(rt: &impl Abort, alloc: Global, shim: &mut Shim) -> Result<(), Fail>
    requires { shim.old.faults ≡ 1 }
{
    assert!(rt; kept(shim) == (Kept::NotDone, Kept::NotDone));
    copies(rt, alloc, shim, &COPIES)?;
    assert!(rt; serves(shim)?);
    floors(rt, shim)?;
    assert!(rt; settles(shim));
    copies(rt, alloc, shim, &LATE)
}

#[test]
fn a_call_is_ready_once_two_of_three_gave_its_text(rt: HostRuntime) -> Result<(), Fail> {
    serve_copies(&rt, rt.alloc(), &mut Shim::new(rt.alloc(), 1))
}
